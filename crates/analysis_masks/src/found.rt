// What a report says of rules that are judged.
ghost use Rattle.std.specs.Prelude.{◌≡◌, ◌<◌};
ghost use Rattle.std.specs.Option.{ForNone, ForSome};

use analysis_marks::Failing;

// What a report has beside its marks. The pair is the first that fails.
#[derive(Clone, Copy, Debug, PartialEq, Eq)]
pub struct Summary {
    pub cleared: bool,
    pub faulty: u32,
    pub failing: u16,
    pub first: Option<Failing>,
    pub ghost none: { ForNone first (failing ≡ 0) },
    pub ghost some: { ForSome first (λ f. (0 < failing) × (f.first < f.second)) },
}

// A mark is 0 for a pair that is ordered or absent, 1 for one that passes, 2 for one that fails.
#[derive(Clone, Copy, Debug, PartialEq, Eq)]
pub struct Findings {
    pub summary: Summary,
    pub marks: [u8; 496],
}
