// One rule, where its bytes lie, over 32 lent cells of whole pence: its tests, its right sides, storing, and what then differs.
#![tactic(auto)]

ghost use Rattle.std.specs.Prelude.{◌≡◌, ◌<◌};
ghost use Rattle.rule.specs.Uses.{test_at, assign_at};
ghost use Rattle.rule_act.specs.Amounts.{any_false};
ghost use Rattle.rule_sums.specs.RuleSumsInner.{InRange};
ghost use Rattle.rule_act.specs.RuleActInner.{slot_rule, Slot, Put, SidesSoFar, SidesIn, Stored};

use rule::{Assign, Test};
use rule_read::Part;

// A rule that can be stepped, where its slot lies in bytes.
#[derive(Clone, Copy)]
pub struct Placed<'a> {
    pub bytes: &'a [u8],
    pub at: usize,
    pub ghost slot: { Slot bytes.now at },
}

impl Placed<'_> {
    // Tests and assignments start at places that no size gives: one generic function would take the place too, and is no plainer.
    #[tactic(auto, using(crate::proofs::ActSlotLaws::test_in_lem))]
    fn test(&self, j: usize) -> Test
        requires { j < 8 }
        ensures { result ≡ test_at (slot_rule self.now.bytes.now self.now.at) j }
    {
        Test::read(self.bytes, self.at + 12 + 12 * j)
    }

    #[tactic(auto, using(crate::proofs::ActSlotLaws::assign_in_lem))]
    fn assign(&self, j: usize) -> Assign
        requires { j < 8 }
        ensures { result ≡ assign_at (slot_rule self.now.bytes.now self.now.at) j }
    {
        Assign::read(self.bytes, self.at + 108 + 20 * j)
    }

    // Whether any of its tests is false.
    pub fn any_false(&self, cells: &[i64; 32]) -> bool
        ensures { result ≡ any_false (slot_rule self.now.bytes.now self.now.at) cells.now }
    {
        (0..usize::from(self.bytes[self.at + 8])).any(|j| !rule_sums::holds(self.test(j), cells))
    }

    // Its right sides, all from the amounts before the step; `Err` has them where one is out of range, since what `RightSides` says of them
    // may not change.
    pub fn right_sides(&self, cells: &[i64; 32]) -> Result<[i64; 8], [i64; 8]>
        requires { InRange cells.now }
        ensures { SidesIn (slot_rule self.now.bytes.now self.now.at) cells.now result }
    {
        let mut values = [0i64; 8];
        let n = usize::from(self.bytes[self.at + 9]);
        for (j, v) in values[..n].iter_mut().enumerate() {
            *v = rule_sums::worked(self.assign(j), cells);
        }
        if values[..n].iter().copied().any(rule_fields::out_of_range) {
            return Err(values);
        }
        Ok(values)
    }

    // All targets hold the right sides, of which none is written twice; the cells whose amount differs.
    pub fn store(&self, values: &[i64; 8], cells: &mut [i64; 32]) -> u32
        requires { SidesSoFar (slot_rule self.now.bytes.now self.now.at) cells.old (slot_rule self.now.bytes.now self.now.at).a values.now }
        ensures { Stored (slot_rule self.now.bytes.now self.now.at) cells.old (slot_rule self.now.bytes.now self.now.at).a cells.new result }
    {
        let mut m = 0;
        let n = usize::from(self.bytes[self.at + 9]);
        for (j, &v) in values[..n].iter().enumerate() {
            m = put(cells, usize::from(self.assign(j).target), v, m);
        }
        m
    }
}

// Cell c holds v. The members of m, and c where its amount differs from before.
pub fn put(cells: &mut [i64; 32], c: usize, v: i64, m: u32) -> u32
    requires { c < 32 }
    ensures { Put cells.old c v m cells.new result }
{
    let old = cells[c];
    cells[c] = v;
    if old != v {
        return mask::with(m, c);
    }
    m
}
