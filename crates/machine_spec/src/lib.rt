// A state by value, and how a run ends. What a step, a posting and a run do is said in specs/.
#![tactic(auto)]

ghost use Rattle.std.specs.Prelude.{◌≡◌};
ghost use Rattle.machine_spec.specs.Run.{end_number};

#[derive(Clone, Copy)]
pub struct State {
    pub cells: [i64; 32],
    pub waiting: u32,
    pub faults: u32,
}

// Nothing waits, or the budget is used while something waits.
#[derive(Clone, Copy, Debug, PartialEq, Eq)]
pub enum End {
    Rest,
    Spent,
}

impl End {
    // The paper's number, which is no refusal; by name as a refusal's is.
    pub fn number(self) -> u8
        ensures { result ≡ end_number self }
    {
        match self {
            End::Rest => 0,
            End::Spent => 15,
        }
    }
}

// The state that a run reached, and the steps taken.
#[derive(Clone, Copy)]
pub struct Run {
    pub state: State,
    pub steps: u32,
    pub end: End,
}
