// Why a call refuses: the paper's numbers, but for 0, which is done, and 15, which is no refusal.
#![tactic(auto)]

ghost use Rattle.std.specs.Prelude.{◌≡◌};
ghost use Rattle.refusal.specs.RefusalNumbers.{fault_number, number_of, place_of};

// What is wrong with one rule.
#[derive(Clone, Copy, Debug, PartialEq, Eq)]
pub enum Fault {
    Counts,
    Cells,
    Forms,
    Twice,
    Name,
}

// Why a call refuses. A rule's fault goes with the number of that rule, which is its place.
#[derive(Clone, Copy, Debug, PartialEq, Eq)]
pub enum Refusal {
    Length,
    Edition,
    Sizes,
    Contents,
    Rule(Fault, u8),
    Cycle,
    Unfit,
    NoRule,
    NotWaiting,
    HeldBack,
    Posting,
    Endless,
    Short,
}

impl Fault {
    // 5 to 9, by name as a refusal's number is.
    pub fn number(self) -> u8
        ensures { result ≡ fault_number self }
    {
        match self {
            Fault::Counts => 5,
            Fault::Cells => 6,
            Fault::Forms => 7,
            Fault::Twice => 8,
            Fault::Name => 9,
        }
    }
}

impl Refusal {
    // The paper's number. A method and no From: a refusal has a place too, and each is asked for by name.
    pub fn number(self) -> u8
        ensures { result ≡ number_of self }
    {
        match self {
            Refusal::Length => 1,
            Refusal::Edition => 2,
            Refusal::Sizes => 3,
            Refusal::Contents => 4,
            Refusal::Rule(fault, _) => fault.number(),
            Refusal::Cycle => 10,
            Refusal::Unfit => 11,
            Refusal::NoRule => 12,
            Refusal::NotWaiting => 13,
            Refusal::HeldBack => 14,
            Refusal::Posting => 16,
            Refusal::Endless => 17,
            Refusal::Short => 18,
        }
    }

    // Its place: the rule's number, else 255.
    pub fn place(self) -> u8
        ensures { result ≡ place_of self }
    {
        match self {
            Refusal::Rule(_, rule) => rule,
            _ => 255,
        }
    }
}
