// One rule of a book: what it holds. What it uses and what is wrong with it is said in specs/.
#![tactic(auto)]

ghost use Rattle.std.specs.Prelude.{◌≡◌};
ghost use Rattle.rule.specs.Codes.{comparison_code, operation_code, side_code, Decodes};
ghost use Rattle.rule.specs.Uses.{k_used, a_used, b_used, p_used};

// How a test compares its left cell with its right side.
#[derive(Clone, Copy, Debug, PartialEq, Eq)]
pub enum Comparison {
    Equal,
    Unequal,
    Less,
    AtMost,
    More,
    AtLeast,
}

// What a test's right side is.
#[derive(Clone, Copy, Debug, PartialEq, Eq)]
pub enum Side {
    Constant,
    Cell,
}

// What an assignment gives: K, A + K, A + B, A - B or A x p / q.
#[derive(Clone, Copy, Debug, PartialEq, Eq)]
pub enum Operation {
    Set,
    AddConstant,
    Add,
    Subtract,
    Scale,
}

// A code that the paper does not give.
#[derive(Clone, Copy, Debug, PartialEq, Eq)]
pub struct UnknownCode(pub u8);

impl TryFrom<u8> for Comparison {
    type Error = UnknownCode;

    ghost try_from_gives = { Decodes comparison_code 5 };

    fn try_from(code: u8) -> Result<Self, UnknownCode> {
        match code {
            0 => Ok(Comparison::Equal),
            1 => Ok(Comparison::Unequal),
            2 => Ok(Comparison::Less),
            3 => Ok(Comparison::AtMost),
            4 => Ok(Comparison::More),
            5 => Ok(Comparison::AtLeast),
            _ => Err(UnknownCode(code)),
        }
    }
}

impl TryFrom<u8> for Side {
    type Error = UnknownCode;

    ghost try_from_gives = { Decodes side_code 1 };

    fn try_from(code: u8) -> Result<Self, UnknownCode> {
        match code {
            0 => Ok(Side::Constant),
            1 => Ok(Side::Cell),
            _ => Err(UnknownCode(code)),
        }
    }
}

impl TryFrom<u8> for Operation {
    type Error = UnknownCode;

    ghost try_from_gives = { Decodes operation_code 4 };

    fn try_from(code: u8) -> Result<Self, UnknownCode> {
        match code {
            0 => Ok(Operation::Set),
            1 => Ok(Operation::AddConstant),
            2 => Ok(Operation::Add),
            3 => Ok(Operation::Subtract),
            4 => Ok(Operation::Scale),
            _ => Err(UnknownCode(code)),
        }
    }
}

// What each operation uses of an assignment.
impl Operation {
    pub fn uses_k(self) -> bool
        ensures { result ≡ k_used (operation_code self) }
    {
        matches!(self, Operation::Set | Operation::AddConstant)
    }

    pub fn uses_a(self) -> bool
        ensures { result ≡ a_used (operation_code self) }
    {
        self != Operation::Set
    }

    pub fn uses_b(self) -> bool
        ensures { result ≡ b_used (operation_code self) }
    {
        matches!(self, Operation::Add | Operation::Subtract)
    }

    // p and q.
    pub fn uses_p(self) -> bool
        ensures { result ≡ p_used (operation_code self) }
    {
        self == Operation::Scale
    }
}

// The codes stay bytes: a book may hold an unknown one, which 7 refuses.
#[derive(Clone, Copy)]
pub struct Test {
    pub left: u8,
    pub comparison: u8,
    pub kind: u8,
    pub right: u8,
    pub constant: i64,
}

// The operation stays a byte, as a test's codes do.
#[derive(Clone, Copy)]
pub struct Assign {
    pub target: u8,
    pub operation: u8,
    pub a: u8,
    pub b: u8,
    pub k: i64,
    pub p: u32,
    pub q: u32,
}

// The four count bytes are t, a, m and zero. The arrays have counts beside them since a table's memory is fixed: no slot is left out.
#[derive(Clone, Copy)]
pub struct Rule {
    pub watch: u32,
    pub precedes: u32,
    pub t: u8,
    pub a: u8,
    pub m: u8,
    pub zero: u8,
    pub tests: [Test; 8],
    pub assigns: [Assign; 8],
    pub name: [u8; 16],
}
