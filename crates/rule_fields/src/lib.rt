// What 6, 7 and 9 say of one test, one assignment and one letter, and 11 and 16 of one amount.
#![tactic(auto)]

ghost use Rattle.std.specs.Prelude.{◌≡◌, ℕ, Bool};
ghost use Rattle.rule.specs.Numbers.{out_of_range, test_cell_bad, assign_cell_bad, test_form_bad, assign_form_bad, test_slot_bad, assign_slot_bad, letter_bad};

use rule::{Assign, Comparison, Operation, Side, Test};
use rule_read::Part;

// Whether an amount is out of range.
pub fn out_of_range(v: i64) -> bool
    ensures { result ≡ out_of_range v }
{
    (v < -1000000000000) | (1000000000000 < v)
}

// What 6 and 7 say of a part of a rule.
pub trait Checked: Part {
    ghost cell_bad: { ℕ → Self → Bool };

    ghost form_bad: { Self → Bool };

    ghost slot_bad: { Self → Bool };

    // 6: whether a cell that it uses is k or more.
    fn cell_bad(self, k: u8) -> bool
        ensures { result ≡ cell_bad k self };

    // 7, of one that is counted.
    fn form_bad(self) -> bool
        ensures { result ≡ form_bad self };

    // 7, of a slot past the count: whether a field is not 0.
    fn slot_bad(self) -> bool
        ensures { result ≡ slot_bad self };
}

impl Checked for Test {
    ghost cell_bad = { test_cell_bad };

    ghost form_bad = { test_form_bad };

    ghost slot_bad = { test_slot_bad };

    fn cell_bad(self, k: u8) -> bool {
        let side_bad = Side::try_from(self.kind) == Ok(Side::Cell) && k <= self.right;
        (k <= self.left) | side_bad
    }

    fn form_bad(self) -> bool {
        let side_bad = match Side::try_from(self.kind) {
            Ok(Side::Constant) => self.right != 0,
            Ok(Side::Cell) => self.constant != 0,
            Err(_) => true,
        };
        Comparison::try_from(self.comparison).is_err() | side_bad | out_of_range(self.constant)
    }

    fn slot_bad(self) -> bool {
        (self.left != 0)
            | (self.comparison != 0)
            | (self.kind != 0)
            | (self.right != 0)
            | (self.constant != 0)
    }
}

impl Checked for Assign {
    ghost cell_bad = { assign_cell_bad };

    ghost form_bad = { assign_form_bad };

    ghost slot_bad = { assign_slot_bad };

    fn cell_bad(self, k: u8) -> bool {
        let used_bad = match Operation::try_from(self.operation) {
            Ok(op) => (op.uses_a() & (k <= self.a)) | (op.uses_b() & (k <= self.b)),
            Err(_) => false,
        };
        (k <= self.target) | used_bad
    }

    fn form_bad(self) -> bool {
        let Ok(op) = Operation::try_from(self.operation) else {
            return true;
        };
        let p = self.p;
        let q = self.q;
        (!op.uses_k() & (self.k != 0))
            | out_of_range(self.k)
            | (!op.uses_a() & (self.a != 0))
            | (!op.uses_b() & (self.b != 0))
            | (!op.uses_p() & ((p != 0) | (q != 0)))
            | (op.uses_p() & ((1000000 < p) | (q < 1) | (1000000 < q)))
    }

    fn slot_bad(self) -> bool {
        (self.target != 0)
            | (self.operation != 0)
            | (self.a != 0)
            | (self.b != 0)
            | (self.k != 0)
            | (self.p != 0)
            | (self.q != 0)
    }
}

pub fn letter_bad(b: u8) -> bool
    ensures { result ≡ letter_bad b }
{
    !matches!(b, b'a'..=b'z' | b'0'..=b'9' | b'-')
}
