// The cells that a rule reads and writes, as masks, from the bytes where it lies, in a table or in a book: of cells below 32, which is
// all of them where it is sound.
#![tactic(auto)]

ghost use Rattle.std.specs.Prelude.{◌≡◌, ◌&&◌, Bool, ℕ, ◌+◌, ◌*◌, ◌≤◌, ◌<◌, ltb, eqb, length};
ghost use Rattle.mask.specs.Search.{some};
ghost use Rattle.mask.specs.Mask.{has};
ghost use Rattle.little.specs.Little.{byte_at};
ghost use Rattle.rule.specs.Uses.{test_reads, side_reads, reads, writes};
ghost use Rattle.rule_read.specs.Parts.{rule_of};
ghost use Rattle.rule_read.specs.RuleReadInner.{Room};

use rule::{Assign, Operation, Side, Test};
use rule_read::Part;

// The set of cell c alone, or of none where c is 32 or more.
fn cell(c: u8) -> u32
    ensures { (x : ℕ) → has result x ≡ (ltb x 32 && eqb x c) }
{
    if c < 32 {
        mask::with(0, usize::from(c))
    } else {
        0
    }
}

// The set m where b holds, and none where it does not.
fn kept(b: bool, m: u32) -> u32
    ensures { (x : ℕ) → has result x ≡ (b && has m x) }
{
    if b { m } else { 0 }
}

fn test_reads(t: Test) -> u32
    ensures { (x : ℕ) → has result x ≡ (ltb x 32 && test_reads t x) }
{
    let side = Side::try_from(t.kind);
    cell(t.left) | kept(side == Ok(Side::Cell), cell(t.right))
}

fn side_reads(s: Assign) -> u32
    ensures { (x : ℕ) → has result x ≡ (ltb x 32 && side_reads s x) }
{
    match Operation::try_from(s.operation) {
        Ok(op) => kept(op.uses_a(), cell(s.a)) | kept(op.uses_b(), cell(s.b)),
        Err(_) => 0,
    }
}

// The union of the sets that f gives below n; T says what their members are.
fn united<F: Fn(usize) -> u32>(n: usize, f: F) -> u32
    requires { (j : ℕ) → j < n → F.pre f j }
    ensures { (T : ℕ → ℕ → Bool)
        → ((j m : ℕ) → j < n → F.post f j m → (x : ℕ) → has m x ≡ T j x)
        → (x : ℕ)
        → has result x ≡ some n (λ j. T j x) }
{
    // A loop: by `fold` the closure would call f, and so need a clause of its own; no plainer.
    let mut all = 0;
    for j in 0..n {
        all |= f(j);
    }
    all
}

// The cells that the rule whose head is at `at` reads; it has room for t tests and a assignments. Two counts and not Counts: letters
// are not asked for, and leaving them out is plainer.
pub fn reads(s: &[u8], at: usize, t: usize, a: usize) -> u32
    requires { Room s.now at t a 0 × (byte_at s.now (at + 8) ≤ t) × (byte_at s.now (at + 9) ≤ a) }
    ensures { (x m : ℕ) → has result x ≡ (ltb x 32 && reads (rule_of s.now at t a m) x) }
{
    let ct = rule_read::count_at(s, at + 8);
    let ca = rule_read::count_at(s, at + 9);
    united(ct, |j| test_reads(Test::read(s, at + 12 + 12 * j)))
        | united(
            ca,
            |j| side_reads(Assign::read(s, at + 12 + 12 * t + 20 * j)),
        )
}

// The cells that it writes.
pub fn writes(s: &[u8], at: usize, t: usize, a: usize) -> u32
    requires { Room s.now at t a 0 × (byte_at s.now (at + 9) ≤ a) }
    ensures { (x m : ℕ) → has result x ≡ (ltb x 32 && writes (rule_of s.now at t a m) x) }
{
    let ca = rule_read::count_at(s, at + 9);
    united(ca, |j| cell(s[at + 12 + 12 * t + 20 * j]))
}
