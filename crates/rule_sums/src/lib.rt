// One test and one right side, over 32 lent cells of whole pence.
#![tactic(auto)]

ghost use Rattle.std.specs.Prelude.{◌≡◌, false, ◌≤◌, ◌+ℤ◌, ◌-ℤ◌};
ghost use Rattle.rule.specs.Numbers.{out_of_range};
ghost use Rattle.rule_sums.specs.Sums.{at, compares, holds, scaled, value_of};
ghost use Rattle.rule_sums.specs.RuleSumsInner.{InRange, InBounds};

use rule::{Assign, Comparison, Operation, Side, Test};

// The amount of cell c; past the last it is 0.
fn amount(cells: &[i64; 32], c: u8) -> i64
    ensures { result ≡ at cells.now c }
{
    cells.get(usize::from(c)).copied().unwrap_or(0)
}

#[tactic(auto, unfolding(crate::specs::Sums::compares))]
fn compares(code: u8, v: i64, w: i64) -> bool
    ensures { result ≡ compares code v w }
{
    match Comparison::try_from(code) {
        Ok(Comparison::Equal) => v == w,
        Ok(Comparison::Unequal) => v != w,
        Ok(Comparison::Less) => v < w,
        Ok(Comparison::AtMost) => v <= w,
        Ok(Comparison::More) => v > w,
        Ok(Comparison::AtLeast) => v >= w,
        Err(_) => false,
    }
}

// Whether a test holds.
#[tactic(auto, unfolding(crate::specs::Sums::holds))]
pub fn holds(x: Test, cells: &[i64; 32]) -> bool
    ensures { result ≡ holds x cells.now }
{
    let right = match Side::try_from(x.kind) {
        Ok(Side::Cell) => amount(cells, x.right),
        Ok(Side::Constant) | Err(_) => x.constant,
    };
    compares(x.comparison, amount(cells, x.left), right)
}

// The exact product first, then the cut toward zero. By itself, so that the check proves `worked` with no answer.
#[tactic(auto, unfolding(crate::specs::Sums::scaled))]
fn scaled(v: i64, p: u32, q: u32) -> i64
    requires { (out_of_range v ≡ false) × (p ≤ 1000000) × (1 ≤ q) }
    ensures { result ≡ scaled v p q }
{
    v * i64::from(p) / i64::from(q)
}

// A right side, from the amounts before the step. That these are in range is no type of its own: they lie in a State, which may hold any
// amounts (11), and a type would be 32 cells copied at each step.
#[tactic(auto, unfolding(crate::specs::Sums::operated, crate::specs::Sums::value_of))]
pub fn worked(x: Assign, cells: &[i64; 32]) -> i64
    requires { InBounds x × InRange cells.now }
    ensures { result ≡ value_of x cells.now }
{
    let a = amount(cells, x.a);
    let b = amount(cells, x.b);
    match Operation::try_from(x.operation) {
        Ok(Operation::Set) => x.k,
        Ok(Operation::AddConstant) => a + x.k,
        Ok(Operation::Add) => a + b,
        Ok(Operation::Subtract) => a - b,
        Ok(Operation::Scale) => scaled(a, x.p, x.q),
        Err(_) => 0,
    }
}
