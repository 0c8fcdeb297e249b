// Graphs of at most 32 rules: mask r of a row is the set of the rules that r leads straight to.
#![tactic(auto)]

ghost use Rattle.std.specs.Prelude.{◌≡◌, ℕ, ◌<◌, ◌≤◌, length, get_or};
ghost use Rattle.mask.specs.Mask.{has};
ghost use Rattle.graph.specs.Graph.{leads};
ghost use Rattle.graph.specs.GraphInner.{Through};

// One more rule, k, may stand in between.
fn through(q: &mut [u32; 32], k: usize)
    requires { (k < 32) × (length q.old ≡ 32) }
    ensures { Through q.old k q.new }
{
    let row = q[k];
    // Each mask is stored, changed or not: behind a test they would be stored one by one, which takes several times as long.
    for m in q.iter_mut() {
        let more = if mask::has(*m, k) { row } else { 0 };
        *m |= more;
    }
}

// Mask r of the result: the rules that r leads to, directly or through rules below n.
pub fn closure(rows: [u32; 32], n: usize) -> [u32; 32]
    requires { n ≤ 32 }
    ensures { (r s : ℕ) → has (get_or result r 0) s ≡ leads rows n r s }
{
    let mut q = rows;
    // k is a rule, not a place in a row: a fold over 0..n is no plainer.
    for k in 0..n {
        through(&mut q, k);
    }
    q
}

// The rules that name themselves in their own mask: of a closure, those on a cycle.
pub fn loops(rows: [u32; 32]) -> u32
    ensures { (r : ℕ) → has result r ≡ has (get_or rows r 0) r }
{
    mask::such(|x| mask::has(rows[x], x))
}
