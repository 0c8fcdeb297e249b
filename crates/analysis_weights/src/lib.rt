// The weights of at most 32 rules: mask r of a row is the set of the rules that r may trigger.
#![tactic(auto)]

ghost use Rattle.std.specs.Prelude.{◌≡◌, ◌^◌, ◌<◌, ◌≤◌};
ghost use Rattle.mask.specs.Search.{IsLeast};
ghost use Rattle.graph.specs.GraphInner.{Rows};
ghost use Rattle.analysis_weights.specs.Weight.{total};
ghost use Rattle.analysis_weights.specs.AnalysisWeightsInner.{sum_below, weight_in, Weights, ready, Weighable, Weighed};

// The sum of w over the members of m: the step bound of the set, where w are the weights.
pub fn total(w: &[u32; 32], m: u32) -> u32
    requires { sum_below 32 (weight_in w.now) < 2 ^ 32 }
    ensures { result ≡ total 32 m (weight_in w.now) }
{
    let mut t = 0;
    for (x, v) in w.iter().enumerate() {
        if mask::has(m, x) {
            t += v;
        }
    }
    t
}

// The lowest rule of `left` that may trigger none of `left`.
fn ready(trig: &[u32; 32], left: u32) -> Option<usize>
    ensures { IsLeast 32 (ready trig.now left) result }
{
    (0..32).find(|x| mask::has(left, *x) && !mask::meets(trig[*x], left))
}

// Each call weighs one rule whose triggered rules are all weighed, then calls itself, the form that paper 01 names; the rules of `left`
// are not weighed.
fn weigh(trig: &[u32; 32], left: u32, w: &mut [u32; 32])
    requires { Weighable trig.now left w.old }
    ensures { Weighed trig.now left w.old w.new }
{
    if let Some(r) = ready(trig, left) {
        let t = total(w, trig[r]);
        w[r] = t + 1;
        weigh(trig, mask::without(left, r), w);
    }
}

// The weights of the rules below n.
pub fn weights(trig: &[u32; 32], n: usize) -> [u32; 32]
    requires { (n ≤ 32) × Rows n trig.now }
    ensures { Weights trig.now n result }
{
    let mut w = [0u32; 32];
    weigh(trig, mask::below(n), &mut w);
    w
}
