// The pair condition on rows of masks: who may trigger whom, who commutes with whom, and whether a pair passes.
#![tactic(auto)]

ghost use Rattle.std.specs.Prelude.{◌≡◌, not, ℕ, ◌<◌, ◌≤◌, get_or};
ghost use Rattle.mask.specs.Mask.{has};
ghost use Rattle.analysis_pairs.specs.RuleMasks.{may_trigger, commute};
ghost use Rattle.analysis_pairs.specs.AnalysisPairsInner.{edge, triggering, triggers_in, clashes, Among};
ghost use Rattle.analysis_pairs.specs.AnalysisPairsInner.{turned_of, rules_in, Mutual, Touches, clashing, grows, Grew, JudgedAs};

// Four masks a rule, of at most 32 rules: the cells that it watches, reads and writes, and the rules that it precedes. Rows and not
// records: each condition goes over one row, and a row of records would be taken apart for it; no plainer.
#[derive(Clone, Copy)]
pub struct Masks {
    pub n: usize,
    pub watch: [u32; 32],
    pub reads: [u32; 32],
    pub writes: [u32; 32],
    pub precedes: [u32; 32],
}

// What pairs are judged by, three masks a rule: the rules that it may trigger, the rules that go before it, and the
// rules that do not commute with it.
#[derive(Clone, Copy)]
pub struct Relations {
    pub trig: [u32; 32],
    pub ahead: [u32; 32],
    pub clash: [u32; 32],
    pub ghost mutual: { Mutual clash },
}

// R1 and R2.
#[derive(Clone, Copy, PartialEq)]
struct Sets {
    first: u32,
    second: u32,
}

// The two rules through which a pair fails.
#[derive(Clone, Copy)]
pub struct Culprits {
    pub first: u8,
    pub second: u8,
}

// Mask r: the rules that watch a cell that r writes.
// Two rows and not Masks: the step bound has no others, and filling them up is no plainer.
pub fn triggers(watch: &[u32; 32], writes: &[u32; 32], n: usize) -> [u32; 32]
    requires { (n ≤ 32) × Among n (may_trigger (triggering 0 watch.now writes.now)) }
    ensures { result ≡ triggers_in watch.now writes.now }
{
    mask::row(n, |r| mask::touching(watch, writes[r]))
}

// Mask r: the cells that r watches, reads or writes.
fn touched(m: &Masks) -> [u32; 32]
    ensures { (r : ℕ) → r < 32 → Touches m.now.watch m.now.reads m.now.writes r (get_or result r 0) }
{
    mask::row(32, |r| m.watch[r] | m.reads[r] | m.writes[r])
}

// The rules that do not commute with i: they touch what i writes, or write what i touches.
fn clashing(touched: &[u32; 32], writes: &[u32; 32], i: usize) -> u32
    requires { i < 32 }
    ensures { (s : ℕ) → s < 32 → has result s ≡ clashing touched.now writes.now i s }
{
    let struck = mask::touching(touched, writes[i]) | mask::touching(writes, touched[i]);
    mask::without(struck, i)
}

// Mask r: the rules that do not commute with r.
pub fn clashes(m: &Masks) -> [u32; 32]
    requires { (m.now.n ≤ 32) × Among m.now.n (λ r s. not (commute m.now r s)) }
    ensures { result ≡ clashes m.now }
{
    let all = touched(m);
    mask::row(m.n, |r| clashing(&all, &m.writes, r))
}

// The numbers whose mask in the row names s.
fn naming(rows: &[u32; 32], s: usize) -> u32
    requires { s < 32 }
    ensures { (r : ℕ) → r < 32 → has result r ≡ edge rows.now r s }
{
    mask::such(|r| mask::has(rows[r], s))
}

// The row turned round, of numbers below n: mask s names the numbers whose mask names s.
pub fn turned(rows: &[u32; 32], n: usize) -> [u32; 32]
    requires { (n ≤ 32) × Among n (edge rows.now) }
    ensures { result ≡ turned_of rows.now }
{
    mask::row(n, |s| naming(rows, s))
}

impl Relations {
    // One round of growing a beside b.
    fn grow(&self, a: u32, b: u32) -> u32
        ensures { (s : ℕ) → has result s ≡ grows self.now.trig (turned_of self.now.ahead) a b s }
    {
        a | (mask::gather(&self.trig, a) & mask::gather(&self.ahead, b))
    }

    // R1 and R2, grown from i and j until nothing changes.
    fn grown(&self, i: usize, j: usize) -> Sets
        requires { (i < 32) × (j < 32) }
        ensures { Grew self.now.trig (turned_of self.now.ahead) i j result.first result.second }
    {
        let mut sets = Sets {
            first: mask::with(0, i),
            second: mask::with(0, j),
        };
        loop {
            let next = Sets {
                first: self.grow(sets.first, sets.second),
                second: self.grow(sets.second, sets.first),
            };
            if next == sets {
                return sets;
            }
            sets = next;
        }
    }

    // The two rules through which the pair i and j fails, where it does not pass.
    #[tactic(auto, using(mask::proofs::MaskLaws::lowest_bound))]
    pub fn judge(&self, i: usize, j: usize) -> Option<Culprits>
        requires { (i < 32) × (j < 32) }
        ensures { JudgedAs (rules_in self.now.trig self.now.ahead self.now.clash) i j result }
    {
        let sets = self.grown(i, j);
        let r = mask::lowest(mask::common(sets.first, mask::gather(&self.clash, sets.second)));
        // 32 is what `lowest` gives of no member.
        if 32 <= r {
            return None;
        }
        let s = mask::lowest(mask::common(self.clash[r], sets.second));
        Some(Culprits {
            first: r as u8,
            second: s as u8,
        })
    }
}
