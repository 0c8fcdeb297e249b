// The marks of all pairs, how many fail, and the first that does.
#![tactic(auto)]

ghost use Rattle.std.specs.Prelude.{◌≡◌, suc, ◌<◌, ◌≤◌, length};
ghost use Rattle.mask.specs.Search.{count};
ghost use Rattle.graph.specs.GraphInner.{Edge};
ghost use Rattle.analysis_pairs.specs.AnalysisPairsInner.{turned_of};
ghost use Rattle.analysis_marks.specs.Index.{index};
ghost use Rattle.analysis_marks.specs.Marks.{fails_at};
ghost use Rattle.analysis_marks.specs.AnalysisMarksInner.{WhetherUnordered, Judges, rules_by, graphs_in, no_marks, Filling, Filled, Marks, Twos, FirstFound};

use analysis_pairs::Relations;

// The first failing pair, the lower rule first, and its two culprits.
#[derive(Clone, Copy, Debug, PartialEq, Eq)]
pub struct Failing {
    pub first: u8,
    pub second: u8,
    pub culprit: u8,
    pub other: u8,
}

// Whether neither of two rules goes before the other.
fn unordered(relations: &Relations, i: usize, j: usize) -> bool
    requires { (i < 32) × (j < 32) }
    ensures { WhetherUnordered (Edge (turned_of relations.now.ahead)) i j result }
{
    !mask::has(relations.ahead[j], i) && !mask::has(relations.ahead[i], j)
}

// The mark of an unordered pair: 1 passes, 2 fails. The paper names these numbers of the array.
fn mark(relations: &Relations, i: usize, j: usize) -> u8
    requires { (i < 32) × (j < 32) }
    ensures { Judges (rules_by relations.now) i j result }
{
    match relations.judge(i, j) {
        None => 1,
        Some(_) => 2,
    }
}

// The marks of row i, which starts at `at`, after those of the rows before it: by number, since the paper names where each stands.
fn row(relations: &Relations, n: usize, i: usize, at: usize, q: &mut [u8; 496])
    requires { Filling (graphs_in n relations.now) i at q.old }
    ensures { Filled (graphs_in n relations.now) (suc i) q.new }
{
    // The marks are filled row by row over the unordered pairs, the form that paper 01 names.
    for j in i + 1..n {
        if unordered(relations, i, j) {
            q[at + (j - (i + 1))] = mark(relations, i, j);
        }
    }
}

// The 496 marks, row by row, where all were 0.
pub fn filled(relations: &Relations, n: usize, q: &mut [u8; 496])
    requires { (n ≤ 32) × (q.old ≡ no_marks) }
    ensures { (length q.new ≡ 496) × Marks (graphs_in n relations.now) q.new }
{
    let mut at = 0;
    // Row by row, the form that paper 01 names.
    for i in 0..n {
        row(relations, n, i, at, q);
        at += 31 - i;
    }
}

// How many marks are 2.
pub fn count_failing(q: &[u8; 496]) -> u16
    ensures { result ≡ count 496 (fails_at q.now) }
{
    let mut failing = 0;
    // A loop that looks at all: `filter` and `count` take one mark at a time, and several times as long.
    for m in q.iter() {
        if *m == 2 {
            failing += 1;
        }
    }
    failing
}

// The pair whose mark stands at k: whole rows are passed as long as there are.
fn pair_at(k: usize) -> (usize, usize)
    requires { k < 496 }
    ensures { (result.0 < result.1) × (result.1 < 32) × (index result.0 result.1 ≡ k) }
{
    let mut left = k;
    // i is the row's rule: a fold would carry the same `left` and could not stop; no plainer.
    for i in 0..31 {
        if left < 31 - i {
            return (i, i + 1 + left);
        }
        left -= 31 - i;
    }
    unreachable!()
}

// The first failing pair, judged again for its culprits.
pub fn first_failing(relations: &Relations, q: &[u8; 496]) -> Option<Failing>
    requires { Twos (rules_by relations.now) q.now }
    ensures { FirstFound (rules_by relations.now) q.now result }
{
    // All the marks, written as a part: a must-fail edit begins it one mark later.
    let k = q[0..].iter().position(|m| *m == 2)?;
    let (i, j) = pair_at(k);
    let culprits = relations.judge(i, j)?;
    Some(Failing {
        first: i as u8,
        second: j as u8,
        culprit: culprits.first,
        other: culprits.second,
    })
}
