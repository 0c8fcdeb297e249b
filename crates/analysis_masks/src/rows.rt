// The report and the step bound of rules that are given by rows of masks.
ghost use Rattle.std.specs.Prelude.{◌≡◌, ℕ, ◌≤◌};
ghost use Rattle.mask.specs.Mask.{has};
ghost use Rattle.graph.specs.Graph.{leads};
ghost use Rattle.analysis_pairs.specs.AnalysisPairsInner.{triggering};
ghost use Rattle.analysis_masks.specs.AnalysisMasksInner.{Orderly};
ghost use Rattle.analysis_marks.specs.AnalysisMarksInner.{no_marks};
ghost use Rattle.analysis_masks.specs.Report.{Reported};
ghost use Rattle.analysis_masks.specs.Bound.{Bounded};
ghost use Rattle.analysis_masks.specs.Found.{report_in, bound_of};

use crate::found::Summary;
use analysis_pairs::{Masks, Relations};
use refusal::Refusal;

// The rules that reach themselves.
fn at_fault(trig: [u32; 32], n: usize) -> u32
    requires { n ≤ 32 }
    ensures { (r : ℕ) → has result r ≡ leads trig n r r }
{
    graph::loops(graph::closure(trig, n))
}

// The report: its marks are filled in where all were 0, which is the form that the paper names; the rest is given back.
pub fn judged(m: &Masks, marks: &mut [u8; 496]) -> Summary
    requires { Orderly m.now × (marks.old ≡ no_marks) }
    ensures { Reported m.now (report_in result marks.new) }
{
    let n = m.n;
    let before = graph::closure(m.precedes, n);
    let relations = Relations {
        trig: analysis_pairs::triggers(&m.watch, &m.writes, n),
        ahead: analysis_pairs::turned(&before, n),
        clash: analysis_pairs::clashes(m),
    };
    let faulty = at_fault(relations.trig, n);
    analysis_marks::filled(&relations, n, marks);
    let failing = analysis_marks::count_failing(marks);
    let first = analysis_marks::first_failing(&relations, marks);
    Summary {
        cleared: faulty == 0 && failing == 0,
        faulty,
        failing,
        first,
    }
}

// The step bound of a set of rules: it asks who may trigger whom, and no more, so two rows and not Masks.
pub fn bound(n: usize, watch: &[u32; 32], writes: &[u32; 32], set: u32) -> Result<u32, Refusal>
    requires { Orderly (triggering n watch.now writes.now) }
    ensures { Bounded (triggering n watch.now writes.now) set (bound_of result) }
{
    if mask::beyond(set, n) {
        return Err(Refusal::Unfit);
    }
    let trig = analysis_pairs::triggers(watch, writes, n);
    if at_fault(trig, n) != 0 {
        return Err(Refusal::Endless);
    }
    let w = analysis_weights::weights(&trig, n);
    Ok(analysis_weights::total(&w, set))
}
