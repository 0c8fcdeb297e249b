// The analysis of a table: whether it is cleared, which rules stand in the way, and the step bound of a set.
#![tactic(auto)]

ghost use Rattle.std.specs.Prelude.{◌≡◌, ◌<◌};
ghost use Rattle.little.specs.Little.{byte_at};
ghost use Rattle.rule.specs.Uses.{reads, writes};
ghost use Rattle.table.specs.Check.{Sound};
ghost use Rattle.table.specs.Memory.{table_from};
ghost use Rattle.analysis_masks.specs.Found.{report_of, bound_of};
ghost use Rattle.analysis.specs.TableMasks.{cells_of, masks_of};
ghost use Rattle.analysis.specs.Says.{ReportSays, BoundSays};

use analysis_masks::Findings;
use analysis_pairs::Masks;
use refusal::Refusal;

// The cells that rule r of a sound table reads.
fn reads(table: &[u8; 9092], r: usize) -> u32
    requires { Sound (table_from table.now) × (r < byte_at table.now 1) }
    ensures { result ≡ cells_of reads (table_from table.now) r }
{
    rule_uses::reads(table, 4 + 284 * r, 8, 8)
}

// The cells that it writes. Two functions and not one with a closure, which would need a clause of its own; no plainer.
fn writes(table: &[u8; 9092], r: usize) -> u32
    requires { Sound (table_from table.now) × (r < byte_at table.now 1) }
    ensures { result ≡ cells_of writes (table_from table.now) r }
{
    rule_uses::writes(table, 4 + 284 * r, 8, 8)
}

// The row of what each rule writes.
#[tactic(auto, using(crate::proofs::TableMasksLaws::few_rules))]
fn written(table: &[u8; 9092]) -> [u32; 32]
    requires { Sound (table_from table.now) }
    ensures { result ≡ (masks_of (table_from table.now)).writes }
{
    mask::row(usize::from(table[1]), |r| writes(table, r))
}

// The four rows of masks of a sound table.
#[tactic(auto, using(crate::proofs::TableMasksLaws::few_rules))]
fn masks(table: &[u8; 9092]) -> Masks
    requires { Sound (table_from table.now) }
    ensures { result ≡ masks_of (table_from table.now) }
{
    let n = usize::from(table[1]);
    Masks {
        n,
        watch: table_rows::watches(table),
        reads: mask::row(n, |r| reads(table, r)),
        writes: written(table),
        precedes: table_rows::precedes(table),
    }
}

pub fn report(table: &[u8; 9092]) -> Result<Findings, Refusal>
    ensures { ReportSays (table_from table.now) (report_of result) }
{
    table::check(table)?;
    let mut marks = [0u8; 496];
    let summary = analysis_masks::rows::judged(&masks(table), &mut marks);
    Ok(Findings { summary, marks })
}

#[tactic(auto, using(crate::proofs::TableMasksLaws::few_rules))]
pub fn bound(table: &[u8; 9092], set: u32) -> Result<u32, Refusal>
    ensures { BoundSays (table_from table.now) set (bound_of result) }
{
    table::check(table)?;
    // Two of the four rows, and not `masks`, which makes them all.
    let n = usize::from(table[1]);
    analysis_masks::rows::bound(n, &table_rows::watches(table), &written(table), set)
}
