// The editor's row: a lent slice of four-mask records is copied into arrays, checked, and analysed as a table's masks are.
#![tactic(auto)]

ghost use Rattle.analysis_masks.specs.Found.{report_of};
ghost use Rattle.editor.specs.Rows.{row_masks, RowsSay};
ghost use Rattle.editor.specs.EditorInner.{RestZero};
ghost use Rattle.editor.specs.RowsIn.{rows_in};

use analysis_masks::Findings;
use analysis_pairs::Masks;
use refusal::Refusal;

// Four masks of a rule: the cells that it watches, reads and writes, and the rules that it precedes.
#[derive(Clone, Copy, Debug, PartialEq, Eq)]
pub struct Record {
    pub watch: u32,
    pub reads: u32,
    pub writes: u32,
    pub precedes: u32,
}

// What is found of the records whose masks are in the arrays.
fn judged(m: &Masks) -> Result<Findings, Refusal>
    requires { RestZero m.now }
    ensures { RowsSay m.now (report_of result) }
{
    editor_check::check(m.n, &m.precedes)?;
    let mut marks = [0u8; 496];
    let summary = analysis_masks::rows::judged(m, &mut marks);
    Ok(Findings { summary, marks })
}

// The report of a row of records, of any length.
pub fn report(rows: &[Record]) -> Result<Findings, Refusal>
    ensures { RowsSay (row_masks rows.now) (report_of result) }
{
    if 32 < rows.len() {
        return Err(Refusal::Sizes);
    }
    let n = rows.len();
    judged(&Masks {
        n,
        watch: mask::row(n, |i| rows[i].watch),
        reads: mask::row(n, |i| rows[i].reads),
        writes: mask::row(n, |i| rows[i].writes),
        precedes: mask::row(n, |i| rows[i].precedes),
    })
}

// The report of a row that crosses as bytes, 16 for each record.
pub fn report_of_bytes(s: &[u8]) -> Result<Findings, Refusal>
    ensures { RowsSay (row_masks (rows_in s.now)) (report_of result) }
{
    let n = s.len() / 16;
    if 32 < n {
        return Err(Refusal::Sizes);
    }
    judged(&Masks {
        n,
        watch: rule_read::column(s, 0, 16, n),
        reads: rule_read::column(s, 4, 16, n),
        writes: rule_read::column(s, 8, 16, n),
        precedes: rule_read::column(s, 12, 16, n),
    })
}
