// The analysis at the border: what the calls for C and Rust do.
#![tactic(auto)]

ghost use Rattle.table.specs.Memory.{table_from};
ghost use Rattle.analysis.specs.Says.{ReportSays, BoundSays};
ghost use Rattle.report_lines.specs.Lines.{LinesSay};
ghost use Rattle.editor.specs.Rows.{row_masks, RowsSay};
ghost use Rattle.editor.specs.RowsIn.{rows_in};
ghost use Rattle.gwaunidor_report.specs.ReportOut.{report_out, bound_out, lines_out, Crosses};

// The report on a table.
pub fn report(table: &[u8; 9092], out: &mut [u8; 512]) -> u32
    ensures { Crosses (ReportSays (table_from table.now)) report_out (result, out.new) }
{
    let judged = analysis::report(table);
    layout_report::store_found(&judged, out);
    layout_code::answer(&judged)
}

// The step bound of a set of rules.
pub fn bound(table: &[u8; 9092], set: u32, bound: &mut u32) -> u32
    ensures { Crosses (BoundSays (table_from table.now) set) bound_out (result, bound.new) }
{
    let b = analysis::bound(table, set);
    *bound = b.unwrap_or(0);
    layout_code::answer(&b)
}

// The report program's lines for a book.
pub fn lines(book: &[u8], out: &mut [u8], written: &mut u32) -> u32
    ensures { Crosses (LinesSay book.now out.old) lines_out (result, written.new, out.new) }
{
    let printed = report_lines::lines(book, out);
    *written = printed.length as u32;
    layout_code::answer(&printed.book)
}

// The report on the editor's row of records.
pub fn rows(rows: &[u8], out: &mut [u8; 512]) -> u32
    ensures { Crosses (RowsSay (row_masks (rows_in rows.now))) report_out (result, out.new) }
{
    let row = editor::report_of_bytes(rows);
    layout_report::store_found(&row, out);
    layout_code::answer(&row)
}
