// The calls for C and Rust; include/gwaunidor.h describes them for callers. Each hands on to its crate, where its edits are cheap.
#![tactic(auto)]

ghost use Rattle.std.specs.Prelude.{◌≡◌};
ghost use Rattle.table.specs.Check.{check_of};
ghost use Rattle.table.specs.Memory.{table_from, table_bytes};
ghost use Rattle.book_judge.specs.Read.{read_of};
ghost use Rattle.machine_spec.specs.Step.{fresh_of, step_of, post_of};
ghost use Rattle.machine_spec.specs.Run.{run_of};
ghost use Rattle.layout_state.specs.States.{cells_from, state_from};
ghost use Rattle.book_write.specs.Write.{write_of, size_of};
ghost use Rattle.analysis.specs.Says.{ReportSays, BoundSays};
ghost use Rattle.report_lines.specs.Lines.{LinesSay};
ghost use Rattle.editor.specs.Rows.{row_masks, RowsSay};
ghost use Rattle.editor.specs.RowsIn.{rows_in};
ghost use Rattle.layout_code.specs.Code.{code_of};
ghost use Rattle.gwaunidor_book.specs.BookOut.{size_out};
ghost use Rattle.gwaunidor_run.specs.RunOut.{state_out, ran_out};
ghost use Rattle.gwaunidor_report.specs.ReportOut.{report_out, bound_out, lines_out, Crosses};

// Reads a book into a table.
#[unsafe(no_mangle)]
pub extern "C" fn gwaunidor_read(book: &[u8], table: &mut [u8; 9092]) -> u32
    ensures value { result ≡ code_of (read_of book.now).number (read_of book.now).place }
    ensures table_after { table.new ≡ table_bytes (read_of book.now).table }
{
    gwaunidor_book::read(book, table)
}

// The checks that every call on a table makes first.
#[unsafe(no_mangle)]
pub extern "C" fn gwaunidor_check(table: &[u8; 9092]) -> u32
    ensures { result ≡ code_of (check_of (table_from table.now)).number (check_of (table_from table.now)).place }
{
    gwaunidor_book::check(table)
}

// Writes a table as a book.
#[unsafe(no_mangle)]
pub extern "C" fn gwaunidor_write(table: &[u8; 9092], out: &mut [u8], written: &mut u32) -> u32
    ensures written_after { (result, written.new) ≡ size_out (write_of (table_from table.now) out.old).0 }
    ensures out_after { out.new ≡ (write_of (table_from table.now) out.old).1 }
{
    gwaunidor_book::write(table, out, written)
}

// How long a table's book is.
#[unsafe(no_mangle)]
pub extern "C" fn gwaunidor_size(table: &[u8; 9092], size: &mut u32) -> u32
    ensures { (result, size.new) ≡ size_out (size_of (table_from table.now)) }
{
    gwaunidor_book::size(table, size)
}

// A fresh state from 32 amounts.
#[unsafe(no_mangle)]
pub extern "C" fn gwaunidor_fresh(
    table: &[u8; 9092],
    amounts: &[u8; 256],
    state: &mut [u8; 264],
) -> u32
    ensures { (result, state.new) ≡ state_out (fresh_of (table_from table.now) (cells_from amounts.now)) }
{
    gwaunidor_run::fresh(table, amounts, state)
}

// One step on a rule.
#[unsafe(no_mangle)]
pub extern "C" fn gwaunidor_step(table: &[u8; 9092], state: &mut [u8; 264], rule: u32) -> u32
    ensures { (result, state.new) ≡ state_out (step_of (table_from table.now) (state_from state.old) rule) }
{
    gwaunidor_run::step(table, state, rule)
}

// A value posted to a cell.
#[unsafe(no_mangle)]
pub extern "C" fn gwaunidor_post(
    table: &[u8; 9092],
    state: &mut [u8; 264],
    cell: u32,
    value: i64,
) -> u32
    ensures { (result, state.new) ≡ state_out (post_of (table_from table.now) (state_from state.old) cell value) }
{
    gwaunidor_run::post(table, state, cell, value)
}

// Steps of the lowest eligible rule until none waits or the budget is used.
#[unsafe(no_mangle)]
pub extern "C" fn gwaunidor_run(
    table: &[u8; 9092],
    state: &mut [u8; 264],
    budget: u32,
    steps: &mut u32,
) -> u32
    ensures { (result, state.new, steps.new) ≡ ran_out (run_of (table_from table.now) (state_from state.old) budget) }
{
    gwaunidor_run::run(table, state, budget, steps)
}

// The report on a table.
#[unsafe(no_mangle)]
pub extern "C" fn gwaunidor_report(table: &[u8; 9092], out: &mut [u8; 512]) -> u32
    ensures { Crosses (ReportSays (table_from table.now)) report_out (result, out.new) }
{
    gwaunidor_report::report(table, out)
}

// The step bound of a set of rules.
#[unsafe(no_mangle)]
pub extern "C" fn gwaunidor_bound(table: &[u8; 9092], set: u32, bound: &mut u32) -> u32
    ensures { Crosses (BoundSays (table_from table.now) set) bound_out (result, bound.new) }
{
    gwaunidor_report::bound(table, set, bound)
}

// The report program's lines for a book.
#[unsafe(no_mangle)]
pub extern "C" fn gwaunidor_lines(book: &[u8], out: &mut [u8], written: &mut u32) -> u32
    ensures { Crosses (LinesSay book.now out.old) lines_out (result, written.new, out.new) }
{
    gwaunidor_report::lines(book, out, written)
}

// The report on the editor's row of records.
#[unsafe(no_mangle)]
pub extern "C" fn gwaunidor_rows(rows: &[u8], out: &mut [u8; 512]) -> u32
    ensures { Crosses (RowsSay (row_masks (rows_in rows.now))) report_out (result, out.new) }
{
    gwaunidor_report::rows(rows, out)
}
