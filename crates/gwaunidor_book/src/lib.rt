// Books and tables at the border: what the calls for C and Rust do.
#![tactic(auto)]

ghost use Rattle.std.specs.Prelude.{◌≡◌};
ghost use Rattle.table.specs.Check.{check_of};
ghost use Rattle.table.specs.Memory.{table_from, table_bytes};
ghost use Rattle.book_judge.specs.Read.{read_of};
ghost use Rattle.book_write.specs.Write.{write_of, size_of};
ghost use Rattle.layout_code.specs.Code.{code_of};
ghost use Rattle.gwaunidor_book.specs.BookOut.{size_out};

// Reads a book into a table.
pub fn read(book: &[u8], table: &mut [u8; 9092]) -> u32
    ensures value { result ≡ code_of (read_of book.now).number (read_of book.now).place }
    ensures table_after { table.new ≡ table_bytes (read_of book.now).table }
{
    let read = book_read::read(book, table);
    layout_code::answer(&read)
}

// The checks that every call on a table makes first.
pub fn check(table: &[u8; 9092]) -> u32
    ensures { result ≡ code_of (check_of (table_from table.now)).number (check_of (table_from table.now)).place }
{
    let checked = table::check(table);
    layout_code::answer(&checked)
}

// Writes a table as a book.
pub fn write(table: &[u8; 9092], out: &mut [u8], written: &mut u32) -> u32
    ensures written_after { (result, written.new) ≡ size_out (write_of (table_from table.now) out.old).0 }
    ensures out_after { out.new ≡ (write_of (table_from table.now) out.old).1 }
{
    let w = book_write::write(table, out);
    *written = w.unwrap_or(0) as u32;
    layout_code::answer(&w)
}

// How long a table's book is.
pub fn size(table: &[u8; 9092], size: &mut u32) -> u32
    ensures { (result, size.new) ≡ size_out (size_of (table_from table.now)) }
{
    let sized = book_write::size(table);
    *size = sized.unwrap_or(0) as u32;
    layout_code::answer(&sized)
}
