// Writes a table, where its bytes lie, as a book into a lent buffer.
#![tactic(auto)]

ghost use Rattle.std.specs.Prelude.{◌≡◌};
ghost use Rattle.table.specs.Memory.{table_from};
ghost use Rattle.book_write.specs.Write.{written_of, write_of, size_of};

use refusal::Refusal;

// How long a buffer must be: the book's length.
// `size_told` for every return of a refusal, that of a must-fail edit too.
#[tactic(auto, using(crate::proofs::WriteLaws::size_told))]
pub fn size(table: &[u8; 9092]) -> Result<usize, Refusal>
    ensures { written_of result ≡ size_of (table_from table.now) }
{
    table::check(table)?;
    Ok(book_parts::end_of(table, usize::from(table[1])))
}

// The book's length, when it was written.
pub fn write(table: &[u8; 9092], out: &mut [u8]) -> Result<usize, Refusal>
    ensures { (written_of result, out.new) ≡ write_of (table_from table.now) out.old }
{
    table::check(table)?;
    let n = usize::from(table[1]);
    let size = book_parts::end_of(table, n);
    if out.len() < size {
        return Err(Refusal::Short);
    }
    little::put_4(out, 0, 1, table[1], table[2], 0);
    book_parts::write_contents(out, table, n);
    book_parts::write_bodies(out, table, n);
    Ok(size)
}
