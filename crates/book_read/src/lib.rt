// Reads a book: judges it, and spreads its bytes into a lent table of 9,092 bytes.
#![tactic(auto)]

ghost use Rattle.std.specs.Prelude.{◌≡◌, ◌++◌, ◌+◌, ◌-◌, ◌*◌, ◌≤◌, ◌<◌, length, replicate};
ghost use Rattle.refusal.specs.RefusalNumbers.{answer_of};
ghost use Rattle.little.specs.Put.{put};
ghost use Rattle.rule_write.specs.RuleWriteInner.{slot_bytes};
ghost use Rattle.table.specs.Memory.{table_bytes};
ghost use Rattle.book_judge.specs.Read.{start_of, table_in, read_of};
ghost use Rattle.book_read.specs.Spread.{Spread};
ghost use Rattle.book_judge.specs.BookJudgeInner.{body_in, Stretch, GoodBodies};

use refusal::Refusal;

// Some bytes, and zeros after them up to the room.
fn put_padded(out: &mut [u8], to: usize, bytes: &[u8], room: usize)
    requires { (length bytes.now ≤ room) × (to + room ≤ length out.old) }
    ensures { out.new ≡ put out.old to (bytes.now ++ replicate (room - length bytes.now) 0) }
{
    little::put_bytes(out, to, bytes);
    little::put_zeros(out, to + bytes.len(), room - bytes.len());
}

// The slot of body i.
fn put_body(out: &mut [u8; 9092], s: &[u8], i: usize)
    requires { (i < 32) × (8 + 4 * i ≤ length s.now) × Stretch s.now (start_of s.now i) }
    ensures { out.new ≡ put out.old (4 + 284 * i) (slot_bytes (body_in s.now i)) }
{
    let from = book_judge::start(s, i);
    let to = 4 + 284 * i;
    let c = rule_read::counts_at(s, from);
    let assigns = from + 12 + 12 * c.tests;
    let name = assigns + 20 * c.assigns;
    put_padded(out, to, &s[from..assigns], 108);
    put_padded(out, to + 108, &s[assigns..name], 160);
    put_padded(out, to + 268, &s[name..name + c.letters], 16);
}

// The table of a book that was read.
fn spread(s: &[u8], out: &mut [u8; 9092])
    requires { GoodBodies s.now }
    ensures { out.new ≡ table_bytes (table_in s.now) }
{
    let n = usize::from(s[1]);
    little::put_4(out, 0, 0, s[1], s[2], 0);
    // i is a body, which put_body finds by its entry: chunks of the slots would take a zip with 0..n; no plainer.
    for i in 0..n {
        put_body(out, s, i);
    }
    little::put_zeros(out, 4 + 284 * n, 284 * (32 - n));
}

// Reads a book into a table; a refused read leaves zeros.
pub fn read(book: &[u8], table: &mut [u8; 9092]) -> Result<(), Refusal>
    ensures { Spread (read_of book.now) (answer_of result) table.new }
{
    let read = book_judge::judge(book);
    // Either way each byte of the table is written, and once.
    match read {
        Ok(()) => spread(book, table),
        Err(_) => table.fill(0),
    }
    read
}
