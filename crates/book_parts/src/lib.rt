// The contents and the bodies of a table, written into a lent buffer.
#![tactic(auto)]

ghost use Rattle.std.specs.Prelude.{◌≡◌, ◌++◌, ◌+◌, ◌*◌, ◌≤◌, ◌<◌, length};
ghost use Rattle.little.specs.Put.{put};
ghost use Rattle.little.specs.Bytes.{u16_bytes};
ghost use Rattle.rule_write.specs.Pieces.{body_bytes};
ghost use Rattle.rule.specs.RuleInner.{Counted};
ghost use Rattle.table.specs.Memory.{table_from};
ghost use Rattle.table.specs.TableInner.{rule_from};
ghost use Rattle.table.specs.BodyStarts.{body_size, start_at};
ghost use Rattle.book_parts.specs.BookPartsInner.{Ready, sizes_of, contents_bytes, bodies_bytes};

use little::Little;

// How long the body of rule i is.
fn body_size(table: &[u8; 9092], i: usize) -> usize
    requires { i < 32 }
    ensures { (result ≡ body_size (rule_from table.now i)) × (result ≤ 8427) }
{
    let c = rule_read::counts_at(table, 4 + 284 * i);
    12 + 12 * c.tests + 20 * c.assigns + c.letters
}

// Where the last of n bodies ends. Here and below i is a rule that lies in the table by its number, and each is written at a running
// place: a fold would carry that place, and is no plainer.
pub fn end_of(table: &[u8; 9092], n: usize) -> usize
    requires { n ≤ 32 }
    ensures { result ≡ start_at n (sizes_of (table_from table.now).rules) n }
{
    let mut end = 4 + 4 * n;
    for i in 0..n {
        end += body_size(table, i);
    }
    end
}

// Entry i of the contents.
fn write_entry(out: &mut [u8], i: usize, start: usize, size: usize)
    requires { (i < 32) × (start < 65536) × (size < 65536) × (4 + 4 * i + 4 ≤ length out.old) }
    ensures { out.new ≡ put out.old (4 + 4 * i) (u16_bytes start ++ u16_bytes size) }
{
    (start as u16).put(out, 4 + 4 * i);
    (size as u16).put(out, 6 + 4 * i);
}

pub fn write_contents(out: &mut [u8], table: &[u8; 9092], n: usize)
    requires { Ready n (table_from table.now).rules × (4 + 4 * n ≤ length out.old) }
    ensures { out.new ≡ put out.old 4 (contents_bytes n (table_from table.now).rules n) }
{
    let mut start = 4 + 4 * n;
    for i in 0..n {
        let size = body_size(table, i);
        write_entry(out, i, start, size);
        start += size;
    }
}

// The body of rule i: the beginnings of its slot's three parts, one after another.
fn write_body(out: &mut [u8], at: usize, table: &[u8; 9092], i: usize)
    requires { Counted (rule_from table.now i) × (i < 32) × (at + body_size (rule_from table.now i) ≤ length out.old) }
    ensures { out.new ≡ put out.old at (body_bytes (rule_from table.now i)) }
{
    let from = 4 + 284 * i;
    let c = rule_read::counts_at(table, from);
    let t = c.tests;
    let a = c.assigns;
    let m = c.letters;
    little::put_part(out, at, table, from, 12 + 12 * t);
    little::put_part(out, at + 12 + 12 * t, table, from + 108, 20 * a);
    little::put_part(out, at + 12 + 12 * t + 20 * a, table, from + 268, m);
}

pub fn write_bodies(out: &mut [u8], table: &[u8; 9092], n: usize)
    requires { Ready n (table_from table.now).rules × (start_at n (sizes_of (table_from table.now).rules) n ≤ length out.old) }
    ensures { out.new ≡ put out.old (4 + 4 * n) (bodies_bytes (table_from table.now).rules n) }
{
    let mut at = 4 + 4 * n;
    for i in 0..n {
        write_body(out, at, table, i);
        at += body_size(table, i);
    }
}
