// Reads a book from standard input and prints its lines.
#![tactic(auto)]

ghost use Rattle.std.specs.Io.{ReadsAtMost};

use std::io;
use std::io::{Read, Write};

// Reads until buf is full or the input ends, and returns how many bytes it put at the start of buf.
// `read_exact` refuses an input that ends early, and `read_to_end` fills a Vec: nothing here is on the heap.
fn read_full<R: Read>(input: &mut R, buf: &mut [u8]) -> io::Result<usize>
    ensures { ReadsAtMost result buf.new }
{
    let mut done = 0;
    while done < buf.len() {
        let n = input.read(&mut buf[done..])?;
        if n == 0 {
            break;
        }
        done += n;
    }
    Ok(done)
}

// One byte more than the largest book, so that a longer input is refused.
fn main(rt: HostRuntime) -> io::Result<()> {
    let mut book = [0u8; 9221];
    let n = read_full(&mut rt.stdin(), &mut book)?;
    let mut out = [0u8; 512];
    let printed = report_lines::lines(&book[..n], &mut out);
    rt.stdout().write_all(&out[..printed.length])
}
