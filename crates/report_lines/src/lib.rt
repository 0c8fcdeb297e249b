// The report program's text: four lines for a book, or one where it is refused.
#![tactic(auto)]

ghost use Rattle.std.specs.Prelude.{◌≡◌, ◌∷◌, [], ◌+◌, ◌≤◌, length, take};
ghost use Rattle.book_judge.specs.Read.{table_in, read_of, told};
ghost use Rattle.analysis_masks.specs.Found.{report_in};
ghost use Rattle.refusal.specs.RefusalNumbers.{answer_of};
ghost use Rattle.report_text.specs.Text.{line};
ghost use Rattle.report_lines.specs.FourLines.{ends_line, pairs_line, cleared_line};
ghost use Rattle.report_text.specs.ReportTextInner.{Added};
ghost use Rattle.report_lines.specs.ReportLinesInner.{FoundOf};
ghost use Rattle.report_lines.specs.Lines.{printed_of, FourLines, TextOf, LinesSay};

use analysis_masks::Summary;
use refusal::Refusal;
use report_text::Text;

// Whether the book is refused, and the length of the text, or 0 where it does not fit: the promise (`laid`) has the number 0.
#[derive(Clone, Copy, Debug, PartialEq, Eq)]
pub struct Output {
    pub book: Result<(), Refusal>,
    pub length: usize,
}

// A report but for its marks, and the step bound of all rules, or 0: `ends_line faulty bound` of specs/ takes both.
#[derive(Clone, Copy)]
struct Found {
    summary: Summary,
    bound: u32,
}

// A line of a word and two numbers.
fn numbered(text: &mut Text, word: &[u8], a: u8, b: u8)
    requires { (length text.old.items + 30 ≤ 512) × (length word.now ≤ 7) }
    ensures { Added (line word.now (a ∷ b ∷ [])) 30 text.old.items text.new.items }
{
    report_text::word(text, word);
    report_text::two_numbers(text, a, b);
    report_text::push(text, b'\n');
}

fn ends_line(text: &mut Text, faulty: u32, bound: u32)
    requires { length text.old.items + 360 ≤ 512 }
    ensures { Added (ends_line faulty bound) 360 text.old.items text.new.items }
{
    if faulty == 0 {
        report_text::word(text, b"ends yes");
        report_text::number(text, bound);
    } else {
        report_text::word(text, b"ends no");
        report_text::members(text, faulty);
    }
    report_text::push(text, b'\n');
}

// The marks of a report are not printed.
fn pairs_line(text: &mut Text, v: &Summary)
    requires { length text.old.items + 61 ≤ 512 }
    ensures { Added (pairs_line (report_in v.now [])) 61 text.old.items text.new.items }
{
    report_text::word(text, b"pairs");
    report_text::number(text, u32::from(v.failing));
    if let Some(pair) = v.first {
        report_text::two_numbers(text, pair.first, pair.second);
        report_text::two_numbers(text, pair.culprit, pair.other);
    }
    report_text::push(text, b'\n');
}

fn cleared_line(text: &mut Text, cleared: bool)
    requires { length text.old.items + 12 ≤ 512 }
    ensures { Added (cleared_line cleared) 12 text.old.items text.new.items }
{
    if cleared {
        report_text::word(text, b"cleared yes\n");
    } else {
        report_text::word(text, b"cleared no\n");
    }
}

// The report, but for its marks, and the step bound of all rules of a book that was read.
fn judged(book: &[u8]) -> Found
    requires { (read_of book.now).number ≡ 0 }
    ensures { FoundOf (table_in book.now) result }
{
    let masks = report_masks::taken(book);
    let all = mask::below(masks.n);
    let mut marks = [0u8; 496];
    Found {
        summary: analysis_masks::rows::judged(&masks, &mut marks),
        bound: analysis_masks::rows::bound(masks.n, &masks.watch, &masks.writes, all).unwrap_or(0),
    }
}

// The four lines of a book that was read.
fn four(book: &[u8]) -> Text
    requires { (read_of book.now).number ≡ 0 }
    ensures { FourLines (table_in book.now) result.items }
{
    let found = judged(book);
    let mut text = Text::new();
    numbered(&mut text, b"book", book[1], book[2]);
    ends_line(&mut text, found.summary.faulty, found.bound);
    pairs_line(&mut text, &found.summary);
    cleared_line(&mut text, found.summary.cleared);
    text
}

// What is printed for a book that was read, or for one that is refused.
fn told(read: Result<(), Refusal>, book: &[u8]) -> Text
    requires { answer_of read ≡ told (read_of book.now) }
    ensures { TextOf (read_of book.now) result.items }
{
    match read {
        Ok(()) => four(book),
        Err(e) => {
            let mut text = Text::new();
            numbered(&mut text, b"refused", e.number(), e.place());
            text
        }
    }
}

// Writes the lines for a book, or nothing where they do not fit, and gives their length, or 0.
pub fn lines(book: &[u8], out: &mut [u8]) -> Output
    ensures { LinesSay book.now out.old (printed_of result, out.new) }
{
    let read = book_judge::judge(book);
    let text = told(read, book);
    let n = text.len();
    if out.len() < n {
        return Output {
            book: read,
            length: 0,
        };
    }
    out[..n].copy_from_slice(text.as_slice());
    Output {
        book: read,
        length: n,
    }
}
