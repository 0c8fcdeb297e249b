// The masks of a book that was read, from its bodies where they lie: no table is made of it.
#![tactic(auto)]

ghost use Rattle.std.specs.Prelude.{◌≡◌};
ghost use Rattle.book_judge.specs.Read.{table_in, read_of};
ghost use Rattle.analysis.specs.TableMasks.{masks_of};
ghost use Rattle.report_masks.specs.ReportMasksInner.{HasBody, BodyAt};

use analysis_pairs::Masks;
use little::Little;
use rule_read::Counts;

// Where a body starts, and its counts.
#[derive(Clone, Copy)]
struct Body {
    at: usize,
    counts: Counts,
}

fn body_at(book: &[u8], i: usize) -> Body
    requires { HasBody book.now i }
    ensures { BodyAt book.now i result.at result.counts.tests result.counts.assigns }
{
    let at = book_judge::start(book, i);
    Body {
        at,
        counts: rule_read::counts_at(book, at),
    }
}

// The four rows of masks.
pub fn taken(book: &[u8]) -> Masks
    requires { (read_of book.now).number ≡ 0 }
    ensures { result ≡ masks_of (table_in book.now) }
{
    let n = usize::from(book[1]);
    Masks {
        n,
        watch: mask::row(n, |i| u32::at(book, body_at(book, i).at)),
        reads: mask::row(n, |i| {
            let rule = body_at(book, i);
            rule_uses::reads(book, rule.at, rule.counts.tests, rule.counts.assigns)
        }),
        writes: mask::row(n, |i| {
            let rule = body_at(book, i);
            rule_uses::writes(book, rule.at, rule.counts.tests, rule.counts.assigns)
        }),
        precedes: mask::row(n, |i| u32::at(book, body_at(book, i).at + 4)),
    }
}
