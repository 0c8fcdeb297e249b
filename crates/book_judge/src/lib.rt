// Judges a book where it lies: its number and its place.
#![tactic(auto)]

ghost use Rattle.std.specs.Prelude.{◌≡◌, ◌+◌, ◌*◌, ◌≤◌, ◌<◌, length};
ghost use Rattle.rule_check.specs.RuleCheckInner.{number_with};
ghost use Rattle.refusal.specs.RefusalNumbers.{fault_of, answer_of};
ghost use Rattle.book_judge.specs.Read.{start_of, length_of, contents_bad, rule_in, read_of, told};
ghost use Rattle.book_judge.specs.BookJudgeInner.{n_of, k_of, Inside, body_bad, Stretch, bodies_of};

use little::Little;
use refusal::{Fault, Refusal};

// Where body i starts. The bounds of its entry stand in four contracts: a struct of an entry would be built for each i from the same two
// facts, and so is no plainer.
pub fn start(s: &[u8], i: usize) -> usize
    requires { (i < 32) × (8 + 4 * i ≤ length s.now) }
    ensures { (result ≡ start_of s.now i) × (result < 65536) }
{
    usize::from(u16::at(s, 4 + 4 * i))
}

// How long body i is said to be: like `start` one call, and a function for both would take the place.
fn size(s: &[u8], i: usize) -> usize
    requires { (i < 32) × (8 + 4 * i ≤ length s.now) }
    ensures { (result ≡ length_of s.now i) × (result < 65536) }
{
    usize::from(u16::at(s, 6 + 4 * i))
}

// 4: whether the contents do not fit the book.
fn contents_bad(s: &[u8], n: usize) -> bool
    requires { n ≤ 32 }
    ensures { result ≡ contents_bad s.now n }
{
    if s.len() < 4 + 4 * n {
        return true;
    }
    let mut end = 4 + 4 * n;
    // i is a body, whose entry `start` and `size` read: a chain would carry `end` and stop early; no plainer.
    for i in 0..n {
        if start(s, i) != end {
            return true;
        }
        end += size(s, i);
    }
    end != s.len()
}

// 5 of body i: its counts, or its length.
#[tactic(auto, unfolding(crate::specs::BookJudgeInner::body_bad, rule::specs::Numbers::counts_bad))]
fn body_bad(s: &[u8], i: usize) -> bool
    requires { (i < 32) × (8 + 4 * i ≤ length s.now) × (start_of s.now i + length_of s.now i ≤ length s.now) }
    ensures { result ≡ body_bad s.now i }
{
    let at = start(s, i);
    let len = size(s, i);
    if len < 12 {
        return true;
    }
    let c = rule_read::counts_at(s, at);
    rule_check::counts_bad(s, at) || len != 12 + 12 * c.tests + 20 * c.assigns + c.letters
}

// The name of the body at `at`.
fn name_of(s: &[u8], at: usize) -> [u8; 16]
    requires { Stretch s.now at }
    ensures { result ≡ (rule_in s.now at).name }
{
    let c = rule_read::counts_at(s, at);
    rule_read::read_name(s, at + 12 + 12 * c.tests + 20 * c.assigns, c.letters)
}

// What is wrong with it, where it is known whether an earlier rule has its name.
fn judge_body(s: &[u8], at: usize, n: u8, k: u8, taken: bool) -> Result<(), Fault>
    requires { Stretch s.now at × (n ≤ 32) × (k ≤ 32) }
    ensures { fault_of result ≡ number_with n k taken (rule_in s.now at) }
{
    let c = rule_read::counts_at(s, at);
    rule_check::number_in(s, at, c, n, k, taken)
}

// The precedes mask of body i.
fn precedes_at(s: &[u8], i: usize) -> u32
    requires { (i < 32) × (8 + 4 * i ≤ length s.now) × (start_of s.now i + 8 ≤ length s.now) }
    ensures { result ≡ (rule_in s.now (start_of s.now i)).precedes }
{
    u32::at(s, start(s, i) + 4)
}

// The bodies one after another, each with its faults, then 10. table::judge is its twin over a table's slots, and says why there are two.
fn judge_bodies(s: &[u8], n: u8, k: u8) -> Result<(), Refusal>
    requires { (n ≡ n_of s.now) × (k ≡ k_of s.now) × (k ≤ 32) × Inside s.now n }
    ensures { answer_of result ≡ told (bodies_of s.now) }
{
    let mut names = [[0u8; 16]; 32];
    // i is a body, and its place in the refusal.
    for i in 0..usize::from(n) {
        if body_bad(s, i) {
            return Err(Refusal::Rule(Fault::Counts, i as u8));
        }
        let at = start(s, i);
        let name = name_of(s, at);
        let taken = rule_check::taken(&names[..i], &name);
        judge_body(s, at, n, k, taken).map_err(|fault| Refusal::Rule(fault, i as u8))?;
        names[i] = name;
    }
    let row = mask::row(usize::from(n), |i| precedes_at(s, i));
    if table::row_cyclic(row, usize::from(n)) {
        return Err(Refusal::Cycle);
    }
    Ok(())
}

// The number and the place that reading the book gives.
pub fn judge(book: &[u8]) -> Result<(), Refusal>
    ensures { answer_of result ≡ told (read_of book.now) }
{
    if book.len() < 4 || 9220 < book.len() {
        return Err(Refusal::Length);
    }
    if book[0] != 1 || book[3] != 0 {
        return Err(Refusal::Edition);
    }
    let n = book[1];
    let k = book[2];
    if table::sizes_bad(n, k) {
        return Err(Refusal::Sizes);
    }
    if contents_bad(book, usize::from(n)) {
        return Err(Refusal::Contents);
    }
    judge_bodies(book, n, k)
}
