// A table as the 9,092 bytes where they lie: the checks that every call on a table makes first.
#![tactic(auto)]

ghost use Rattle.std.specs.Prelude.{◌≡◌, ◌<◌, ◌≤◌, length, MatchOption};
ghost use Rattle.refusal.specs.RefusalNumbers.{answer_of};
ghost use Rattle.graph.specs.Graph.{cyclic};
ghost use Rattle.little.specs.Little.{byte_at};
ghost use Rattle.rule.specs.Numbers.{rule_slot_bad};
ghost use Rattle.table.specs.Table.{rule_at};
ghost use Rattle.table.specs.Check.{sizes_bad, first_slot, check_of};
ghost use Rattle.table.specs.Memory.{table_from};
ghost use Rattle.table.specs.TableInner.{Sizes, judged, any_set};

use refusal::{Fault, Refusal};
use rule_read::Counts;

// What a slot has room for.
const SLOT: Counts = Counts {
    tests: 8,
    assigns: 8,
    letters: 16,
};

// 3: the number of rules, the number of cells.
#[tactic(auto, unfolding(crate::specs::Check::sizes_bad))]
pub fn sizes_bad(n: u8, k: u8) -> bool
    ensures { result ≡ sizes_bad n k }
{
    (32 < n) | (k < 1) | (32 < k)
}

// The first rule with a fault. book_judge::judge_bodies is its twin over a book's bodies; a closure that says where rule i lies makes
// them no plainer, since its contract would say all that the two loops' invariants say of a body.
fn judge(s: &[u8; 9092], n: u8, k: u8) -> Result<(), Refusal>
    requires { Sizes s.now n k }
    ensures { answer_of result ≡ judged (table_from s.now) }
{
    let mut names = [[0u8; 16]; 32];
    // i is a rule, and its place in the refusal.
    for i in 0..usize::from(n) {
        let at = 4 + 284 * i;
        let name = rule_read::read_name(s, at + 268, 16);
        let taken = rule_check::taken(&names[..i], &name);
        rule_check::number_in(s, at, SLOT, n, k, taken).map_err(|fault| Refusal::Rule(
            fault, i as u8,
        ))?;
        names[i] = name;
    }
    Ok(())
}

// Whether some byte is not 0: all are looked at, since `any`, which stops at the first, takes 15 times as long over a slice of zeros.
fn any_set(s: &[u8]) -> bool
    ensures { result ≡ any_set s.now }
{
    s.iter().fold(false, |any, b| any | (*b != 0))
}

// Whether rule slot i is not all zero.
fn slot_bad(s: &[u8; 9092], i: usize) -> bool
    requires { i < 32 }
    ensures { result ≡ rule_slot_bad (rule_at (table_from s.now) i) }
{
    let at = 4 + 284 * i;
    any_set(&s[at..at + 284])
}

// The first slot past n that is not all zero.
fn first_slot(s: &[u8; 9092], n: usize) -> Option<usize>
    requires { n ≡ byte_at s.now 1 }
    ensures { MatchOption result (first_slot (table_from s.now) ≡ 32) (λ i. (i < 32) × (i ≡ first_slot (table_from s.now))) }
{
    (n..32).find(|i| slot_bad(s, *i))
}

// Whether a row of masks has a cycle among the first n.
pub fn row_cyclic(row: [u32; 32], n: usize) -> bool
    requires { n ≤ 32 }
    ensures { result ≡ cyclic n row }
{
    let on = graph::loops(graph::closure(row, n));
    mask::meets(on, mask::below(n))
}

// The checks that every call on a table makes first: 3, the rules by 5 to 9, the rule slots past n by 7, then 10.
pub fn check(s: &[u8; 9092]) -> Result<(), Refusal>
    ensures { answer_of result ≡ check_of (table_from s.now) }
{
    let n = s[1];
    let k = s[2];
    if sizes_bad(n, k) {
        return Err(Refusal::Sizes);
    }
    judge(s, n, k)?;
    let m = usize::from(n);
    if let Some(i) = first_slot(s, m) {
        return Err(Refusal::Rule(Fault::Forms, i as u8));
    }
    if row_cyclic(rule_read::column(s, 8, 284, m), m) {
        return Err(Refusal::Cycle);
    }
    Ok(())
}
