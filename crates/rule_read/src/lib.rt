// Reads one test, one assignment, a name, counts or a row of masks out of bytes.
#![tactic(auto)]

ghost use Rattle.std.specs.Prelude.{◌≡◌, List, ℕ, ◌+◌, ◌*◌, ◌≤◌, ◌<◌, length};
ghost use Rattle.little.specs.Little.{byte_at};
ghost use Rattle.rule_read.specs.RuleReadInner.{column_in, CountsAt};
ghost use Rattle.rule_read.specs.Parts.{test_in, assign_in, name_in};

use little::Little;
use rule::{Assign, Test};

// How many tests, assignments and letters a rule has.
#[derive(Clone, Copy)]
pub struct Counts {
    pub tests: usize,
    pub assigns: usize,
    pub letters: usize,
}

// A test or an assignment, as it stands in bytes.
pub trait Part {
    // how many bytes it has
    const SIZE: usize;

    ghost SIZE: { ℕ };

    // the part that stands at a place
    ghost held: { List ℕ → ℕ → Self };

    fn read(s: &[u8], at: usize) -> Self
        requires { at + SIZE ≤ length s.now }
        ensures { result ≡ held s.now at };
}

impl Part for Test {
    const SIZE: usize = 12;

    ghost SIZE = { 12 };

    ghost held = { test_in };

    fn read(s: &[u8], at: usize) -> Test {
        Test {
            left: s[at],
            comparison: s[at + 1],
            kind: s[at + 2],
            right: s[at + 3],
            constant: i64::at(s, at + 4),
        }
    }
}

impl Part for Assign {
    const SIZE: usize = 20;

    ghost SIZE = { 20 };

    ghost held = { assign_in };

    fn read(s: &[u8], at: usize) -> Assign {
        Assign {
            target: s[at],
            operation: s[at + 1],
            a: s[at + 2],
            b: s[at + 3],
            k: i64::at(s, at + 4),
            p: u32::at(s, at + 12),
            q: u32::at(s, at + 16),
        }
    }
}

pub fn read_name(s: &[u8], at: usize, m: usize) -> [u8; 16]
    requires { (m ≤ 16) × (at + m ≤ length s.now) }
    ensures { result ≡ name_in s.now at m }
{
    let mut out = [0u8; 16];
    out[..m].copy_from_slice(&s[at..at + m]);
    out
}

// The byte at `at` as a count.
pub fn count_at(s: &[u8], at: usize) -> usize
    requires { at < length s.now }
    ensures { result ≡ byte_at s.now at }
{
    usize::from(s[at])
}

// The counts of the rule whose head is at `at`.
pub fn counts_at(s: &[u8], at: usize) -> Counts
    requires { at + 12 ≤ length s.now }
    ensures { CountsAt s.now at result }
{
    Counts {
        tests: usize::from(s[at + 8]),
        assigns: usize::from(s[at + 9]),
        letters: usize::from(s[at + 10]),
    }
}

// The masks that stand at `at` and every `step` bytes after it, n of them; 0 past them.
pub fn column(s: &[u8], at: usize, step: usize, n: usize) -> [u32; 32]
    requires { (n ≤ 32) × ((i : ℕ) → i < n → at + step * i + 4 ≤ length s.now) }
    ensures { result ≡ column_in s.now at step n }
{
    mask::row(n, |i| u32::at(s, at + step * i))
}
