// The numbers 3, 6 and 10 of a row of n records: they ask for its precedes masks alone.
#![tactic(auto)]

ghost use Rattle.std.specs.Prelude.{◌≡◌, ◌≤◌, get_or};
ghost use Rattle.mask.specs.Search.{least_at};
ghost use Rattle.mask.specs.Mask.{beyond};
ghost use Rattle.refusal.specs.RefusalNumbers.{answer_of};
ghost use Rattle.editor_check.specs.EditorCheckInner.{only_precedes, RowChecked};

use refusal::{Fault, Refusal};

// 6: the first record with a precedes bit beyond the row.
fn first_beyond(n: usize, precedes: &[u32; 32]) -> Option<usize>
    requires { n ≤ 32 }
    ensures { result ≡ least_at n (λ i. beyond (get_or precedes.now i 0) n) }
{
    precedes[..n].iter().position(|m| mask::beyond(*m, n))
}

// The first number that applies, with its place.
pub fn check(n: usize, precedes: &[u32; 32]) -> Result<(), Refusal>
    ensures { RowChecked (only_precedes n precedes.now) (answer_of result) }
{
    if 32 < n {
        return Err(Refusal::Sizes);
    }
    if let Some(i) = first_beyond(n, precedes) {
        return Err(Refusal::Rule(Fault::Cells, i as u8));
    }
    if table::row_cyclic(*precedes, n) {
        return Err(Refusal::Cycle);
    }
    Ok(())
}
