// The machine: states by value, and the paper's step, posting and run on a table that is lent as its 9,092 bytes.
#![tactic(auto, using(crate::proofs::CallsLaws::calls), unfolding(machine_spec::specs::Step::fresh_of, machine_spec::specs::Step::step_of, machine_spec::specs::Step::post_of))]

ghost use Rattle.std.specs.Prelude.{◌≡◌, true, false, MatchResult};
ghost use Rattle.refusal.specs.RefusalNumbers.{answer_of};
ghost use Rattle.refusal.specs.declared.Refusal.TheVariants.{Unfit};
ghost use Rattle.mask.specs.First.{first_of};
ghost use Rattle.table.specs.Check.{answer, Sound};
ghost use Rattle.table.specs.Memory.{table_from};
ghost use Rattle.machine_spec.specs.State.{state_bad, zeros};
ghost use Rattle.machine_spec.specs.Step.{moved_of, step_numbers, step_of, post_numbers, post_of, fresh_of};
ghost use Rattle.machine_spec.specs.Run.{ran_of, run_of};

use machine_spec::{Run, State};
use refusal::Refusal;

// 11, where a state does not fit the table.
fn fits(table: &[u8; 9092], s: &State) -> Result<(), Refusal>
    requires { Sound (table_from table.now) }
    ensures { MatchResult result (λ _. state_bad (table_from table.now) s.now ≡ false) (λ e. (e ≡ Unfit) × (state_bad (table_from table.now) s.now ≡ true)) }
{
    if machine_step::state_bad(table[1], table[2], s) {
        return Err(Refusal::Unfit);
    }
    Ok(())
}

// A fresh state from 32 amounts: nothing waits, and there are no fault marks.
pub fn fresh(table: &[u8; 9092], cells: [i64; 32]) -> Result<State, Refusal>
    ensures { moved_of zeros result ≡ fresh_of (table_from table.now) cells }
{
    table::check(table)?;
    let state = State {
        cells,
        waiting: 0,
        faults: 0,
    };
    fits(table, &state)?;
    Ok(state)
}

// A step's own refusals, upward: 11 to 14.
#[tactic(auto, using(crate::proofs::CallsLaws::calls), unfolding(machine_spec::specs::Step::step_numbers, table::specs::Memory::table_from))]
fn may_step(table: &[u8; 9092], s: &State, r: u32) -> Result<(), Refusal>
    requires { Sound (table_from table.now) }
    ensures { answer_of result ≡ answer (first_of 0 (step_numbers (table_from table.now) s.now r)) 255 }
{
    fits(table, s)?;
    let i = r as usize;
    if usize::from(table[1]) <= i {
        return Err(Refusal::NoRule);
    }
    if !mask::has(s.waiting, i) {
        return Err(Refusal::NotWaiting);
    }
    let rows = table_rows::goes_before(table);
    if mask::has(mask::gather(&rows, s.waiting), i) {
        return Err(Refusal::HeldBack);
    }
    Ok(())
}

// One step on r.
pub fn step(table: &[u8; 9092], s: State, r: u32) -> Result<State, Refusal>
    ensures { moved_of s result ≡ step_of (table_from table.now) s r }
{
    table::check(table)?;
    may_step(table, &s, r)?;
    let row = table_rows::watches(table);
    let mut stepped = s;
    machine_step::turn(table, r as usize, &row, &mut stepped);
    Ok(stepped)
}

// A posting's own refusals, upward: 11 and 16.
#[tactic(auto, using(crate::proofs::CallsLaws::calls), unfolding(machine_spec::specs::Step::post_numbers, table::specs::Memory::table_from))]
fn may_post(table: &[u8; 9092], s: &State, cell: u32, value: i64) -> Result<(), Refusal>
    requires { Sound (table_from table.now) }
    ensures { answer_of result ≡ answer (first_of 0 (post_numbers (table_from table.now) s.now cell value)) 255 }
{
    fits(table, s)?;
    if (usize::from(table[2]) <= cell as usize) | rule_fields::out_of_range(value) {
        return Err(Refusal::Posting);
    }
    Ok(())
}

// A value posted to a cell. With a step it shares the table's check alone: one function over both would be no plainer.
pub fn post(table: &[u8; 9092], s: State, cell: u32, value: i64) -> Result<State, Refusal>
    ensures { moved_of s result ≡ post_of (table_from table.now) s cell value }
{
    table::check(table)?;
    may_post(table, &s, cell, value)?;
    let row = table_rows::watches(table);
    let mut posted = s;
    let changed = rule_act::put(&mut posted.cells, cell as usize, value, 0);
    posted.waiting = machine_step::woken(&row, s.waiting, changed);
    Ok(posted)
}

// Steps of the lowest eligible rule until none waits or the budget is used. The table is checked once.
pub fn run(table: &[u8; 9092], s: State, budget: u32) -> Result<Run, Refusal>
    ensures { ran_of s result ≡ run_of (table_from table.now) s budget }
{
    table::check(table)?;
    fits(table, &s)?;
    let row = table_rows::watches(table);
    let rows = table_rows::goes_before(table);
    Ok(machine_run::runs(table, &row, &rows, s, budget))
}
