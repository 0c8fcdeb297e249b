// The game loop: a single run state, lent to be changed on the spot.
#![tactic(auto)]

ghost use Rattle.std.specs.Prelude.{◌≡◌, MatchOption};
ghost use Rattle.refusal.specs.RefusalNumbers.{answer_of};
ghost use Rattle.table.specs.Memory.{table_from};
ghost use Rattle.machine_spec.specs.Step.{step_of, post_of};
ghost use Rattle.machine_spec.specs.Run.{ran_of, run_of};
ghost use Rattle.game.specs.LentState.{LeftBy};
ghost use Rattle.game.specs.GameInner.{Due};

use machine_spec::{End, Run, State};
use refusal::Refusal;

// One step on r: its state is stored where it is done; where it is refused, the state is the one given.
pub fn step(table: &[u8; 9092], s: &mut State, r: u32) -> Result<(), Refusal>
    ensures { LeftBy (step_of (table_from table.now) s.old r) s.new (answer_of result) }
{
    *s = machine::step(table, *s, r)?;
    Ok(())
}

// A value posted to a cell, in the same way: each is the thin call that paper 01 names.
pub fn post(table: &[u8; 9092], s: &mut State, cell: u32, value: i64) -> Result<(), Refusal>
    ensures { LeftBy (post_of (table_from table.now) s.old cell value) s.new (answer_of result) }
{
    *s = machine::post(table, *s, cell, value)?;
    Ok(())
}

// The rule to step next, the lowest eligible one; none where nothing is left to do.
fn due(table: &[u8; 9092], s: State, left: u32) -> Option<u32>
    ensures { MatchOption result (run_of (table_from table.now) s left ≡ run_of (table_from table.now) s 0) (Due (table_from table.now) s left) }
{
    if left == 0 {
        return None;
    }
    let Ok(run) = machine::run(table, s, 0) else {
        return None;
    };
    match run.end {
        End::Rest => None,
        End::Spent => {
            let rows = table_rows::goes_before(table);
            Some(mask::lowest(machine_run::eligible(&rows, s.waiting)) as u32)
        }
    }
}

// The game loop: one state, lent for one step after another until nothing waits or the budget is used.
pub fn play(table: &[u8; 9092], s: State, budget: u32) -> Result<Run, Refusal>
    ensures { ran_of s result ≡ run_of (table_from table.now) s budget }
{
    let mut state = s;
    let mut left = budget;
    while let Some(r) = due(table, state, left) {
        step(table, &mut state, r)?;
        left -= 1;
    }
    // How a run stands after so many steps: a run with budget 0 says it.
    let end = machine::run(table, state, 0)?.end;
    Ok(Run {
        state,
        steps: budget - left,
        end,
    })
}
