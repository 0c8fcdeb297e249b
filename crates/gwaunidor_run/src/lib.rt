// The machine at the border: what the calls for C and Rust do.
#![tactic(auto)]

ghost use Rattle.std.specs.Prelude.{◌≡◌};
ghost use Rattle.table.specs.Memory.{table_from};
ghost use Rattle.machine_spec.specs.State.{zeros};
ghost use Rattle.machine_spec.specs.Step.{moved_of, fresh_of, step_of, post_of};
ghost use Rattle.machine_spec.specs.Run.{run_of};
ghost use Rattle.layout_state.specs.States.{cells_from, state_from};
ghost use Rattle.gwaunidor_run.specs.RunOut.{state_out, ran_out};

use machine_spec::State;
use refusal::Refusal;

// The state that a call gives, or the one given where it is refused, and what is returned with it.
fn give(moved: Result<State, Refusal>, given: State, state: &mut [u8; 264]) -> u32
    ensures { (result, state.new) ≡ state_out (moved_of given moved) }
{
    layout_state::store_state(moved.unwrap_or(given), state);
    layout_code::answer(&moved)
}

// A fresh state from 32 amounts; all zeros where it is refused.
pub fn fresh(table: &[u8; 9092], amounts: &[u8; 256], state: &mut [u8; 264]) -> u32
    ensures { (result, state.new) ≡ state_out (fresh_of (table_from table.now) (cells_from amounts.now)) }
{
    let cells = layout_state::load_cells(amounts);
    let zeros = State {
        cells: [0i64; 32],
        waiting: 0,
        faults: 0,
    };
    give(machine::fresh(table, cells), zeros, state)
}

// One step on a rule.
pub fn step(table: &[u8; 9092], state: &mut [u8; 264], rule: u32) -> u32
    ensures { (result, state.new) ≡ state_out (step_of (table_from table.now) (state_from state.old) rule) }
{
    let s = layout_state::load_state(state);
    give(machine::step(table, s, rule), s, state)
}

// A value posted to a cell.
pub fn post(table: &[u8; 9092], state: &mut [u8; 264], cell: u32, value: i64) -> u32
    ensures { (result, state.new) ≡ state_out (post_of (table_from table.now) (state_from state.old) cell value) }
{
    let s = layout_state::load_state(state);
    give(machine::post(table, s, cell, value), s, state)
}

// Steps of the lowest eligible rule until none waits or the budget is used.
#[tactic(auto, using(crate::proofs::UntouchedLaws::same_bytes))]
pub fn run(table: &[u8; 9092], state: &mut [u8; 264], budget: u32, steps: &mut u32) -> u32
    ensures { (result, state.new, steps.new) ≡ ran_out (run_of (table_from table.now) (state_from state.old) budget) }
{
    let s = layout_state::load_state(state);
    match machine::run(table, s, budget) {
        Ok(ran) => {
            layout_state::store_state(ran.state, state);
            *steps = ran.steps;
            layout_code::code(ran.end.number(), 255)
        }
        Err(refusal) => {
            *steps = 0;
            layout_code::code(refusal.number(), refusal.place())
        }
    }
}
