// The run, step by step, on a state that fits.
#![tactic(auto)]

ghost use Rattle.std.specs.Prelude.{◌≡◌, ◌&&◌, not, ℕ};
ghost use Rattle.mask.specs.Search.{some};
ghost use Rattle.mask.specs.Mask.{has};
ghost use Rattle.mask.specs.MaskInner.{named};
ghost use Rattle.table.specs.Memory.{table_from};
ghost use Rattle.machine_spec.specs.State.{Fits};
ghost use Rattle.machine_spec.specs.Run.{ran_by, runs};
ghost use Rattle.machine_run.specs.MachineRunInner.{Lent};

use machine_spec::{End, Run, State};

// The waiting rules that no waiting rule goes before; row x names the rules that x goes before.
#[tactic(auto, using(mask::proofs::MaskLaws::has_minus))]
pub fn eligible(rows: &[u32; 32], waiting: u32) -> u32
    ensures { (r : ℕ) → has result r ≡ (has waiting r && not (some 32 (named rows.now waiting r))) }
{
    let behind = mask::gather(rows, waiting);
    (waiting | behind) ^ behind
}

// The lowest eligible rule is stepped until none waits or the budget is used.
pub fn runs(table: &[u8], row: &[u32; 32], rows: &[u32; 32], s: State, budget: u32) -> Run
    requires { Lent table.now row.now rows.now × Fits (table_from table.now) s }
    ensures { ran_by result ≡ runs (table_from table.now) s budget }
{
    let mut state = s;
    let mut steps = 0;
    while state.waiting != 0 {
        if steps == budget {
            return Run {
                state,
                steps,
                end: End::Spent,
            };
        }
        let r = mask::lowest(eligible(rows, state.waiting));
        machine_step::turn(table, r, row, &mut state);
        steps += 1;
    }
    Run {
        state,
        steps,
        end: End::Rest,
    }
}
