// Whether a state fits a table, and the paper's step on one rule, over a lent state.
#![tactic(auto)]

ghost use Rattle.std.specs.Prelude.{◌≡◌, ◌||◌, ◌≤◌, ◌<◌, get_or};
ghost use Rattle.mask.specs.Search.{some};
ghost use Rattle.mask.specs.Mask.{has, meet, mask_of};
ghost use Rattle.rule_sums.specs.RuleSumsInner.{InRange};
ghost use Rattle.rule_act.specs.RuleActInner.{Slot};
ghost use Rattle.table.specs.TableInner.{slot_start, rule_from};
ghost use Rattle.machine_spec.specs.State.{cell_bad};
ghost use Rattle.machine_step.specs.MachineStepInner.{state_bad_by, effect_by};

use machine_spec::State;
use rule_act::Placed;

// Whether a cell's amount is out of range, or not 0 from k up.
fn cells_bad(cells: &[i64; 32], k: usize) -> bool
    ensures { result ≡ some 32 (cell_bad k cells.now) }
{
    cells.iter().enumerate().any(|(c, &v)| if c < k {
        rule_fields::out_of_range(v)
    } else {
        v != 0
    })
}

// 11: whether the state does not fit a table of n rules and k cells.
pub fn state_bad(n: u8, k: u8, state: &State) -> bool
    requires { n ≤ 32 }
    ensures { result ≡ state_bad_by n k state.now }
{
    let rules = usize::from(n);
    cells_bad(&state.cells, usize::from(k))
        | mask::beyond(state.waiting, rules)
        | mask::beyond(state.faults, rules)
}

// Who waits once the cells of m hold other amounts: those that waited, and those that watch one of them.
pub fn woken(row: &[u32; 32], waiting: u32, m: u32) -> u32
    ensures { result ≡ mask_of 32 (λ x. has waiting x || meet (get_or row.now x 0) m) }
{
    mask::union(waiting, mask::touching(row, m))
}

// The paper's step on rule r: the state after it.
pub fn turn(s: &[u8], r: usize, row: &[u32; 32], state: &mut State)
    requires { Slot s.now (slot_start r) × InRange state.old.cells × (r < 32) }
    ensures { state.new ≡ effect_by (rule_from s.now r) row.now state.old r }
{
    let rule = Placed {
        bytes: s,
        at: 4 + 284 * r,
    };
    state.waiting = mask::without(state.waiting, r);
    if rule.any_false(&state.cells) {
        return;
    }
    let Ok(values) = rule.right_sides(&state.cells) else {
        state.faults = mask::with(state.faults, r);
        return;
    };
    let changed = rule.store(&values, &mut state.cells);
    state.waiting = woken(row, state.waiting, changed);
}
