// A state as the 264 bytes that cross the border, and amounts as 256.
#![tactic(auto)]

ghost use Rattle.std.specs.Prelude.{◌≡◌, ◌≤◌, length};
ghost use Rattle.little.specs.Put.{put};
ghost use Rattle.layout_state.specs.States.{cells_from, cells_bytes, state_from, state_bytes};

use little::Little;
use machine_spec::State;
use std::array;

// The first 256 bytes as 32 amounts.
pub fn load_cells(s: &[u8]) -> [i64; 32]
    requires { 256 ≤ length s.now }
    ensures { result ≡ cells_from s.now }
{
    array::from_fn(|i| i64::at(s, 8 * i))
}

// Out of lent bytes, as store_state goes into them: From would copy them, and is no plainer.
#[tactic(auto, unfolding(crate::specs::States::state_from))]
pub fn load_state(s: &[u8; 264]) -> State
    ensures { result ≡ state_from s.now }
{
    State {
        cells: load_cells(s),
        waiting: u32::at(s, 256),
        faults: u32::at(s, 260),
    }
}

fn put_cells(out: &mut [u8], cells: [i64; 32])
    requires { 256 ≤ length out.old }
    ensures { out.new ≡ put out.old 0 (cells_bytes cells 32) }
{
    for (i, z) in cells.iter().enumerate() {
        z.put(out, 8 * i);
    }
}

pub fn store_state(s: State, out: &mut [u8; 264])
    ensures { out.new ≡ state_bytes s }
{
    // The cells last: stored first, right after they were loaded from other lent memory, they would be moved by memmove, which the
    // archive for C needs for nothing else.
    s.waiting.put(out, 256);
    s.faults.put(out, 260);
    put_cells(out, s.cells);
}
