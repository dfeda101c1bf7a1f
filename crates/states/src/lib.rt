// The moves on the state block: each is said of any world that the block holds.
#![tactic(auto)]

ghost use Rattle.std.specs.Prelude.{◌≡◌, ◌+◌, ◌≤◌, ◌<◌, length, get_or, set, not, eqb};
ghost use Rattle.cells.specs.Cells.{null, cells, Sound, Writes};
ghost use Rattle.machine.specs.Machine.{used};
ghost use Rattle.machine.specs.Calls.{World};
ghost use Rattle.memory.specs.Layout.{result_shown, state_cells};
ghost use Rattle.states.specs.Worlds.{Counted, Turned, Resulted, GlobalSet, BuiltinSet, Changes};

use cells::Cell;

// The mark of a loaded state block, the tag of its first cell.
const LOADED: u32 = 1;

// How many frames the live stack holds.
pub fn frames(state: &[u8]) -> u32
    requires { length state.now ≡ 8256 }
    ensures { (w : World) → cells state.now ≡ state_cells w → result ≡ length w.machine.frames }
{
    cells::number(state, 0)
}

// How many cells the store uses.
pub fn used(state: &[u8]) -> u64
    requires { length state.now ≡ 8256 }
    ensures { (w : World) → cells state.now ≡ state_cells w → result ≡ used w.machine.store }
{
    cells::payload(state, 0)
}

// What is left of the slice.
pub fn slice(state: &[u8]) -> u32
    requires { length state.now ≡ 8256 }
    ensures { (w : World) → cells state.now ≡ state_cells w → result ≡ w.slice }
{
    cells::tag(state, 1)
}

// Does it wait for the host?
pub fn waits(state: &[u8]) -> bool
    requires { length state.now ≡ 8256 }
    ensures { (w : World) → cells state.now ≡ state_cells w → result ≡ w.wait }
{
    cells::number(state, 1) == 1
}

// The kind of the result, 0 if there is none.
pub fn result_kind(state: &[u8]) -> u64
    requires { length state.now ≡ 8256 }
    ensures { (w : World) → cells state.now ≡ state_cells w → result ≡ (result_shown w.machine.result).kind }
{
    cells::payload(state, 1)
}

// Is there a result?
pub fn has_result(state: &[u8]) -> bool
    requires { length state.now ≡ 8256 }
    ensures { (w : World) → cells state.now ≡ state_cells w → result ≡ not (eqb (result_shown w.machine.result).kind 0) }
{
    result_kind(state) != 0
}

// The counts of frames and of used cells of the store.
pub fn set_counts(state: &mut [u8], frames: u32, used: u64)
    requires { length state.old ≡ 8256 }
    ensures { Changes (Counted frames used) state.old state.new }
{
    cells::put(
        state,
        0,
        Cell {
            tag: LOADED,
            number: frames,
            payload: used,
        },
    );
}

// Slice and wait, which share their cell with the kind of the result.
pub fn set_turn(state: &mut [u8], slice: u32, wait: u32)
    requires { length state.old ≡ 8256 }
    ensures { Changes (Turned slice wait) state.old state.new }
{
    let kind = cells::payload(state, 1);
    cells::put(
        state,
        1,
        Cell {
            tag: slice,
            number: wait,
            payload: kind,
        },
    );
}

// A result, or none: kind 0, null, 0 and 0.
pub fn set_result(state: &mut [u8], kind: u64, value: Cell, second: u32, args: u64)
    requires { length state.old ≡ 8256 }
    ensures { Changes (Resulted kind value second args) state.old state.new }
{
    cells::set_payload(state, 1, kind);
    cells::put(state, 2, value);
    cells::put(
        state,
        3,
        Cell {
            tag: second,
            number: 0,
            payload: args,
        },
    );
}

// The value in cell `first + number`.
fn value_at(state: &[u8], first: usize, number: usize) -> Cell
    requires { (length state.now ≡ 8256) × (first ≤ 260) × (number < 256) }
    ensures { (result ≡ get_or (cells state.now) (first + number) null) × Sound result }
{
    cells::get(state, first + number)
}

// Cell `first + number` becomes v.
fn set_value_at(state: &mut [u8], first: usize, number: usize, v: Cell)
    requires { (length state.old ≡ 8256) × (first ≤ 260) × (number < 256) }
    ensures { Writes state.old (set (cells state.old) (first + number) v) state.new }
{
    cells::put(state, first + number, v);
}

// A global by its name number.
pub fn global(state: &[u8], number: usize) -> Cell
    requires { (length state.now ≡ 8256) × (number < 256) }
    ensures { ((w : World) → length w.machine.globals ≡ 256 → cells state.now ≡ state_cells w → result ≡ get_or w.machine.globals number null) × Sound result }
{
    value_at(state, 4, number)
}

// A builtin by its name number.
pub fn builtin(state: &[u8], number: usize) -> Cell
    requires { (length state.now ≡ 8256) × (number < 256) }
    ensures { ((w : World) → length w.machine.globals ≡ 256 → cells state.now ≡ state_cells w → result ≡ get_or w.machine.builtins number null) × Sound result }
{
    value_at(state, 260, number)
}

// A global becomes v.
#[tactic(auto, using(crate::specs::Worlds::global_set))]
pub fn set_global(state: &mut [u8], number: usize, v: Cell)
    requires { (length state.old ≡ 8256) × (number < 256) }
    ensures { Changes (GlobalSet number v) state.old state.new }
{
    set_value_at(state, 4, number, v);
}

// A builtin becomes v.
#[tactic(auto, using(crate::specs::Worlds::builtin_set))]
pub fn set_builtin(state: &mut [u8], number: usize, v: Cell)
    requires { (length state.old ≡ 8256) × (number < 256) }
    ensures { Changes (BuiltinSet number v) state.old state.new }
{
    set_value_at(state, 260, number, v);
}
