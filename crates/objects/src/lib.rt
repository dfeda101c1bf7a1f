// Objects at the end of the store, and what a closure holds.
#![tactic(auto)]

ghost use Rattle.std.specs.Prelude.{◌≡◌, List, ℕ, ◌+◌, ◌≤◌, ◌<◌, length, get_or, set};
ghost use Rattle.cells.specs.Cells.{null, room, cells, Sound, Writes};
ghost use Rattle.machine.specs.Values.{cell};
ghost use Rattle.machine.specs.Machine.{Object, closure, here, object_at};
ghost use Rattle.moves.specs.Objects.{made, Stored};

use cells::{Cell, Tag};

// A new object at `at`, the end of the store: its first cell, and n cells of the live stack as they are. A list, a closure, or a continuation: a capture is this block copy.
pub fn new_object(
    store: &mut [u8],
    at: usize,
    kind: u32,
    number: u32,
    live: &[u8],
    from: usize,
    n: usize,
)
    requires { (at + 1 + n ≤ room store.old) × (from + n ≤ room live.now) }
    ensures { Writes store.old (made (cells store.old) at kind number (cells live.now) from n) store.new }
{
    cells::put(
        store,
        at,
        Cell {
            tag: kind,
            number,
            payload: n as u64,
        },
    );
    blocks::copy(store, at + 1, live, from, n);
}

// The first cell of a new closure at `at`: its n upvalues are put behind it one by one.
pub fn new_closure(store: &mut [u8], at: usize, code: u32, n: usize)
    requires { at < room store.old }
    ensures { Writes store.old (set (cells store.old) at (cell 128 code n)) store.new }
{
    cells::put(store, at, Cell::new(Tag::ObjectClosure, code, n as u64));
}

// An upvalue of the closure at a handle.
pub fn upvalue(store: &[u8], handle: usize, i: usize) -> Cell
    requires { handle + 1 + i < room store.now }
    ensures { ((s : List Object) (code : ℕ) (us : List Cell) → Stored s (cells store.now) → object_at s handle ≡ here (closure code us) → i < length us → result ≡ get_or us i null) × Sound result }
{
    cells::get(store, handle + 1 + i)
}
