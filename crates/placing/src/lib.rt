// Whole frames of the live stack: a value that lands in one, a new one, those of a continuation put back, and where each begins.
#![tactic(auto)]

ghost use Rattle.std.specs.Prelude.{◌≡◌, ◌+◌, ◌-◌, ◌≤◌, ◌<◌, length, take, drop};
ghost use Rattle.cells.specs.Cells.{room, cells};
ghost use Rattle.machine.specs.Machine.{receive};
ghost use Rattle.memory.specs.View.{frames_size};
ghost use Rattle.moves.specs.Runs.{end_of, with_counts};
ghost use Rattle.moves.specs.Frames.{kept_in, Lands, Gets, new_written, Starts};
ghost use Rattle.moves.specs.Objects.{last_of, Kept, Resumed};
ghost use Rattle.moves.specs.Starts.{Starting};

use cells::{Cell, Tag};
use moves::Running;

// A value goes on the stack of a frame, and its head is written: where the frame ends then.
fn land(live: &mut [u8], g: Running, v: Cell) -> usize
    requires { (end_of g < room live.old) × (g.place < 4294967296) }
    ensures { Lands v g live.old result live.new }
{
    let r = moves::push(live, g, v);
    moves::settle(live, r);
    moves::end(r)
}

// What a return does to the frame that it returns to: where the frame ends then.
pub fn receive(live: &mut [u8], base: usize, v: Cell) -> usize
    requires { (end_of (kept_in (cells live.old) base) ≤ room live.old) × (end_of (with_counts 0 (kept_in (cells live.old) base).stack (kept_in (cells live.old) base)) < room live.old) }
    ensures { Gets (receive v) base live.old result live.new }
{
    let g = moves::kept(live, base);
    let h = moves::clear_handlers(live, g);
    land(live, h, v)
}

// A new frame at `at`, whose arguments are the n cells from `from` on: they go first, since the head and the locals may lie over them.
pub fn new_frame(
    live: &mut [u8],
    at: usize,
    kind: u32,
    subject: Cell,
    locals: u32,
    from: usize,
    n: usize,
)
    requires { (at + 6 + locals + n ≤ room live.old) × (from + n ≤ room live.old) }
    ensures { Starts (new_written kind subject locals (take n (drop from (cells live.old)))) at live.old live.new }
{
    let k = locals as usize;
    blocks::copy_within(live, at + 6 + k, from, n);
    cells::put(
        live,
        at,
        Cell {
            tag: kind,
            number: locals,
            payload: 0,
        },
    );
    cells::put(live, at + 1, subject);
    cells::put(live, at + 2, Cell::new(Tag::Place, 0, n as u64));
    blocks::fill(live, at + 3, 3 + k, Cell::NULL);
}

// Where the last of so many frames from `from` on begins.
pub fn last_frame(x: &[u8], from: usize, count: usize) -> usize
    requires { (0 < count) × (from + frames_size (count - 1) (drop from (cells x.now)) ≤ room x.now) }
    ensures { result ≡ from + frames_size (count - 1) (drop from (cells x.now)) }
{
    let mut at = from;
    for _ in 1..count {
        at = moves::end(moves::open(x, at));
    }
    at
}

// The frames of the continuation at a handle go on top, and v to the last of them, which begins at `last`: how many cells of the live stack are used then.
pub fn put_back(
    live: &mut [u8],
    at: usize,
    store: &[u8],
    handle: usize,
    last: usize,
    v: Cell,
) -> usize
    requires { Kept v at handle live.old store.now × (last ≡ last_of handle (cells store.now)) }
    ensures { Resumed v at handle live.old store.now result live.new }
{
    let from = handle + 1;
    let g = moves::kept(store, last);
    blocks::copy(live, at, store, from, moves::end(g) - from);
    land(
        live,
        Running {
            base: at + (last - from),
            ..g
        },
        v,
    )
}

// Where each of the frames begins, and how many cells they have together.
pub fn starts(live: &[u8], table: &mut [u32], count: usize) -> usize
    requires { (frames_size count (cells live.now) ≤ room live.now) × (room live.now ≤ 65536) × (count ≤ length table.old) }
    ensures { Starting (cells live.now) count table.old result table.new }
{
    let mut at = 0;
    for i in 0..count {
        let next = moves::end(moves::open(live, at));
        table[i] = at as u32;
        at = next;
    }
    at
}
