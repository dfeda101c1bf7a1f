// A frame enters its handler: the frames above it become a continuation, and it gets continuation, arguments and effect.
#![tactic(auto)]

ghost use Rattle.std.specs.Prelude.{◌≡◌, ◌+◌, ◌≤◌, ◌<◌};
ghost use Rattle.cells.specs.Cells.{room, cells};
ghost use Rattle.captures.specs.Entered.{Enterable, Enters, LuciaEnterable, LuciaEnters, CallbackEnterable, CallbackEnters, Capturable, Captures, Catchable, CapturesError};

use cells::{Cell, Tag};
use moves::Running;
use plan::{Counts, Error, Params};

// The frame at `base`, whose j-th handler has the effect, loses its handlers and gets continuation k, arguments and effect.
fn enter(
    live: &mut [u8],
    base: usize,
    j: usize,
    e: Cell,
    k: Cell,
    args: &[u8],
    p: Params,
    list: usize,
)
    requires { Enterable base j p (room args.now) list live.old }
    ensures { Enters base j e k p list (cells args.now) live.old live.new }
{
    if cells::tag(live, base) == Tag::FrameLucia as u32 {
        enter_lucia(live, base, j, e, k, args, p, list);
    } else {
        enter_callback(live, base, e, k, args, p, list);
    }
}

// A Lucia frame keeps its stack, and goes to the target.
fn enter_lucia(
    live: &mut [u8],
    base: usize,
    j: usize,
    e: Cell,
    k: Cell,
    args: &[u8],
    p: Params,
    list: usize,
)
    requires { LuciaEnterable base j p (room args.now) list live.old }
    ensures { LuciaEnters base j e k p list (cells args.now) live.old live.new }
{
    let g = moves::open(live, base);
    let target = moves::handler_target(live, g, j);
    let a = moves::clear_handlers(live, g);
    let b = moves::push(live, a, k);
    let c = arguments::push_args(live, b, args, p, list);
    let d = moves::push(live, c, e);
    moves::settle(
        live,
        Running {
            place: target as usize,
            ..d
        },
    );
}

// A callback frame gets them on an emptied stack, the effect first.
fn enter_callback(
    live: &mut [u8],
    base: usize,
    e: Cell,
    k: Cell,
    args: &[u8],
    p: Params,
    list: usize,
)
    requires { CallbackEnterable base p (room args.now) list live.old }
    ensures { CallbackEnters base e k p list (cells args.now) live.old live.new }
{
    let g = moves::kept(live, base);
    let a = moves::clear_handlers(live, g);
    let b = moves::push(live, a, e);
    let c = moves::push(live, b, k);
    let d = arguments::push_args(live, c, args, p, list);
    moves::settle(live, d);
}

// Frame i handles an effect by its j-th handler: the frames above it become a continuation at the end of the store.
pub fn capture(
    live: &mut [u8],
    store: &mut [u8],
    starts: &[u32],
    c: Counts,
    i: usize,
    j: usize,
    e: Cell,
    p: Params,
    args: &[u8],
)
    requires { Capturable c i j p (room args.now) live.old store.old starts.now }
    ensures { Captures c i j e p (cells args.now) starts.now live.old store.old live.new store.new }
{
    let above = starts[i + 1] as usize;
    let size = c.live - above;
    objects::new_object(
        store,
        c.store,
        Tag::ObjectContinuation as u32,
        (c.frames - 1 - i) as u32,
        live,
        above,
        size,
    );
    let list = c.store + 1 + size;
    arguments::list_rest(store, list, args, p);
    let k = Cell::new(Tag::Continuation, c.store as u32, 0);
    enter(live, starts[i] as usize, j, e, k, args, p, list);
}

// The same for an error that is thrown: its builtin, with what it shows.
pub fn catch(
    live: &mut [u8],
    store: &mut [u8],
    starts: &[u32],
    c: Counts,
    i: usize,
    j: usize,
    x: Error,
)
    requires { Catchable c i j x live.old store.old starts.now }
    ensures { CapturesError c i j x starts.now live.old store.old live.new store.new }
{
    let mut one = [0u8; 16];
    cells::put(&mut one, 0, values::shown(x));
    capture(
        live,
        store,
        starts,
        c,
        i,
        j,
        values::thrown(x),
        Params::ONE,
        &one,
    );
}
