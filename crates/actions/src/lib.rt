// A plan is carried out. There is room for what it leaves: that was judged before, so nothing is refused here.
#![tactic(auto)]

ghost use Rattle.cells.specs.Cells.{room, cells};
ghost use Rattle.actions.specs.Acted.{Startable, StartsFrame, Resumable, Resumes, Beginnable, Begins, Carriable, CarriesOut};

use cells::Cell;
use moves::Running;
use plan::{Counts, Params, Plan, Start};

// A new frame on top, with the parsed arguments on its stack.
pub fn start_frame(
    live: &mut [u8],
    store: &mut [u8],
    starts: &mut [u32],
    c: Counts,
    f: Start,
    p: Params,
    args: &[u8],
)
    requires { Startable c f p (room args.now) live.old store.old starts.old }
    ensures { StartsFrame c f p (cells args.now) live.old store.old starts.old live.new store.new starts.new }
{
    arguments::list_rest(store, c.store, args, p);
    placing::new_frame(live, c.live, f.kind.number(), f.subject, f.locals, 0, 0);
    let g = Running {
        base: c.live,
        locals: f.locals as usize,
        handlers: 0,
        stack: 0,
        place: 0,
    };
    let h = arguments::push_args(live, g, args, p, c.store);
    moves::settle(live, h);
    let top = c.frames;
    starts[top] = c.live as u32;
}

// The starts of the `count` frames of the store from `from` on go into the table behind the first ones, as they are
// once the frames lie at `at`: where the last of them begins in the store.
// One walk is enough for both: each frame must be read to know where the next one begins.
fn begin(
    store: &[u8],
    starts: &mut [u32],
    first: usize,
    from: usize,
    at: usize,
    count: usize,
) -> usize
    requires { Beginnable first from at count (cells store.now) starts.old }
    ensures { Begins first from at count (cells store.now) starts.old result starts.new }
{
    let mut place = from;
    let mut last = from;
    for i in 0..count {
        let next = moves::end(moves::open(store, place));
        starts[first + i] = (at + (place - from)) as u32;
        last = place;
        place = next;
    }
    last
}

// The frames of a continuation on top, with the value.
fn resume(live: &mut [u8], store: &[u8], starts: &mut [u32], c: Counts, handle: usize, v: Cell)
    requires { Resumable c handle v live.old store.now starts.old }
    ensures { Resumes c handle v live.old store.now starts.old live.new starts.new }
{
    let count = cells::number(store, handle) as usize;
    let last = begin(store, starts, c.frames, handle + 1, c.live, count);
    placing::put_back(live, c.live, store, handle, last, v);
}

// What a plan says is done, with the arguments that it was made for.
pub fn carry(
    plan: Plan,
    args: &[u8],
    state: &mut [u8],
    live: &mut [u8],
    store: &mut [u8],
    starts: &mut [u32],
    c: Counts,
)
    requires { Carriable plan (cells args.now) c state.old live.old store.old starts.old }
    ensures { CarriesOut plan (cells args.now) c state.old live.old store.old starts.old
        state.new live.new store.new starts.new }
{
    match plan {
        Plan::Starts(f, p) => start_frame(live, store, starts, c, f, p, args),
        Plan::Resumes(handle, v) => resume(live, store, starts, c, handle, v),
        Plan::Handles(i, j, e, p) => captures::capture(live, store, starts, c, i, j, e, p, args),
        Plan::Catches(i, j, x) => captures::catch(live, store, starts, c, i, j, x),
        Plan::Unhandled(e) => {
            let n = cells::room(args);
            blocks::copy(live, c.live, args, 0, n);
            states::set_result(state, 2, e, 0, n as u64);
        }
        Plan::Fails(x) => states::set_result(state, x.kind.number() as u64, x.value, x.second, 0),
        Plan::Receives(v) => {
            let top = c.frames - 1;
            placing::receive(live, starts[top] as usize, v);
        }
        Plan::Returns(v) => states::set_result(state, 1, v, 0, 0),
        Plan::Stays => {}
    }
}
