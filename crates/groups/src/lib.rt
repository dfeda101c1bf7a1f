// A run is a repeat of groups: a slice, an effect callback, or the opening of a wait.
#![tactic(auto)]

ghost use Rattle.std.specs.Prelude.{◌≡◌, ◌≤◌, ◌<◌, pos};
ghost use Rattle.scan.specs.Tables.{program_of};
ghost use Rattle.groups.specs.Grouped.{code_of, stood, charged_group, acted_group, Groupable, LuciaGroupable, Groups, LuciaGroups, Finishable, Finishes, Runs};

use acts::Acted;
use cells::Tag;
use fuel::Fuel;
use plan::Counts;
use refusals::Refusal;
use slices::{End, Slice};
use steps::Closure;

// Where a run stands: it goes on, ends with an answer, or is refused.
#[derive(Clone, Copy)]
pub enum Stand {
    GoesOn,
    Done,
    OutOfFuel,
    Paused,
    Host,
    Refused(Refusal),
}

impl Stand {
    // The code of docs/ANSWERS.md, which is what C gets once the run is over; 0 while it goes on.
    pub fn code(self) -> u32
        ensures { result ≡ code_of self }
    {
        match self {
            Stand::GoesOn => 0,
            Stand::Done => 100,
            Stand::OutOfFuel => 101,
            Stand::Paused => 102,
            Stand::Host => 103,
            Stand::Refused(refusal) => refusal.number(),
        }
    }
}

// The fuel, the ticks and the slice that are left to a run, and what its machine has.
#[derive(Clone, Copy)]
pub struct Turn {
    pub fuel: Fuel,
    pub ticks: u32,
    pub left: u32,
    pub counts: Counts,
}

#[derive(Clone, Copy)]
pub struct Group {
    pub stand: Stand,
    pub turn: Turn,
}

fn stands(stand: Stand, turn: Turn) -> Group
    ensures { result ≡ stood stand turn.fuel turn.ticks turn.left turn.counts }
{
    Group { stand, turn }
}

// A charge, then 4, and the test of the fuel after them; the slice is over.
fn charged(turn: Turn, cost: u32) -> Group
    requires { cost ≤ 64 }
    ensures { result ≡ charged_group turn.fuel cost turn.ticks turn.counts }
{
    let fuel = turn.fuel.consume(cost as i32).consume(4);
    let after = Turn {
        fuel,
        left: 64,
        ..turn
    };
    if fuel.should_continue() {
        return stands(Stand::GoesOn, after);
    }
    stands(Stand::OutOfFuel, after)
}

// A step that closes its slice charges `cost`; one that threw its own error charges 4 only; a refused one takes no tick.
fn acted(a: Result<Acted, Refusal>, turn: Turn, cost: u32) -> Group
    requires { (cost ≤ 64) × (0 < turn.ticks) }
    ensures { result ≡ acted_group a turn.fuel cost turn.ticks turn.left turn.counts }
{
    match a {
        Err(refusal) => stands(Stand::Refused(refusal), turn),
        Ok(Acted::Done(counts)) => charged(
            Turn {
                ticks: turn.ticks - 1,
                counts,
                ..turn
            },
            cost,
        ),
        Ok(Acted::Failed(counts)) => charged(
            Turn {
                ticks: turn.ticks - 1,
                counts,
                ..turn
            },
            0,
        ),
    }
}

// What follows a slice.
fn finish(
    program: &lookups::Program,
    state: &mut [u8],
    live: &mut [u8],
    store: &mut [u8],
    starts: &mut [u32],
    args: &mut [u8],
    frames: usize,
    s: Slice,
    fuel: Fuel,
) -> Group
    requires { Finishable (program_of program.now) frames s state.old live.old store.old starts.old args.old }
    ensures { Finishes (program_of program.now) frames s fuel result state.old live.old store.old starts.old state.new live.new store.new starts.new }
{
    let g = s.g;
    let turn = Turn {
        fuel,
        ticks: s.ticks,
        left: s.left,
        counts: Counts {
            frames,
            live: moves::end(g),
            store: s.used,
        },
    };
    let end = s.end;
    match end {
        End::Paused => {
            moves::settle(live, g);
            stands(Stand::Paused, turn)
        }
        End::Spent => {
            moves::settle(live, g);
            charged(turn, 0)
        }
        End::Refused(refusal) => {
            moves::settle(live, g);
            stands(Stand::Refused(refusal), turn)
        }
        End::Throws(h, x) => {
            let thrown = acts::fail(program, state, live, store, starts, frames, s.used, g, h, x);
            acted(thrown.map(Acted::Failed), turn, 0)
        }
        End::Closes(k, x) => {
            let a = closing::close(
                k, program, state, live, store, starts, args, frames, s.used, g, x,
            );
            acted(a, turn, s.left)
        }
    }
}

// A slice of the Lucia frame at the top.
fn lucia_group(
    program: &lookups::Program,
    state: &mut [u8],
    live: &mut [u8],
    store: &mut [u8],
    starts: &mut [u32],
    args: &mut [u8],
    turn: Turn,
) -> Group
    requires { LuciaGroupable (program_of program.now) turn.counts turn.left state.old live.old store.old starts.old args.old × (0 < turn.ticks) }
    ensures { LuciaGroups (program_of program.now) turn.counts turn.fuel turn.ticks turn.left result state.old live.old store.old starts.old state.new live.new store.new starts.new }
{
    let counts = turn.counts;
    let last = counts.frames - 1;
    let base = starts[last] as usize;
    let g = moves::open(live, base);
    let handle = cells::number(live, base + 1) as usize;
    let code = cells::number(store, handle) as usize;
    let closure = Closure { handle, code };
    let s = slices::run_slice(
        program,
        state,
        live,
        store,
        g,
        closure,
        counts.store,
        turn.left,
        turn.ticks,
    );
    finish(
        program,
        state,
        live,
        store,
        starts,
        args,
        counts.frames,
        s,
        turn.fuel,
    )
}

// One slice, one effect callback or the opening of a wait, or nothing where the run is done or no tick is left.
pub fn run_group(
    program: &lookups::Program,
    state: &mut [u8],
    live: &mut [u8],
    store: &mut [u8],
    starts: &mut [u32],
    args: &mut [u8],
    turn: Turn,
) -> Group
    requires { Groupable (program_of program.now) turn.counts turn.left state.old live.old store.old starts.old args.old }
    ensures { Groups (program_of program.now) turn.counts turn.fuel turn.ticks turn.left result state.old live.old store.old starts.old state.new live.new store.new starts.new }
{
    if turn.counts.frames == 0 || states::has_result(state) {
        return stands(Stand::Done, turn);
    }
    let last = turn.counts.frames - 1;
    let base = starts[last] as usize;
    let kind = cells::tag(live, base);
    if kind == Tag::FrameCallback as u32 {
        let fuel = turn.fuel.consume(8);
        return stands(Stand::Host, Turn { fuel, ..turn });
    }
    if turn.ticks == 0 {
        return stands(Stand::Paused, turn);
    }
    if kind == Tag::FrameEffect as u32 {
        let a = closing::effect_callback(program, state, live, store, starts, args, turn.counts);
        return acted(a, turn, 8);
    }
    lucia_group(program, state, live, store, starts, args, turn)
}

// Groups, until one says how the run ends.
pub fn run(
    program: &lookups::Program,
    state: &mut [u8],
    live: &mut [u8],
    store: &mut [u8],
    starts: &mut [u32],
    args: &mut [u8],
    turn: Turn,
) -> Group
    requires { Groupable (program_of program.now) turn.counts turn.left state.old live.old store.old starts.old args.old }
    ensures { Runs (program_of program.now) turn.counts turn.fuel turn.ticks turn.left result state.old live.old store.old starts.old state.new live.new store.new starts.new }
{
    let mut r = stands(Stand::GoesOn, turn);
    while let Stand::GoesOn = r.stand {
        r = run_group(program, state, live, store, starts, args, r.turn);
    }
    r
}
