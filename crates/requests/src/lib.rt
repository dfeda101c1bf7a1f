// What the host's requests do once the call is entered: memory in form becomes a machine at rest, and the state block shows it again at the end.
#![tactic(auto)]

ghost use Rattle.std.specs.Prelude.{◌≤◌, ◌<◌};
ghost use Rattle.cells.specs.Cells.{room, cells};
ghost use Rattle.scan.specs.Tables.{program_of};
ghost use Rattle.refusals.specs.Refusals.{number_of};
ghost use Rattle.requests.specs.Sent.{starting};
ghost use Rattle.requests.specs.Asked.{Entered, Leavable, LeavesWorld, Finishable, Finishes, CalledFits, Startable, SentWorld};

use cells::Cell;
use plan::{Counts, Plan};
use refusals::Refusal;
use scan::Objects;

// The state block shows counts, slice and wait again.
pub fn leave(state: &mut [u8], c: Counts, left: u32, wait: u32)
    requires { Leavable c state.old }
    ensures { LeavesWorld c left wait state.old state.new }
{
    states::set_counts(state, c.frames as u32, c.store as u64);
    states::set_turn(state, left, wait);
}

// A plan is judged on so many cells of the live stack, carried out, and the state block shows what it leaves: how many
// cells of the live stack are used then. A refused one leaves every byte.
pub fn finish(
    plan: Plan,
    args: &[u8],
    state: &mut [u8],
    live: &mut [u8],
    store: &mut [u8],
    starts: &mut [u32],
    c: Counts,
    most: usize,
) -> Result<usize, Refusal>
    requires { Finishable plan (cells args.now) c most state.old live.old store.old starts.old }
    ensures { Finishes plan (cells args.now) c most result state.old live.old store.old starts.old state.new live.new store.new }
{
    let after = counts::counts_after(plan, cells::room(args), live, store, starts, c);
    counts::check(after, most, cells::room(store))?;
    actions::carry(plan, args, state, live, store, starts, c);
    leave(state, after, 64, 0);
    Ok(after.live)
}

// Is this a Function that exists, with arguments that exist, of which there are, with so many handlers, at most 4,096?
pub fn called_fits(
    program: &lookups::Program,
    store: &[u8],
    used: usize,
    f: Cell,
    args: &[u8],
    handlers: usize,
) -> bool
    requires { (used ≤ room store.now) × (handlers < 4294967296) }
    ensures { CalledFits (program_of program.now) used f (cells args.now) handlers result (cells store.now) }
{
    let objects = Objects { store, below: used };
    if !scan::value_fits(program, &objects, f) {
        return false;
    }
    if !calls::is_function(f) {
        return false;
    }
    let n = cells::room(args);
    if n + handlers > 4096 {
        return false;
    }
    scan::values_fit(program, &objects, args, 0, n)
}

// A start that passed its tests: it is planned and finished.
fn begin(
    program: &lookups::Program,
    state: &mut [u8],
    live: &mut [u8],
    store: &mut [u8],
    used: usize,
    f: Cell,
    args: &[u8],
) -> Result<(), Refusal>
    requires { Startable (program_of program.now) used f args.now state.old live.old store.old }
    ensures { SentWorld (program_of program.now) (starting f args.now) (number_of result) state.old live.old store.old state.new live.new store.new }
{
    let mut starts = [0u32; 256];
    let c = Counts {
        frames: 0,
        live: 0,
        store: used,
    };
    let plan = calls::call_function(program, live, store, &starts, 0, f, args);
    let most = cells::room(live);
    finish(plan, args, state, live, store, &mut starts, c, most)?;
    Ok(())
}

// A start: out of turn with frames or a result, a bad value for what is no Function or no value; then it is planned and
// finished.
pub fn start(
    program: &lookups::Program,
    state: &mut [u8],
    live: &mut [u8],
    store: &mut [u8],
    f: Cell,
    args: &[u8],
) -> Result<(), Refusal>
    requires { Entered (program_of program.now) state.old live.old store.old }
    ensures { SentWorld (program_of program.now) (starting f args.now) (number_of result) state.old live.old store.old state.new live.new store.new }
{
    if states::frames(state) != 0 {
        return Err(Refusal::OutOfTurn);
    }
    if states::has_result(state) {
        return Err(Refusal::OutOfTurn);
    }
    if args.len() % 16 != 0 {
        return Err(Refusal::BadValue);
    }
    let used = states::used(state) as usize;
    if !called_fits(program, store, used, f, args, 0) {
        return Err(Refusal::BadValue);
    }
    begin(program, state, live, store, used, f, args)
}
