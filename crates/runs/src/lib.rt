// A run as a call: fuel and memory are tested, memory in form becomes a machine at rest, the run goes, and the state block shows what it leaves.
#![tactic(auto)]

ghost use Rattle.scan.specs.Tables.{program_of};
ghost use Rattle.requests.specs.Asked.{Entered};
ghost use Rattle.loans.specs.Loans.{front_live, front_store};
ghost use Rattle.runs.specs.Ran.{RunsWorld, RunsLoans, RunCalled, ran_said};

use form::Tables;
use fuel::Fuel;
use groups::{Group, Stand, Turn};
use plan::Counts;
use refusals::Refusal;

// The answer of a run, and the ticks that it took.
#[repr(C)]
#[derive(Clone, Copy)]
pub struct Ran {
    pub code: u32,
    pub ticks: u32,
}

// A run of so many ticks over loans that are cut to their most: 11 during a wait.
fn run_lent(
    program: &lookups::Program,
    state: &mut [u8],
    live: &mut [u8],
    store: &mut [u8],
    fuel: Fuel,
    ticks: u32,
) -> Group
    requires { Entered (program_of program.now) state.old live.old store.old }
    ensures { RunsWorld (program_of program.now) fuel ticks result state.old live.old store.old state.new live.new store.new }
{
    let mut starts = [0u32; 256];
    let mut args = [0u8; 65536];
    let frames = states::frames(state) as usize;
    let end = placing::starts(live, &mut starts, frames);
    let c = Counts {
        frames,
        live: end + cells::payload(state, 3) as usize,
        store: states::used(state) as usize,
    };
    let left = states::slice(state);
    let turn = Turn {
        fuel,
        ticks,
        left,
        counts: c,
    };
    if states::waits(state) {
        return Group {
            stand: Stand::Refused(Refusal::OutOfTurn),
            turn,
        };
    }
    let r = groups::run(program, state, live, store, &mut starts, &mut args, turn);
    if let Stand::Host = r.stand {
        requests::leave(state, r.turn.counts, r.turn.left, 1);
        return r;
    }
    requests::leave(state, r.turn.counts, r.turn.left, 0);
    r
}

// The same over the whole loans.
fn run_entered(
    program: &lookups::Program,
    state: &mut [u8],
    live: &mut [u8],
    store: &mut [u8],
    fuel: Fuel,
    ticks: u32,
) -> Group
    requires { Entered (program_of program.now) state.old (front_live live.old) (front_store store.old) }
    ensures { RunsLoans (program_of program.now) fuel ticks result state.old live.old store.old state.new live.new store.new }
{
    let (live, _) = loans::parted(live, 65536);
    let (store, _) = loans::parted(store, 1048576);
    run_lent(program, state, live, store, fuel, ticks)
}

// A run whose loans are as they must be: its answer and the ticks taken.
#[tactic(auto, using(form::specs::EntryLaws::enters_low, crate::specs::CallLaws::call_unlent))]
fn try_run(
    image: &[u8],
    state: &mut [u8],
    live: &mut [u8],
    store: &mut [u8],
    fuel: &mut [u8],
    ticks: u32,
) -> Result<Ran, Refusal>
    ensures { RunCalled image.now ticks (ran_said result) state.old live.old store.old fuel.old state.new live.new store.new fuel.new }
{
    let lent = fuel::read(fuel)?;
    let mut tables = Tables::new();
    let sizes = tables.enter(image, state, live, store)?;
    let program = tables.program(image, sizes);
    let r = run_entered(&program, state, live, store, lent, ticks);
    fuel::write(fuel, r.turn.fuel);
    Ok(Ran {
        code: r.stand.code(),
        ticks: ticks - r.turn.ticks,
    })
}

// A run of so many ticks: its answer and the ticks taken, none where it is refused.
pub fn run(
    image: &[u8],
    state: &mut [u8],
    live: &mut [u8],
    store: &mut [u8],
    fuel: &mut [u8],
    ticks: u32,
) -> Ran
    ensures { RunCalled image.now ticks result state.old live.old store.old fuel.old state.new live.new store.new fuel.new }
{
    try_run(image, state, live, store, fuel, ticks).unwrap_or_else(|refusal| Ran {
        code: refusal.number(),
        ticks: 0,
    })
}
