// A start and an answer as calls: fuel and memory are tested, then what was sent is done.
#![tactic(auto)]

ghost use Rattle.scan.specs.Tables.{program_of};
ghost use Rattle.refusals.specs.Refusals.{number_of};
ghost use Rattle.requests.specs.Asked.{Entered};
ghost use Rattle.requests.specs.Sent.{starting, answering};
ghost use Rattle.loans.specs.Loans.{front_live, front_store};
ghost use Rattle.turns.specs.Loaned.{SentLoans};
ghost use Rattle.turns.specs.Turned.{StartCalled, AnswerCalled, code_said};

use cells::Cell;
use form::Tables;
use refusals::Refusal;

// What an answer that is done says: the run may go on, or it is out of fuel.
const GO_ON: u32 = 104;

const OUT_OF_FUEL: u32 = 101;

// A start over the whole loans.
fn start_entered(
    program: &lookups::Program,
    state: &mut [u8],
    live: &mut [u8],
    store: &mut [u8],
    f: Cell,
    args: &[u8],
) -> Result<(), Refusal>
    requires { Entered (program_of program.now) state.old (front_live live.old) (front_store store.old) }
    ensures { SentLoans (program_of program.now) (starting f args.now) (number_of result) state.old live.old store.old state.new live.new store.new }
{
    let (live, _) = loans::parted(live, 65536);
    let (store, _) = loans::parted(store, 1048576);
    requests::start(program, state, live, store, f, args)
}

// A start of a Function with arguments, where the call is entered.
#[tactic(auto, using(form::specs::EntryLaws::enters_low))]
fn try_start(
    image: &[u8],
    state: &mut [u8],
    live: &mut [u8],
    store: &mut [u8],
    f: Cell,
    args: &[u8],
) -> Result<(), Refusal>
    ensures { StartCalled image.now f args.now (number_of result) state.old live.old store.old state.new live.new store.new }
{
    let mut tables = Tables::new();
    let sizes = tables.enter(image, state, live, store)?;
    let program = tables.program(image, sizes);
    start_entered(&program, state, live, store, f, args)
}

// A start of a Function with arguments.
pub fn start(
    image: &[u8],
    state: &mut [u8],
    live: &mut [u8],
    store: &mut [u8],
    f: Cell,
    args: &[u8],
) -> u32
    ensures { StartCalled image.now f args.now result state.old live.old store.old state.new live.new store.new }
{
    refusals::number_of(try_start(image, state, live, store, f, args))
}

// An answer over the whole loans.
fn answer_entered(
    program: &lookups::Program,
    state: &mut [u8],
    live: &mut [u8],
    store: &mut [u8],
    kind: u32,
    word: u64,
    v: Cell,
    args: &[u8],
    handlers: &[u8],
) -> Result<(), Refusal>
    requires { Entered (program_of program.now) state.old (front_live live.old) (front_store store.old) }
    ensures { SentLoans (program_of program.now) (answering kind word v args.now handlers.now) (number_of result) state.old live.old store.old state.new live.new store.new }
{
    let (live, _) = loans::parted(live, 65536);
    let (store, _) = loans::parted(store, 1048576);
    callbacks::answer(program, state, live, store, kind, word, v, args, handlers)
}

// An answer that is done charges 4, and says whether the run may go on or is out of fuel.
#[tactic(auto, using(form::specs::EntryLaws::enters_low, crate::specs::TurnLaws::answer_unlent))]
fn try_answer(
    image: &[u8],
    state: &mut [u8],
    live: &mut [u8],
    store: &mut [u8],
    fuel: &mut [u8],
    kind: u32,
    word: u64,
    v: Cell,
    args: &[u8],
    handlers: &[u8],
) -> Result<u32, Refusal>
    ensures { AnswerCalled image.now kind word v args.now handlers.now (code_said result) state.old live.old store.old fuel.old state.new live.new store.new fuel.new }
{
    let lent = fuel::read(fuel)?;
    let mut tables = Tables::new();
    let sizes = tables.enter(image, state, live, store)?;
    let program = tables.program(image, sizes);
    answer_entered(&program, state, live, store, kind, word, v, args, handlers)?;
    let left = fuel::charged(lent, 4);
    fuel::write(fuel, left);
    if left.should_continue() {
        return Ok(GO_ON);
    }
    Ok(OUT_OF_FUEL)
}

// An answer: whether the run may go on or is out of fuel, or why it is refused.
pub fn answer(
    image: &[u8],
    state: &mut [u8],
    live: &mut [u8],
    store: &mut [u8],
    fuel: &mut [u8],
    kind: u32,
    word: u64,
    v: Cell,
    args: &[u8],
    handlers: &[u8],
) -> u32
    ensures { AnswerCalled image.now kind word v args.now handlers.now result state.old live.old store.old fuel.old state.new live.new store.new fuel.new }
{
    try_answer(
        image, state, live, store, fuel, kind, word, v, args, handlers,
    )
    .unwrap_or_else(|refusal| refusal.number())
}
