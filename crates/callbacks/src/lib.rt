// An answer of the host, once its call is entered. It is worked out in a copy of the live stack: its frame with the new handlers need not fit the live stack where
// the call throws and the frame is captured. So nothing is written before the answer is judged.
#![tactic(auto)]

ghost use Rattle.cells.specs.Cells.{cells};
ghost use Rattle.scan.specs.Tables.{program_of};
ghost use Rattle.refusals.specs.Refusals.{number_of};
ghost use Rattle.requests.specs.Asked.{Entered, SentWorld};
ghost use Rattle.requests.specs.Sent.{answering};
ghost use Rattle.replies.specs.Replied.{return_with};
ghost use Rattle.callbacks.specs.Replies.{Leavable, LeftBy, Replyable, RepliesWorld};

use cells::Cell;
use plan::Counts;
use refusals::Refusal;
use replies::CallbackReturn;

// The frames left of an answer: word and handlers are put in, a tail call's own frame is gone. It says how much the
// machine has then; 17 different handlers are too many.
fn frames_left(
    program: &lookups::Program,
    r: CallbackReturn,
    handlers: &[u8],
    work: &mut [u8],
    base: usize,
    c: Counts,
) -> Result<Counts, Refusal>
    requires { Leavable base c work.old }
    ensures { LeftBy (program_of program.now) r (cells handlers.now) base c result work.old work.new }
{
    let gone = Counts {
        frames: c.frames - 1,
        live: base,
        ..c
    };
    match r {
        CallbackReturn::Call(_) => {
            let end = answers::put_handlers(program, handlers, work, base)?;
            Ok(Counts { live: end, ..c })
        }
        CallbackReturn::Perform(_) | CallbackReturn::Error(_) | CallbackReturn::Panic(_) => Ok(c),
        CallbackReturn::TailCall(_)
        | CallbackReturn::TailPerform(_)
        | CallbackReturn::ReturnValue(_) => Ok(gone),
    }
}

// An answer that passed its tests: it is planned, judged and carried out in the copy, and what is left goes back to the live stack.
fn reply(
    program: &lookups::Program,
    state: &mut [u8],
    live: &mut [u8],
    store: &mut [u8],
    word: u64,
    r: CallbackReturn,
    args: &[u8],
    handlers: &[u8],
) -> Result<(), Refusal>
    requires { Replyable (program_of program.now) r args.now handlers.now state.old live.old store.old }
    ensures { RepliesWorld (program_of program.now) word (return_with r (cells args.now) (cells handlers.now)) (number_of result) state.old live.old store.old state.new live.new store.new }
{
    let mut starts = [0u32; 256];
    let mut work = [0u8; 66048];
    let frames = states::frames(state) as usize;
    let end = answers::lay(live, &mut work, &mut starts, frames, word);
    let top = frames - 1;
    let base = starts[top] as usize;
    let c = Counts {
        frames,
        live: end,
        store: states::used(state) as usize,
    };
    let left = frames_left(program, r, handlers, &mut work, base, c)?;
    let plan = replies::plan_of(program, &work, store, &starts, left.frames, r, args);
    let most = cells::room(live);
    let used = requests::finish(plan, args, state, &mut work, store, &mut starts, left, most)?;
    blocks::copy(live, 0, &work, 0, used);
    Ok(())
}

// An answer: out of turn where none is awaited, a bad value for what is none or names what does not exist; then it is
// done.
pub fn answer(
    program: &lookups::Program,
    state: &mut [u8],
    live: &mut [u8],
    store: &mut [u8],
    kind: u32,
    word: u64,
    v: Cell,
    args: &[u8],
    handlers: &[u8],
) -> Result<(), Refusal>
    requires { Entered (program_of program.now) state.old live.old store.old }
    ensures { SentWorld (program_of program.now) (answering kind word v args.now handlers.now) (number_of result) state.old live.old store.old state.new live.new store.new }
{
    if !states::waits(state) {
        return Err(Refusal::OutOfTurn);
    }
    let r = replies::return_of(kind, v, args, handlers)?;
    let used = states::used(state) as usize;
    if !replies::fits(program, store, used, r, args, handlers) {
        return Err(Refusal::BadValue);
    }
    reply(program, state, live, store, word, r, args, handlers)
}
