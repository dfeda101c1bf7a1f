// What the host answers: its kind, what refusal 5 asks of it, and what it comes to as a plan.
#![tactic(auto)]

ghost use Rattle.std.specs.Prelude.{◌≡◌, ◌≤◌};
ghost use Rattle.cells.specs.Cells.{room, cells};
ghost use Rattle.image.specs.Program.{all};
ghost use Rattle.memory.specs.Tests.{effect_fits};
ghost use Rattle.scan.specs.Tables.{program_of};
ghost use Rattle.requests.specs.Sent.{return_of};
ghost use Rattle.replies.specs.Replied.{asks_for, ReturnFits, Plannable, PlansReturn};
ghost use Rattle.replies.specs.Pieces.{Unused, PerformedFits};
ghost use Rattle.replies.specs.declared.CallbackReturn.TheVariants.{Call};

use cells::Cell;
use plan::{Error, ErrorKind, Plan};
use refusals::Refusal;
use scan::Objects;

// `CallbackReturn`, or an error with a value.
#[derive(Clone, Copy)]
pub enum CallbackReturn {
    Call(Cell),
    Perform(Cell),
    TailCall(Cell),
    TailPerform(Cell),
    ReturnValue(Cell),
    Error(Cell),
    Panic(Cell),
}

// What an answer does not use, so many values, must be empty.
#[tactic(auto, using(crate::specs::KindLaws::none_unused, crate::specs::KindLaws::some_unused))]
fn with_none(n: usize, r: CallbackReturn) -> Result<CallbackReturn, Refusal>
    ensures { Unused n r result }
{
    if n != 0 {
        return Err(Refusal::BadValue);
    }
    Ok(r)
}

// The kinds of an answer; what one does not use must be empty.
pub fn return_of(
    kind: u32,
    v: Cell,
    args: &[u8],
    handlers: &[u8],
) -> Result<CallbackReturn, Refusal>
    ensures { asks_for result args.now handlers.now ≡ return_of kind v args.now handlers.now }
{
    if args.len() % 16 != 0 {
        return Err(Refusal::BadValue);
    }
    if handlers.len() % 16 != 0 {
        return Err(Refusal::BadValue);
    }
    let n = cells::room(handlers);
    let all = cells::room(args) + n;
    match kind {
        0 => Ok(CallbackReturn::Call(v)),
        1 => with_none(n, CallbackReturn::Perform(v)),
        2 => with_none(n, CallbackReturn::TailCall(v)),
        3 => with_none(n, CallbackReturn::TailPerform(v)),
        4 => with_none(all, CallbackReturn::ReturnValue(v)),
        5 => with_none(all, CallbackReturn::Error(v)),
        6 => with_none(all, CallbackReturn::Panic(v)),
        _ => Err(Refusal::BadValue),
    }
}

// Are all cells of x effects?
fn effects_fit(program: &lookups::Program, store: &[u8], used: usize, x: &[u8]) -> bool
    requires { used ≤ room store.now }
    ensures { result ≡ all (effect_fits (program_of program.now) (cells store.now) used) (cells x.now) }
{
    let objects = Objects { store, below: used };
    let n = cells::room(x);
    for i in 0..n {
        let e = cells::get(x, i);
        if !scan::effect_fits(program, &objects, e) {
            return false;
        }
    }
    true
}

// An answered call: the tests of a call, and handlers that are effects.
#[tactic(auto, using(crate::specs::FitLaws::handlers_many, crate::specs::FitLaws::called_not, crate::specs::FitLaws::called_with))]
fn call_fits(
    program: &lookups::Program,
    store: &[u8],
    used: usize,
    f: Cell,
    args: &[u8],
    handlers: &[u8],
) -> bool
    requires { used ≤ room store.now }
    ensures { ReturnFits (program_of program.now) used (Call f) (cells args.now) (cells handlers.now) result (cells store.now) }
{
    let n = cells::room(handlers);
    if n > 4096 {
        return false;
    }
    if !requests::called_fits(program, store, used, f, args, n) {
        return false;
    }
    effects_fit(program, store, used, handlers)
}

// An answered perform: an effect, and at most 4,096 values.
#[tactic(auto, using(crate::specs::FitLaws::performed_many, crate::specs::FitLaws::performed_not, crate::specs::FitLaws::performed_with))]
fn perform_fits(program: &lookups::Program, store: &[u8], used: usize, e: Cell, args: &[u8]) -> bool
    requires { used ≤ room store.now }
    ensures { PerformedFits (program_of program.now) used e (cells args.now) result (cells store.now) }
{
    let n = cells::room(args);
    if n > 4096 {
        return false;
    }
    let objects = Objects { store, below: used };
    if !scan::effect_fits(program, &objects, e) {
        return false;
    }
    scan::values_fit(program, &objects, args, 0, n)
}

// Does what an answer names exist, is a called value a Function and a performed one or a handler an Effect, and are there at most 4,096?
#[tactic(auto, using(crate::specs::FitLaws::fits_call, crate::specs::FitLaws::fits_tail, crate::specs::FitLaws::fits_perform, crate::specs::FitLaws::fits_value))]
pub fn fits(
    program: &lookups::Program,
    store: &[u8],
    used: usize,
    r: CallbackReturn,
    args: &[u8],
    handlers: &[u8],
) -> bool
    requires { used ≤ room store.now }
    ensures { ReturnFits (program_of program.now) used r (cells args.now) (cells handlers.now) result (cells store.now) }
{
    match r {
        CallbackReturn::Call(f) => call_fits(program, store, used, f, args, handlers),
        CallbackReturn::TailCall(f) => requests::called_fits(program, store, used, f, args, 0),
        CallbackReturn::Perform(e) | CallbackReturn::TailPerform(e) => {
            perform_fits(program, store, used, e, args)
        }
        CallbackReturn::ReturnValue(v) | CallbackReturn::Error(v) | CallbackReturn::Panic(v) => {
            scan::value_fits(program, &Objects { store, below: used }, v)
        }
    }
}

// The script's own error: Error or Panic.
fn own_error(kind: ErrorKind, v: Cell) -> Error
    ensures { result ≡ record { kind = kind; value = v; second = 0 } }
{
    Error {
        kind,
        value: v,
        second: 0,
    }
}

// What an answer comes to over the frames left, of which there are so many.
pub fn plan_of(
    program: &lookups::Program,
    live: &[u8],
    store: &[u8],
    starts: &[u32],
    frames: usize,
    r: CallbackReturn,
    args: &[u8],
) -> Plan
    requires { Plannable (program_of program.now) frames r (cells args.now) (cells live.now) (cells store.now) starts.now }
    ensures { PlansReturn (program_of program.now) frames r (cells args.now) (cells live.now) (cells store.now) starts.now result }
{
    match r {
        CallbackReturn::Call(f) | CallbackReturn::TailCall(f) => calls::call_function(
            program, live, store, starts, frames, f, args,
        ),
        CallbackReturn::Perform(e) | CallbackReturn::TailPerform(e) => calls::perform_effect_with(
            program,
            live,
            starts,
            frames,
            1,
            e,
            cells::room(args),
            None,
        ),
        CallbackReturn::ReturnValue(v) => calls::return_value(frames, v),
        CallbackReturn::Error(v) => calls::throw_error(
            program,
            live,
            starts,
            frames,
            1,
            own_error(ErrorKind::Error, v),
        ),
        CallbackReturn::Panic(v) => calls::throw_error(
            program,
            live,
            starts,
            frames,
            1,
            own_error(ErrorKind::Panic, v),
        ),
    }
}
