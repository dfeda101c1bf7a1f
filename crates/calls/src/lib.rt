// What a call, a perform, a throw and a return come to, by the names of executor.rs. Nothing is written here: the answer is a plan, to be judged and then carried out.
#![tactic(auto)]

ghost use Rattle.std.specs.Prelude.{◌≡◌, List, true, ◌<◌};
ghost use Rattle.cells.specs.Cells.{room, cells};
ghost use Rattle.cells.specs.declared.Cell.{Cell};
ghost use Rattle.program.specs.Looks.{body_at};
ghost use Rattle.machine.specs.Values.{Program, code_params, call_arguments};
ghost use Rattle.machine.specs.Machine.{Object, function_of};
ghost use Rattle.machine.specs.Opcodes.{callable};
ghost use Rattle.machine.specs.Calls.{is_value, is_function};
ghost use Rattle.scan.specs.Tables.{program_of};
ghost use Rattle.plan.specs.Plans.{params_of, error_of};
ghost use Rattle.plan.specs.Searches.{Lies};
ghost use Rattle.image.specs.Layout.{flat};
ghost use Rattle.calls.specs.Called.{checks, Handling, Lacking, callback_frame, code_named, Callable, Performs, ThrowsError, CallsFunction, BeginsNone, BeginsCall, ReturnsValue};

use cells::{Cell, Tag};
use plan::{Error, ErrorKind, FrameKind, Params, Plan, Start};
use values::Metamethod;

// The tags of functions as numbers: with a `match` of `Tag::try_from` a call and its return take a quarter longer.
const CLOSURE: u32 = Tag::Closure as u32;

const BUILTIN_EFFECT: u32 = Tag::BuiltinEffect as u32;

const CONTINUATION: u32 = Tag::Continuation as u32;

const EFFECT: u32 = Tag::Effect as u32;

const CALLBACK: u32 = Tag::Callback as u32;

// The frame that a call begins.
#[derive(Clone, Copy)]
pub struct Beginning {
    pub start: Start,
    pub params: Params,
}

// `check_args`.
#[tactic(auto, unfolding(crate::specs::Called::checks))]
fn check_args(p: Params, n: usize) -> bool
    ensures { result ≡ checks p n }
{
    let count = usize::from(p.count);
    if p.variadic { count <= n } else { count == n }
}

// A count that is refused.
#[tactic(auto, unfolding(memory::specs::Layout::error_shown, plan::specs::Kinds::kind_of))]
fn wrong_count(p: Params, n: usize) -> Error
    ensures { result ≡ error_of (call_arguments p.count p.variadic n) }
{
    Error {
        kind: ErrorKind::CallArguments,
        value: Cell {
            tag: u32::from(p.count),
            number: u32::from(p.variadic),
            payload: n as u64,
        },
        second: 0,
    }
}

// Where a frame handles the effect.
fn handled(frame: usize, handler: usize, e: Cell, p: Params, thrown: Option<Error>) -> Plan
    ensures { Handling frame handler e p thrown result }
{
    match thrown {
        None => Plan::Handles(frame, handler, e, p),
        Some(x) => Plan::Catches(frame, handler, x),
    }
}

// Where none does.
fn unhandled(e: Cell, thrown: Option<Error>) -> Plan
    ensures { Lacking e thrown result }
{
    match thrown {
        None => Plan::Unhandled(e),
        Some(x) => Plan::Fails(x),
    }
}

// An effect with n arguments, performed by a script or the host, or by a throw of an error: a wrong count is thrown.
#[cycle(perform_effect_with_throw_error)]
pub fn perform_effect_with(
    program: &lookups::Program,
    live: &[u8],
    starts: &[u32],
    frames: usize,
    throws: u32,
    e: Cell,
    n: usize,
    thrown: Option<Error>,
) -> Plan
    requires { Lies frames (cells live.now) starts.now }
    ensures { Performs (program_of program.now) frames throws e n thrown (cells live.now) starts.now result }
{
    let p = effects::effect_params(program, e);
    if !check_args(p, n) {
        let x = wrong_count(p, n);
        return throw_error(program, live, starts, frames, throws, x);
    }
    match handlers::search(program, live, starts, frames, e) {
        Some(found) => handled(found.frame, found.handler, e, p, thrown),
        None => unhandled(e, thrown),
    }
}

// A throw performs its builtin; throws left fall from one to none, since the error always fits.
#[cycle(perform_effect_with_throw_error)]
pub fn throw_error(
    program: &lookups::Program,
    live: &[u8],
    starts: &[u32],
    frames: usize,
    throws: u32,
    x: Error,
) -> Plan
    requires { Lies frames (cells live.now) starts.now }
    ensures { ThrowsError (program_of program.now) frames throws x (cells live.now) starts.now result }
{
    if throws == 0 {
        return Plan::Stays;
    }
    perform_effect_with(
        program,
        live,
        starts,
        frames,
        throws - 1,
        values::thrown(x),
        1,
        Some(x),
    )
}

// Is a value that exists a function: a closure, a callback, a continuation, an effect?
pub fn callable(f: Cell) -> bool
    ensures { (P : Program) (s : List Object) → is_value P s f ≡ true → result ≡ callable (function_of s f) }
{
    let tag = f.tag;
    match tag {
        CLOSURE | BUILTIN_EFFECT | CONTINUATION | EFFECT | CALLBACK => true,
        _ => false,
    }
}

// The same of a value that the host calls: an effect is none.
pub fn is_function(f: Cell) -> bool
    ensures { (P : Program) (s : List Object) → is_value P s f ≡ true → result ≡ is_function (function_of s f) }
{
    let tag = f.tag;
    match tag {
        CLOSURE | CONTINUATION | CALLBACK => true,
        _ => false,
    }
}

// A frame of a callback of the host or of an effect: all arguments as they are.
fn callback(kind: FrameKind, f: Cell) -> Option<Beginning>
    ensures { result ≡ callback_frame kind f }
{
    Some(Beginning {
        start: Start {
            kind,
            subject: f,
            locals: 0,
        },
        params: Params {
            count: 0,
            variadic: false,
        },
    })
}

// The parameters of a closure.
fn closure_params(program: &lookups::Program, store: &[u8], f: Cell) -> Params
    requires { f.number < room store.now }
    ensures { result ≡ params_of (code_params (body_at program.now.image.now (flat program.now.rows.now) (code_named (cells store.now) f))) }
{
    let code = cells::number(store, f.number as usize) as usize;
    Params {
        count: program.params(code),
        variadic: program.variadic(code) == 1,
    }
}

// A closure: a new frame of it, if the count fits.
fn closure_frame(
    program: &lookups::Program,
    live: &[u8],
    store: &[u8],
    starts: &[u32],
    frames: usize,
    f: Cell,
    n: usize,
) -> Option<Beginning>
    requires { (f.tag ≡ 7) × Callable (program_of program.now) f frames (cells live.now) (cells store.now) starts.now }
    ensures { BeginsCall (program_of program.now) frames f n (cells live.now) (cells store.now) starts.now result }
{
    let p = closure_params(program, store, f);
    if !check_args(p, n) {
        return None;
    }
    let code = cells::number(store, f.number as usize) as usize;
    Some(Beginning {
        start: Start {
            kind: FrameKind::Lucia,
            subject: f,
            locals: program.locals(code) as u32,
        },
        params: p,
    })
}

// A closure that takes n arguments, a callback of the host and an effect begin a frame, and nothing else is done.
pub fn frame_of(
    program: &lookups::Program,
    live: &[u8],
    store: &[u8],
    starts: &[u32],
    frames: usize,
    f: Cell,
    n: usize,
) -> Option<Beginning>
    requires { Callable (program_of program.now) f frames (cells live.now) (cells store.now) starts.now }
    ensures { BeginsCall (program_of program.now) frames f n (cells live.now) (cells store.now) starts.now result }
{
    let tag = f.tag;
    match tag {
        BUILTIN_EFFECT | EFFECT => callback(FrameKind::Effect, f),
        CALLBACK => callback(FrameKind::Host, f),
        CLOSURE => closure_frame(program, live, store, starts, frames, f, n),
        _ => None,
    }
}

// `resume`: a continuation takes one value.
fn resume(
    program: &lookups::Program,
    live: &[u8],
    starts: &[u32],
    frames: usize,
    f: Cell,
    args: &[u8],
) -> Plan
    requires { (f.tag ≡ 23) × Lies frames (cells live.now) starts.now }
    ensures { (S : List Cell) → CallsFunction (program_of program.now) frames f (cells args.now) (cells live.now) S starts.now result }
{
    let n = cells::room(args);
    if n == 1 {
        return Plan::Resumes(f.number as usize, cells::get(args, 0));
    }
    let x = wrong_count(Params::ONE, n);
    throw_error(program, live, starts, frames, 1, x)
}

// A call that begins no frame: a resume, or a throw, since the count does not fit or the value is no function.
fn no_frame(
    program: &lookups::Program,
    live: &[u8],
    store: &[u8],
    starts: &[u32],
    frames: usize,
    f: Cell,
    args: &[u8],
) -> Plan
    requires { BeginsNone (program_of program.now) f (room args.now) (cells store.now) × Callable (program_of program.now) f frames (cells live.now) (cells store.now) starts.now }
    ensures { CallsFunction (program_of program.now) frames f (cells args.now) (cells live.now) (cells store.now) starts.now result }
{
    let tag = f.tag;
    match tag {
        CLOSURE => throw_error(
            program,
            live,
            starts,
            frames,
            1,
            wrong_count(closure_params(program, store, f), cells::room(args)),
        ),
        CONTINUATION => resume(program, live, starts, frames, f, args),
        _ => throw_error(
            program,
            live,
            starts,
            frames,
            1,
            values::meta_un_operator(Metamethod::Call as u32, values::type_of(f)),
        ),
    }
}

// `call_function`: a new frame, a resume, or a throw.
pub fn call_function(
    program: &lookups::Program,
    live: &[u8],
    store: &[u8],
    starts: &[u32],
    frames: usize,
    f: Cell,
    args: &[u8],
) -> Plan
    requires { Callable (program_of program.now) f frames (cells live.now) (cells store.now) starts.now }
    ensures { CallsFunction (program_of program.now) frames f (cells args.now) (cells live.now) (cells store.now) starts.now result }
{
    match frame_of(program, live, store, starts, frames, f, cells::room(args)) {
        Some(b) => Plan::Starts(b.start, b.params),
        None => no_frame(program, live, store, starts, frames, f, args),
    }
}

// `return_value`: to the top frame of those left, or to the host.
pub fn return_value(frames: usize, v: Cell) -> Plan
    ensures { ReturnsValue frames v result }
{
    if frames == 0 {
        return Plan::Returns(v);
    }
    Plan::Receives(v)
}
