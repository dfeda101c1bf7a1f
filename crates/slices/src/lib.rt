// A slice: opcodes of one frame, which stays in registers, until one closes it, is refused or throws, 64 are counted, or no tick is left.
#![tactic(auto)]

ghost use Rattle.std.specs.Prelude.{◌≡◌, ◌<◌};
ghost use Rattle.scan.specs.Tables.{program_of};
ghost use Rattle.slices.specs.Sliced.{past_of, Sliceable, Slices, Quickens};

use moves::Running;
use plan::Error;
use refusals::Refusal;
use steps::{After, Closing, Closure, Quick};

// How a slice ends: no tick is left; all of it is spent; its next opcode is refused, throws its own error over the frame left, or closes it.
#[derive(Clone, Copy)]
pub enum End {
    Paused,
    Spent,
    Refused(Refusal),
    Throws(Running, Error),
    Closes(Closing, u32),
}

// The frame in registers, at its next opcode; the cells of the store used; what is left of the slice and of the ticks.
#[derive(Clone, Copy)]
pub struct Slice {
    pub end: End,
    pub g: Running,
    pub used: usize,
    pub left: u32,
    pub ticks: u32,
}

fn sliced(end: End, g: Running, used: usize, left: u32, ticks: u32) -> Slice
    ensures { result ≡ record { end = end; g = g; used = used; left = left; ticks = ticks } }
{
    Slice {
        end,
        g,
        used,
        left,
        ticks,
    }
}

// The registers past the opcode.
fn past(g: Running) -> Running
    requires { g.place < 4294967296 }
    ensures { result ≡ past_of g }
{
    Running {
        place: g.place + 1,
        ..g
    }
}

// Opcodes that are done at once, one after the other, while neither slice nor ticks run out: a loop of so few opcodes stays in the processor's registers. What comes then is left to `step`.
fn run_quick(
    program: &lookups::Program,
    state: &[u8],
    live: &mut [u8],
    store: &[u8],
    first: Running,
    closure: Closure,
    used: usize,
    begun: u32,
    given: u32,
) -> Slice
    requires { Sliceable (program_of program.now) first closure.handle closure.code used state.now live.old store.now }
    ensures { Quickens (program_of program.now) first closure.handle closure.code used begun given result state.now live.old store.now live.new }
{
    let image = program.image;
    let start = program::row(program.rows, closure.code).place as usize + 14;
    let mut g = first;
    let mut left = begun;
    let mut ticks = given;
    while ticks > 0 {
        if left == 0 {
            return sliced(End::Paused, g, used, left, ticks);
        }
        let o = program::opcode_at(image, start, g.place);
        match steps::quick_step(program, live, store, past(g), closure, used, o) {
            Quick::Goes(h) => {
                g = h;
                ticks -= 1;
                left -= 1;
            }
            Quick::Jumps(h) => {
                g = h;
                ticks -= 1;
            }
            Quick::Other => return sliced(End::Paused, g, used, left, ticks),
        }
    }
    sliced(End::Paused, g, used, left, ticks)
}

// The opcodes of the frame g of a closure, as many as the slice and the ticks allow.
pub fn run_slice(
    program: &lookups::Program,
    state: &mut [u8],
    live: &mut [u8],
    store: &mut [u8],
    first: Running,
    closure: Closure,
    taken: usize,
    begun: u32,
    given: u32,
) -> Slice
    requires { Sliceable (program_of program.now) first closure.handle closure.code taken state.old live.old store.old }
    ensures { Slices (program_of program.now) first closure.handle closure.code taken begun given result state.old live.old store.old state.new live.new store.new }
{
    let mut g = first;
    let mut used = taken;
    let mut left = begun;
    let mut ticks = given;
    while ticks > 0 {
        let q = run_quick(program, state, live, store, g, closure, used, left, ticks);
        g = q.g;
        left = q.left;
        ticks = q.ticks;
        if ticks == 0 {
            return sliced(End::Paused, g, used, left, ticks);
        }
        let o = program.opcode(closure.code, g.place);
        match steps::step(program, state, live, store, past(g), closure, used, o) {
            Ok(After::On(h, u)) => {
                g = h;
                used = u;
                ticks -= 1;
                if left == 0 {
                    return sliced(End::Spent, g, used, left, ticks);
                }
                left -= 1;
            }
            Ok(After::Jumped(h)) => {
                g = h;
                ticks -= 1;
            }
            Ok(After::Throws(h, x)) => return sliced(End::Throws(h, x), g, used, left, ticks),
            Err(n) => return sliced(End::Refused(n), g, used, left, ticks),
            Ok(After::Closing(k)) => return sliced(End::Closes(k, o.operand), g, used, left, ticks),
        }
    }
    sliced(End::Paused, g, used, left, ticks)
}
