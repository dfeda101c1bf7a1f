// What opcodes and calls are cut down to before anything is written. Types here, what they mean in specs/.
#![tactic(auto)]

ghost use Rattle.std.specs.Prelude.{◌≡◌};
ghost use Rattle.plan.specs.Kinds.{frame_number};

use cells::{Cell, Tag};
use moves::Running;
pub use results::ErrorKind;

// The parameters of a code or an effect: their count, and whether more arguments go into a list.
#[derive(Clone, Copy)]
pub struct Params {
    pub count: u16,
    pub variadic: bool,
}

impl Params {
    // One parameter: what a builtin effect and a continuation take.
    pub const ONE: Params = Params {
        count: 1,
        variadic: false,
    };
}

// An error as a result shows it: its kind, a cell, a second type.
#[derive(Clone, Copy)]
pub struct Error {
    pub kind: ErrorKind,
    pub value: Cell,
    pub second: u32,
}

// How an opcode ends that stays in its frame and is not refused: it goes on or jumps, with the frame in registers, or its
// own error is thrown.
#[derive(Clone, Copy)]
pub enum Next {
    Goes(Running),
    Jumps(Running),
    Throws(Running, Error),
}

// How much a machine has: frames, cells of the live stack, cells of the store.
#[derive(Clone, Copy)]
pub struct Counts {
    pub frames: usize,
    pub live: usize,
    pub store: usize,
}

// The kinds of frames.
#[derive(Clone, Copy)]
pub enum FrameKind {
    Lucia,
    Host,
    Effect,
}

impl FrameKind {
    // The number that memory has for it.
    pub fn number(self) -> u32
        ensures { result ≡ frame_number self }
    {
        match self {
            FrameKind::Lucia => Tag::FrameLucia as u32,
            FrameKind::Host => Tag::FrameCallback as u32,
            FrameKind::Effect => Tag::FrameEffect as u32,
        }
    }
}

// The head of a new frame.
#[derive(Clone, Copy)]
pub struct Start {
    pub kind: FrameKind,
    pub subject: Cell,
    pub locals: u32,
}

// What a call, a perform, a throw or a return comes to. A frame is named by its place from the bottom, a handler by its place in the frame.
#[derive(Clone, Copy)]
pub enum Plan {
    Starts(Start, Params),
    Resumes(usize, Cell),
    Handles(usize, usize, Cell, Params),
    Catches(usize, usize, Error),
    Unhandled(Cell),
    Fails(Error),
    Receives(Cell),
    Returns(Cell),
    Stays,
}

// The frame that handles an effect, by its place from the bottom, and its handler's place in it.
#[derive(Clone, Copy)]
pub struct Found {
    pub frame: usize,
    pub handler: usize,
}
