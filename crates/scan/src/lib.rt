// Values and frames in form: the part of the form test (refusal 7) that store and live stack share.
#![tactic(auto)]

ghost use Rattle.std.specs.Prelude.{◌≡◌, ◌+◌, ◌*◌, ◌≤◌, length, take, drop, eqb, leb};
ghost use Rattle.std.specs.Bool.{then_some};
ghost use Rattle.cells.specs.Le.{le_at};
ghost use Rattle.cells.specs.Tags.{tag_number};
ghost use Rattle.image.specs.Kinds.{constant_number};
ghost use Rattle.image.specs.Records.{both};
ghost use Rattle.machine.specs.Values.{bytes_at, code_of};
ghost use Rattle.cells.specs.Cells.{room, cells};
ghost use Rattle.image.specs.Program.{all};
ghost use Rattle.machine.specs.Calls.{is_constant};
ghost use Rattle.memory.specs.View.{handlers_of, frame_size, frames_size};
ghost use Rattle.memory.specs.Tests.{object_of, is_null_cell, callback_fits, spare_fits, target_fits, value_fits, effect_fits, code_at, lucia_fits, kind_fits, limit_of, handlers_fit, body_fits, frame_fits, frames_fit};
ghost use Rattle.scan.specs.Tables.{program_of, cells_of};
ghost use Rattle.scan.specs.Values.{is_plain};

mod store;

use cells::{Cell, Tag, ValueType};
use image::{ConstantKind, EffectKind};
pub use store::Objects;

// The tags of values as numbers.
const NULL: u32 = Tag::Null as u32;

const BOOL: u32 = Tag::Bool as u32;

const INT: u32 = Tag::Int as u32;

const FLOAT: u32 = Tag::Float as u32;

const STR: u32 = Tag::Str as u32;

const BYTES: u32 = Tag::Bytes as u32;

const LIST: u32 = Tag::List as u32;

const CLOSURE: u32 = Tag::Closure as u32;

const BUILTIN_EFFECT: u32 = Tag::BuiltinEffect as u32;

const MESSAGE: u32 = Tag::Message as u32;

const CONTINUATION: u32 = Tag::Continuation as u32;

const EFFECT: u32 = Tag::Effect as u32;

const CALLBACK: u32 = Tag::Callback as u32;

// The messages of errors that carry no value have the numbers from 1 to this one.
const MESSAGES: u32 = 6;

// Does the first cell of a kind of object stand at a handle?
#[tactic(auto, unfolding(image::specs::Records::both, memory::specs::Tests::object_of))]
fn object_of(objects: &Objects, kind: Tag, handle: u32) -> bool
    ensures { result ≡ object_of (cells_of objects.now) objects.now.below (tag_number kind) handle }
{
    let h = handle as usize;
    h < objects.below && cells::tag(objects.store, h) == kind as u32
}

// Does a value name a constant of this kind?
#[tactic(auto, using(crate::specs::Values::constant_past, crate::specs::Values::constant_here))]
fn is_constant(program: &lookups::Program, kind: ConstantKind, v: Cell) -> bool
    ensures { result ≡ is_constant (program_of program.now) (constant_number kind) v }
{
    let code = v.number as usize;
    if code >= program.codes {
        return false;
    }
    if v.payload >= program.constant_count(code) as u64 {
        return false;
    }
    let c = program.constant(code, v.payload as usize);
    c.kind == kind as u16
}

// Does a value name an effect that the image declares?
fn is_declared(program: &lookups::Program, v: Cell) -> bool
    ensures { result ≡ both (is_constant (program_of program.now) 23 v) (eqb (le_at 2 (bytes_at (program_of program.now) v) 0) 3) }
{
    if !is_constant(program, ConstantKind::Effect, v) {
        return false;
    }
    let c = program.constant(v.number as usize, v.payload as usize);
    contents::effect_number(contents::content(program.image, c)) == EffectKind::Declared as u16
}

// Is a cell a value whose handle, if it has one, is that of an object here?
#[tactic(auto, unfolding(image::specs::Records::both, memory::specs::Tests::value_fits))]
pub fn value_fits(program: &lookups::Program, objects: &Objects, v: Cell) -> bool
    ensures { result ≡ value_fits (program_of program.now) (cells_of objects.now) objects.now.below v }
{
    let number = v.number;
    let plain = v.payload == 0;
    // Not a `match` of `Tag::try_from`, which takes twice as long for a store of closures or Strs.
    let tag = v.tag;
    match tag {
        NULL => number == 0 && plain,
        BOOL => number <= 1 && plain,
        INT | FLOAT => number == 0,
        STR => is_constant(program, ConstantKind::Str, v),
        BYTES => is_constant(program, ConstantKind::Bytes, v),
        LIST => plain && object_of(objects, Tag::ObjectList, number),
        CLOSURE => plain && object_of(objects, Tag::ObjectClosure, number),
        BUILTIN_EFFECT => number <= EffectKind::Panic as u32 && plain,
        MESSAGE => number >= 1 && number <= MESSAGES && plain,
        CONTINUATION => plain && object_of(objects, Tag::ObjectContinuation, number),
        EFFECT => is_declared(program, v),
        CALLBACK => true,
        _ => false,
    }
}

// Is a cell an effect?
#[tactic(auto, unfolding(image::specs::Records::both, memory::specs::Tests::effect_fits))]
pub fn effect_fits(program: &lookups::Program, objects: &Objects, v: Cell) -> bool
    ensures { result ≡ effect_fits (program_of program.now) (cells_of objects.now) objects.now.below v }
{
    v.tag % 16 == ValueType::Effect as u32 && value_fits(program, objects, v)
}

// Is a cell null or an Int? Most cells are, and need no look at program and store.
#[tactic(auto, unfolding(crate::specs::Values::is_plain))]
fn is_plain(c: Cell) -> bool
    ensures { result ≡ is_plain c }
{
    if c.is(Tag::Int) {
        return c.number == 0;
    }
    is_null(c)
}

// Are n cells of x values?
pub fn values_fit(
    program: &lookups::Program,
    objects: &Objects,
    x: &[u8],
    from: usize,
    n: usize,
) -> bool
    requires { from + n ≤ room x.now }
    ensures { result ≡ all (value_fits (program_of program.now) (cells_of objects.now) objects.now.below) (take n (drop from (cells x.now))) }
{
    for i in 0..n {
        let v = cells::get(x, from + i);
        if !is_plain(v) {
            if !value_fits(program, objects, v) {
                return false;
            }
        }
    }
    true
}

// Is a cell the target of a handler?
#[tactic(auto, unfolding(image::specs::Records::both, memory::specs::Tests::target_fits))]
fn target_fits(limit: usize, c: Cell) -> bool
    ensures { result ≡ target_fits limit c }
{
    c.is(Tag::Handler)
        && if limit == 0 {
            c.number == 0 && c.payload == 0
        } else {
            (c.number as usize) < limit
        }
}

// Are 2 * n cells of x handlers?
fn handlers_fit(
    program: &lookups::Program,
    objects: &Objects,
    x: &[u8],
    from: usize,
    n: usize,
    limit: usize,
) -> bool
    requires { (n ≤ 16) × (from + 2 * n ≤ room x.now) }
    ensures { result ≡ handlers_fit (program_of program.now) (cells_of objects.now) objects.now.below limit n (drop from (cells x.now)) }
{
    for i in 0..n {
        let e = cells::get(x, from + 2 * i);
        if !effect_fits(program, objects, e) {
            return false;
        }
        let t = cells::get(x, from + 2 * i + 1);
        if !target_fits(limit, t) {
            return false;
        }
    }
    true
}

// Is a cell null?
#[tactic(auto, unfolding(image::specs::Records::both))]
pub fn is_null(c: Cell) -> bool
    ensures { result ≡ is_null_cell c }
{
    c.is(Tag::Null) && c.number == 0 && c.payload == 0
}

// The place's kind, and three spare cells, of the frame at the front of x.
#[tactic(auto, unfolding(image::specs::Records::both, memory::specs::Tests::spare_fits))]
fn spare_fits(x: &[u8]) -> bool
    requires { 6 ≤ room x.now }
    ensures { result ≡ spare_fits (cells x.now) }
{
    cells::tag(x, 2) == Tag::Place as u32
        && is_null(cells::get(x, 3))
        && is_null(cells::get(x, 4))
        && is_null(cells::get(x, 5))
}

// A Lucia frame, with its closure, place and locals: how many opcodes its code has.
#[tactic(auto, using(crate::specs::Heads::known, crate::specs::Heads::opcodes, crate::specs::Heads::locals), unfolding(image::specs::Records::both, memory::specs::Tests::object_of, memory::specs::Tests::lucia_fits))]
fn lucia_fits(program: &lookups::Program, objects: &Objects, x: &[u8]) -> Option<usize>
    requires { 6 ≤ room x.now }
    ensures { result ≡ then_some (lucia_fits (program_of program.now) (cells_of objects.now) objects.now.below (cells x.now)) (length (code_of (program_of program.now) (code_at (program_of program.now) (cells_of objects.now) objects.now.below (cells x.now))).opcodes) }
{
    let c = cells::get(x, 1);
    let closed = c.is(Tag::Closure)
        && c.payload == 0
        && object_of(objects, Tag::ObjectClosure, c.number);
    if !closed {
        return None;
    }
    let code = cells::number(objects.store, c.number as usize) as usize;
    if code >= program.codes {
        return None;
    }
    let opcodes = program.opcode_count(code);
    let placed = (cells::number(x, 2) as usize) < opcodes;
    (placed && cells::number(x, 0) == u32::from(program.locals(code))).then_some(opcodes)
}

// A callback frame has no place and no locals.
#[tactic(auto, unfolding(image::specs::Records::both, memory::specs::Tests::callback_fits))]
fn callback_fits(x: &[u8], subject: bool) -> bool
    requires { 6 ≤ room x.now }
    ensures { result ≡ callback_fits subject (cells x.now) }
{
    subject && cells::number(x, 2) == 0 && cells::number(x, 0) == 0
}

// A frame of one of the three kinds: below which number the targets of its handlers lie, 0 for a callback frame.
#[tactic(auto, unfolding(image::specs::Records::both, memory::specs::Tests::kind_fits, memory::specs::Tests::limit_of))]
fn kind_fits(program: &lookups::Program, objects: &Objects, x: &[u8]) -> Option<usize>
    requires { 6 ≤ room x.now }
    ensures { result ≡ then_some (kind_fits (program_of program.now) (cells_of objects.now) objects.now.below (cells x.now)) (limit_of (program_of program.now) (cells_of objects.now) objects.now.below (cells x.now)) }
{
    let kind = cells::tag(x, 0);
    if kind == Tag::FrameLucia as u32 {
        return lucia_fits(program, objects, x);
    }
    let subject = cells::get(x, 1);
    if kind == Tag::FrameCallback as u32 {
        return callback_fits(x, subject.is(Tag::Callback)).then_some(0);
    }
    if kind == Tag::FrameEffect as u32 {
        return callback_fits(x, effect_fits(program, objects, subject)).then_some(0);
    }
    None
}

// The cells behind the head of a frame: locals, handlers, stack.
#[tactic(auto, unfolding(image::specs::Records::both, memory::specs::Tests::body_fits))]
fn body_fits(program: &lookups::Program, objects: &Objects, x: &[u8], limit: usize) -> bool
    requires { (frame_size (cells x.now) ≤ room x.now) × (handlers_of (cells x.now) ≤ 16) }
    ensures { limit ≡ limit_of (program_of program.now) (cells_of objects.now) objects.now.below (cells x.now) → result ≡ body_fits (program_of program.now) (cells_of objects.now) objects.now.below (cells x.now) }
{
    let locals = cells::number(x, 0) as usize;
    let handlers = cells::payload(x, 0) as usize;
    let stack = cells::payload(x, 2) as usize;
    let from = 6 + locals;
    values_fit(program, objects, x, 6, locals)
        && handlers_fit(program, objects, x, from, handlers, limit)
        && values_fit(program, objects, x, from + 2 * handlers, stack)
}

// Where the frame at the front of x ends, if its cells are there.
fn frame_end(x: &[u8]) -> Option<usize>
    requires { (6 ≤ room x.now) × (handlers_of (cells x.now) ≤ 16) }
    ensures { result ≡ then_some (leb (frame_size (cells x.now)) (length (cells x.now))) (frame_size (cells x.now)) }
{
    let locals = cells::number(x, 0) as usize;
    let handlers = cells::payload(x, 0) as usize;
    let stack = cells::payload(x, 2) as usize;
    let end = (6 + locals + 2 * handlers).checked_add(stack)?;
    (end <= cells::room(x)).then_some(end)
}

// A frame in form at the front of x: where it ends.
fn frame_fits(program: &lookups::Program, objects: &Objects, x: &[u8]) -> Option<usize>
    ensures { result ≡ then_some (frame_fits (program_of program.now) (cells_of objects.now) objects.now.below (cells x.now)) (frame_size (cells x.now)) }
{
    if cells::room(x) < 6 {
        return None;
    }
    if !spare_fits(x) {
        return None;
    }
    let limit = kind_fits(program, objects, x)?;
    if cells::payload(x, 0) > 16 {
        return None;
    }
    let end = frame_end(x)?;
    body_fits(program, objects, x, limit).then_some(end)
}

// So many frames in form from the first cell of x on: where they end.
pub fn frames_fit(
    program: &lookups::Program,
    objects: &Objects,
    x: &[u8],
    n: usize,
) -> Option<usize>
    ensures { result ≡ then_some (frames_fit (program_of program.now) (cells_of objects.now) objects.now.below n (cells x.now)) (frames_size n (cells x.now)) }
{
    let mut at = 0;
    for _ in 0..n {
        let size = frame_fits(program, objects, &x[16 * at..])?;
        at += size;
    }
    Some(at)
}
