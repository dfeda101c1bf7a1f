// Values: types, errors, and the value of a constant.
#![tactic(auto)]

ghost use Rattle.std.specs.Prelude.{◌≡◌, List, leb};
ghost use Rattle.image.specs.Program.{Code};
ghost use Rattle.image.specs.Fine.{Sized};
ghost use Rattle.image.specs.Records.{if?};
ghost use Rattle.image.specs.Kinds.{effect_number};
ghost use Rattle.machine.specs.Values.{cell, builtin, type_of, is_effect, int, bool, un_operator, bin_operator, meta_un_operator};
ghost use Rattle.machine.specs.Opcodes.{constant_value};
ghost use Rattle.plan.specs.Plans.{error_of, Throws, Shows};

use cells::{Cell, Tag};
use image::{Constant, ConstantKind, EffectKind};
use plan::{Error, ErrorKind};

// The type of a value, 0 to 9.
pub fn type_of(v: Cell) -> u32
    ensures { result ≡ type_of v }
{
    v.tag % 16
}

// The type of effects.
const EFFECT: u32 = 8;

pub fn is_effect(v: Cell) -> bool
    ensures { result ≡ is_effect v }
{
    type_of(v) == EFFECT
}

#[tactic(auto, using(crate::specs::Constants::bool_is))]
pub fn bool_of(b: bool) -> Cell
    ensures { result ≡ bool b }
{
    Cell::new(Tag::Bool, u32::from(b), 0)
}

pub fn int_of(n: u64) -> Cell
    ensures { result ≡ int n }
{
    Cell::new(Tag::Int, 0, n)
}

// `OperatorError` of one operand, with the opcode and its operand.
#[tactic(auto, unfolding(memory::specs::Layout::error_shown, plan::specs::Kinds::kind_of))]
pub fn un_operator(op: u16, x: u32, of: u32) -> Error
    ensures { result ≡ error_of (un_operator op x of) }
{
    Error {
        kind: ErrorKind::UnOperator,
        value: Cell {
            tag: u32::from(op),
            number: x,
            payload: u64::from(of),
        },
        second: 0,
    }
}

// The same of two operands.
#[tactic(auto, unfolding(memory::specs::Layout::error_shown, plan::specs::Kinds::kind_of))]
pub fn bin_operator(op: u16, x: u32, first: u32, second: u32) -> Error
    ensures { result ≡ error_of (bin_operator op x first second) }
{
    Error {
        kind: ErrorKind::BinOperator,
        value: Cell {
            tag: u32::from(op),
            number: x,
            payload: u64::from(first),
        },
        second,
    }
}

// The names of metamethods by number: that of calls, that of `Neg`, and the first of those that take two values, which follow
// the opcodes.
#[derive(Clone, Copy)]
pub enum Metamethod {
    Call = 0,
    Neg = 6,
    Add = 7,
}

// A metamethod that a value does not have, by its name's number.
#[tactic(auto, unfolding(memory::specs::Layout::error_shown, plan::specs::Kinds::kind_of))]
pub fn meta_un_operator(name: u32, of: u32) -> Error
    ensures { result ≡ error_of (meta_un_operator name of) }
{
    Error {
        kind: ErrorKind::MetaUnOperator,
        value: Cell {
            tag: name,
            number: 0,
            payload: u64::from(of),
        },
        second: 0,
    }
}

fn builtin(effect: EffectKind) -> Cell
    ensures { result ≡ builtin (effect_number effect) }
{
    Cell::new(Tag::BuiltinEffect, effect as u32, 0)
}

// The builtin that a throw performs: `panic` for a panic, else `error`.
#[tactic(auto, using(crate::specs::Errors::throws_panic, crate::specs::Errors::throws_error))]
pub fn thrown(x: Error) -> Cell
    ensures { Throws x result }
{
    match x.kind {
        ErrorKind::Panic => builtin(EffectKind::Panic),
        _ => builtin(EffectKind::Error),
    }
}

// What an error shows to a handler: its message, or the value of an error or panic.
#[tactic(auto, using(crate::specs::Errors::shows_value, crate::specs::Errors::shows_message, std::proofs::Common::inl, std::proofs::Common::inr))]
pub fn shown(x: Error) -> Cell
    ensures { Shows x result }
{
    match x.kind {
        ErrorKind::Error | ErrorKind::Panic => x.value,
        kind => Cell::new(Tag::Message, kind.number() - 2, 0),
    }
}

// The value of constant i of a code, which is no Function.
#[tactic(auto, using(crate::specs::Constants::eight_int, crate::specs::Constants::eight_float), unfolding(machine::specs::Opcodes::constant_value, image::specs::Kinds::constant_kind_of))]
pub fn constant_value(image: &[u8], code: u32, i: u32, c: Constant) -> Cell
    requires { Sized image.now c }
    ensures { (cs : List Code) → result ≡ constant_value (record { image = image.entry.now; codes = cs }) code i c }
{
    let body = contents::content(image, c);
    match ConstantKind::try_from(c.kind) {
        Ok(ConstantKind::Bool) => Cell::new(Tag::Bool, u32::from(program::byte(body, 0)), 0),
        Ok(ConstantKind::Int) => int_of(cells::read64(body, 0)),
        Ok(ConstantKind::Float) => Cell::new(Tag::Float, 0, cells::read64(body, 0)),
        Ok(ConstantKind::Str) => Cell::new(Tag::Str, code, u64::from(i)),
        Ok(ConstantKind::Bytes) => Cell::new(Tag::Bytes, code, u64::from(i)),
        Ok(ConstantKind::Effect) => effect_value(program::le16(body, 0), code, i),
        _ => Cell::NULL,
    }
}

// A builtin by its number, or an effect that the image declares.
fn effect_value(number: u16, code: u32, i: u32) -> Cell
    ensures { result ≡ if? (leb number 2) (builtin number) (cell 24 code i) }
{
    if number <= EffectKind::Panic as u16 {
        return Cell::new(Tag::BuiltinEffect, u32::from(number), 0);
    }
    Cell::new(Tag::Effect, code, u64::from(i))
}
