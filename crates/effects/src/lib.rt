// Effects: which are equal, and what parameters they take.
#![tactic(auto)]

ghost use Rattle.std.specs.Prelude.{◌≡◌};
ghost use Rattle.machine.specs.Values.{constant_of, equal_effects, effect_params, match_effect_handler};
ghost use Rattle.scan.specs.Tables.{program_of};
ghost use Rattle.plan.specs.Plans.{params_of};

use cells::{Cell, Tag};
use image::Constant;
use plan::Params;

// The constant that a Str, Bytes or Effect names; one that is not there has kind 0 and no bytes.
pub fn constant_of(program: &lookups::Program, v: Cell) -> Constant
    ensures { result ≡ constant_of (program_of program.now) v }
{
    let code = v.number as usize;
    if code < program.codes && v.payload < program.constant_count(code) as u64 {
        return program.constant(code, v.payload as usize);
    }
    Constant::NONE
}

// Are two effects equal?
#[tactic(auto, unfolding(machine::specs::Values::equal_effects, image::specs::Records::both))]
pub fn equal_effects(program: &lookups::Program, a: Cell, b: Cell) -> bool
    ensures { result ≡ equal_effects (program_of program.now) a b }
{
    if a.is(Tag::BuiltinEffect) {
        return b.is(Tag::BuiltinEffect) && a.number == b.number;
    }
    if !b.is(Tag::Effect) {
        return false;
    }
    let x = constant_of(program, a);
    let y = constant_of(program, b);
    contents::same_effect(
        contents::content(program.image, x),
        contents::content(program.image, y),
    )
}

// The parameters of an effect: a builtin has one.
#[tactic(auto, unfolding(machine::specs::Values::effect_params))]
pub fn effect_params(program: &lookups::Program, e: Cell) -> Params
    ensures { result ≡ params_of (effect_params (program_of program.now) e) }
{
    if e.is(Tag::BuiltinEffect) {
        return Params::ONE;
    }
    let c = constant_of(program, e);
    let body = contents::content(program.image, c);
    Params {
        count: program::le16(body, 2),
        variadic: program::le16(body, 4) == 1,
    }
}

// effect.rs: the expected effect has one parameter more, and the same variadic mark.
#[tactic(auto, using(crate::specs::Effects::marks_alike), unfolding(machine::specs::Values::match_effect_handler, image::specs::Records::both))]
pub fn match_effect_handler(p: Params, expected: Params) -> bool
    ensures { result ≡ match_effect_handler (record { count = p.count; variadic = p.variadic }) (record { count = expected.count; variadic = expected.variadic }) }
{
    usize::from(p.count) + 1 == usize::from(expected.count) && p.variadic == expected.variadic
}
