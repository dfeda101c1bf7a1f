// The bodies of constants: texts and bytes, effects and whether two are equal.
#![tactic(auto)]

ghost use Rattle.std.specs.Prelude.{◌≡◌};
ghost use Rattle.cells.specs.Le.{le_at};
ghost use Rattle.image.specs.Program.{part};
ghost use Rattle.image.specs.Effects.{name, same, same_effect};

use image::{Constant, EffectKind};

// The body of a constant, as a part of the image: the text of a Str, the bytes of a Bytes.
pub fn content(image: &[u8], c: Constant) -> &[u8]
    ensures { result.now ≡ part image.now c.place c.size }
{
    program::part(image, c.place, c.size)
}

// The number of an effect by its body: a builtin, or 3 for one that the image declares.
pub fn effect_number(body: &[u8]) -> u16
    ensures { result ≡ le_at 2 body.now 0 }
{
    program::le16(body, 0)
}

// The name of an effect that is no builtin, as a part of its body.
pub fn effect_name(body: &[u8]) -> &[u8]
    ensures { result.now ≡ name body.now }
{
    program::rest(body, 6)
}

// Are two texts the same, byte for byte?
#[tactic(auto, using(program::specs::Effects::same_is))]
pub fn same(a: &[u8], b: &[u8]) -> bool
    ensures { result ≡ same a.now b.now }
{
    a == b
}

// Are two effects, by their bodies, equal?
#[tactic(auto, unfolding(image::specs::Kinds::effect_kind_of, image::specs::Effects::same_effect, image::specs::Records::both))]
pub fn same_effect(a: &[u8], b: &[u8]) -> bool
    ensures { result ≡ same_effect a.now b.now }
{
    let number = effect_number(a);
    if number != effect_number(b) {
        return false;
    }
    match EffectKind::try_from(number) {
        Ok(EffectKind::Yield | EffectKind::Error | EffectKind::Panic) => true,
        Ok(EffectKind::Declared) | Err(_) => {
            program::le16(a, 2) == program::le16(b, 2)
                && program::le16(a, 4) == program::le16(b, 4)
                && same(effect_name(a), effect_name(b))
        }
    }
}
