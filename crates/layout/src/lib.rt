// The layout of an image: one pass over its records, which refuses it or says in three lent tables where its parts lie.
#![tactic(auto)]

ghost use Rattle.std.specs.Prelude.{◌≡◌, [], ◌∷◌, ◌+◌, ◌*◌, ◌≤◌, ◌<◌, length};
ghost use Rattle.cells.specs.Le.{le_at};
ghost use Rattle.image.specs.Records.{size, kind, after, whole, listed};
ghost use Rattle.image.specs.Image.{sized, constant, refusal};
ghost use Rattle.image.specs.Kinds.{record_number};
ghost use Rattle.image.specs.Layout.{flat, front};
ghost use Rattle.layout.specs.RecordsLaws.{Behind};
ghost use Rattle.layout.specs.ImageLaws.{effect_sized};
ghost use Rattle.layout.specs.Reads.{Finishable, Finished, Open, Reads, Laid};
ghost use Rattle.layout.specs.Tables.{Front, Lies, Pushed, Listed, Room, Ready, Begins};
ghost use Rattle.refusals.specs.Refusals.{number_of};

use image::{ConstantKind, EffectKind, RecordKind, Row};
use refusals::Refusal;

// Where the records of a code lie in its body, and where the codes in it begin. The opcodes always lie at 8.
#[derive(Clone, Copy)]
struct Parts {
    globals: usize,
    captures: usize,
    constants: usize,
    codes: usize,
}

// How many codes, constants and numbers of inner codes the tables hold.
#[derive(Clone, Copy)]
pub struct Sizes {
    pub codes: usize,
    pub constants: usize,
    pub inner: usize,
}

// The length of a record's body.
fn size(part: &[u8], at: usize) -> usize
    requires { at + 6 ≤ length part.now }
    ensures { result ≡ size part.now at }
{
    cells::read32(part, at) as usize
}

// A record's kind.
fn kind(part: &[u8], at: usize) -> u16
    requires { at + 6 ≤ length part.now }
    ensures { result ≡ kind part.now at }
{
    cells::read16(part, at + 4)
}

// Where what follows a record begins.
fn after(part: &[u8], at: usize) -> usize
    requires { after part.now at ≤ length part.now }
    ensures { Behind part.now at result }
{
    at + 6 + size(part, at)
}

// Is a whole record of this kind there?
#[tactic(auto, unfolding(image::specs::Records::whole, image::specs::Records::both))]
fn is_whole(part: &[u8], at: usize, expected: RecordKind) -> bool
    requires { at ≤ length part.now }
    ensures { result ≡ whole part.now at (record_number expected) }
{
    part.len() - at >= 6
        && kind(part, at) == expected as u16
        && size(part, at) <= part.len() - (at + 6)
}

// Is a whole record of this kind there, a list of items of n bytes?
#[tactic(auto, using(crate::specs::RecordsLaws::whole_head), unfolding(image::specs::Records::listed, image::specs::Records::both))]
fn is_listed(part: &[u8], at: usize, expected: RecordKind, n: usize) -> bool
    requires { (at ≤ length part.now) × (0 < n) }
    ensures { result ≡ listed part.now at (record_number expected) n }
{
    is_whole(part, at, expected) && size(part, at) % n == 0
}

// May the body of an effect have this size?
#[tactic(auto, unfolding(image::specs::Kinds::effect_kind_of, crate::specs::ImageLaws::effect_sized, image::specs::Records::both))]
fn is_effect_sized(part: &[u8], at: usize, n: usize) -> bool
    requires { at + n ≤ length part.now }
    ensures { result ≡ effect_sized (le_at 2 part.now at) n }
{
    n >= 2
        && match EffectKind::try_from(cells::read16(part, at)) {
            Ok(EffectKind::Yield | EffectKind::Error | EffectKind::Panic) => n == 2,
            Ok(EffectKind::Declared) => n >= 6,
            Err(_) => true,
        }
}

// May the body of the constant at a place have this size?
#[tactic(auto, unfolding(image::specs::Kinds::constant_kind_of, image::specs::Image::sized, crate::specs::ImageLaws::effect_sized))]
fn is_sized(part: &[u8], at: usize, n: usize) -> bool
    requires { at + 6 + n ≤ length part.now }
    ensures { result ≡ sized (kind part.now at) (le_at 2 part.now (at + 6)) n }
{
    match ConstantKind::try_from(kind(part, at)) {
        Ok(ConstantKind::Null) => n == 0,
        Ok(ConstantKind::Bool) => n == 1,
        Ok(ConstantKind::Int | ConstantKind::Float) => n == 8,
        Ok(ConstantKind::Str | ConstantKind::Bytes) => true,
        Ok(ConstantKind::Function) => n == 2,
        Ok(ConstantKind::Effect) => is_effect_sized(part, at + 6, n),
        Err(_) => false,
    }
}

// Is a constant there?
#[tactic(auto, unfolding(image::specs::Image::constant, image::specs::Records::both))]
fn is_constant(part: &[u8], at: usize) -> bool
    requires { at ≤ length part.now }
    ensures { result ≡ constant part.now at }
{
    part.len() - at >= 6
        && size(part, at) <= part.len() - (at + 6)
        && is_sized(part, at, size(part, at))
}

// May the record at a place be read as code number n? Depth and count come before its length.
#[tactic(auto, unfolding(image::specs::Image::refusal))]
fn enterable(part: &[u8], at: usize, depth: u32, n: usize) -> Result<(), Refusal>
    requires { at ≤ length part.now }
    ensures { number_of result ≡ refusal depth n part.now at }
{
    if part.len() - at < 6 || kind(part, at) != RecordKind::Code as u16 {
        return Err(Refusal::ImageStructure);
    }
    if depth == 0 || n >= 256 {
        return Err(Refusal::ImageCodes);
    }
    if size(part, at) > part.len() - (at + 6) {
        return Err(Refusal::ImageStructure);
    }
    Ok(())
}

// One number more in a table.
fn push(table: &mut [u32], n: usize, v: u32)
    requires { n < length table.old }
    ensures { Pushed n (v ∷ []) table.old table.new }
{
    table[n] = v;
}

// The places of a code's constants, and how many constants there are then; none where a record is not as it must be.
// `part` is the body of their record. The records differ in length, so each place comes from the one before. In the
// middle of `read_code` the loop would keep that place in memory, and take a quarter longer.
#[tactic(auto, using(crate::specs::Tables::listing_first, crate::specs::Tables::listing_next, crate::specs::ImageLaws::constant_of))]
#[inline(never)]
fn read_constants(part: &[u8], base: usize, constants: &mut [u32], used: usize) -> Option<usize>
    requires { Room base part.now used constants.old }
    ensures { Listed base part.now used constants.old result constants.new }
{
    let mut at: usize = 0;
    let mut to = used;
    while at < part.len() {
        if !is_constant(part, at) {
            return None;
        }
        let next = after(part, at);
        push(constants, to, (base + at) as u32);
        to += 1;
        at = next;
    }
    Some(to)
}

// Are a code's own records there, but for what its constants are?
#[tactic(auto, using(crate::specs::RecordsLaws::listed_of, crate::specs::Tables::front_none, crate::specs::Tables::front_opcodes))]
fn is_front(part: &[u8]) -> bool
    ensures { result ≡ front part.now }
{
    if part.len() < 8 || !is_listed(part, 8, RecordKind::Opcodes, 6) {
        return false;
    }
    let globals = after(part, 8);
    if !is_listed(part, globals, RecordKind::Globals, 2) {
        return false;
    }
    let captures = after(part, globals);
    is_listed(part, captures, RecordKind::Captures, 4)
        && is_whole(part, after(part, captures), RecordKind::Constants)
}

// Where the records of a code lie.
fn parts_of(part: &[u8]) -> Parts
    requires { Front part.now }
    ensures { Lies part.now result }
{
    let globals = after(part, 8);
    let captures = after(part, globals);
    let constants = after(part, captures);
    let codes = after(part, constants);
    Parts {
        globals,
        captures,
        constants,
        codes,
    }
}

// A code whose own records are there is begun.
fn begin_front(
    part: &[u8],
    base: usize,
    rows: &mut [Row],
    constants: &mut [u32],
    codes: usize,
    used: usize,
) -> Option<usize>
    requires { Ready base part.now codes used (flat rows.old) constants.old × Front part.now }
    ensures { Begins base part.now codes used (flat rows.old) constants.old result (flat rows.new) constants.new }
{
    let p = parts_of(part);
    let globals = p.globals + 6;
    let captures = p.captures + 6;
    let start = p.constants + 6;
    let end = p.codes;
    let to = read_constants(&part[start..end], base + start, constants, used)?;
    // The codes in it are not yet known.
    rows[codes] = Row {
        place: base as u32,
        opcodes: ((globals - 20) / 6) as u32,
        globals_at: (base + globals) as u32,
        globals: ((captures - 6 - globals) / 2) as u32,
        captures_at: (base + captures) as u32,
        captures: ((start - 6 - captures) / 4) as u32,
        constants_from: used as u32,
        constants: (to - used) as u32,
        ..Row::NONE
    };
    Some(to)
}

// A code is begun: its row, and its constants' places.
#[tactic(auto, using(crate::specs::Tables::front_of))]
fn begin(
    part: &[u8],
    base: usize,
    rows: &mut [Row],
    constants: &mut [u32],
    codes: usize,
    used: usize,
) -> Option<usize>
    requires { Ready base part.now codes used (flat rows.old) constants.old }
    ensures { Begins base part.now codes used (flat rows.old) constants.old result (flat rows.new) constants.new }
{
    if !is_front(part) {
        return None;
    }
    begin_front(part, base, rows, constants, codes, used)
}

// Code k is done: the numbers of the codes in it go to the table, and their place and count to its row.
#[tactic(auto, using(image::proofs::RowLaws::row_within))]
fn finish(rows: &mut [Row], inner: &mut [u32], k: usize, kept: usize, numbers: &[u8])
    requires { Finishable (flat rows.old) inner.old k kept numbers.now }
    ensures { Finished k kept numbers.now (flat rows.old) inner.old (flat rows.new) inner.new }
{
    for (i, &number) in numbers.iter().enumerate() {
        push(inner, kept + i, u32::from(number));
    }
    let row = rows[k];
    rows[k] = Row {
        codes_from: kept as u32,
        codes: numbers.len() as u32,
        ..row
    };
}

// The next code in the body of its record, with all codes in it, and what the tables hold then.
// A byte is enough for a code's number.
fn read_code(
    part: &[u8],
    base: usize,
    depth: u32,
    rows: &mut [Row],
    constants: &mut [u32],
    inner: &mut [u32],
    held: Sizes,
) -> Result<Sizes, Refusal>
    requires { Open base part.now held (flat rows.old) constants.old inner.old }
    ensures { Reads depth base part.now held (flat rows.old) constants.old inner.old result (flat rows.new) constants.new inner.new }
{
    let Some(to) = begin(part, base, rows, constants, held.codes, held.constants) else {
        return Err(Refusal::ImageStructure);
    };
    let mut now = Sizes {
        codes: held.codes + 1,
        constants: to,
        inner: held.inner,
    };
    let mut numbers = [0u8; 256];
    let mut count: usize = 0;
    let mut at = parts_of(part).codes;
    // The records differ in length, so each place comes from the one before.
    while at < part.len() {
        enterable(part, at, depth, now.codes)?;
        let start = at + 6;
        let end = after(part, at);
        let code = &part[start..end];
        numbers[count] = now.codes as u8;
        count += 1;
        now = read_code(code, base + start, depth - 1, rows, constants, inner, now)?;
        at = end;
    }
    finish(rows, inner, held.codes, now.inner, &numbers[..count]);
    Ok(Sizes {
        inner: now.inner + count,
        ..now
    })
}

// The whole image is read into the tables: 1 for its size, then 2 and 4 from the front, and left-over bytes where they stand.
pub fn read_layout(
    image: &[u8],
    rows: &mut [Row],
    constants: &mut [u32],
    inner: &mut [u32],
) -> Result<Sizes, Refusal>
    requires { (256 ≤ length rows.old) × (10923 ≤ length constants.old) × (256 ≤ length inner.old) }
    ensures { Laid image.now result (flat rows.new) constants.new inner.new }
{
    if image.len() < 6 || image.len() > 65536 {
        return Err(Refusal::ImageSize);
    }
    if !is_whole(image, 0, RecordKind::Code) {
        return Err(Refusal::ImageStructure);
    }
    let end = after(image, 0);
    let none = Sizes {
        codes: 0,
        constants: 0,
        inner: 0,
    };
    let held = read_code(&image[6..end], 6, 7, rows, constants, inner, none)?;
    if end == image.len() {
        return Ok(held);
    }
    Err(Refusal::ImageStructure)
}
