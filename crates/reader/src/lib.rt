// The numbers of an image: the rules that they keep, and the whole reader.
#![tactic(auto)]

ghost use Rattle.std.specs.Prelude.{◌≡◌, ◌*◌, ◌≤◌, ◌<◌, length, take};
ghost use Rattle.image.specs.Program.{all, opcode_fine, last_fine, effect_fine, constant_fine, capture_fine, counts_fine, code_fine, program_fine, tab};
ghost use Rattle.image.specs.Layout.{flat, code_at};
ghost use Rattle.reader.specs.Rules.{counted, IsCounts, code_in, codes_of, globals_fine, captures_fine, inner_fine, own_fine};
ghost use Rattle.image.specs.Image.{parse};
ghost use Rattle.reader.specs.Reads.{Fits, Reads, refusal_of};

use image::{
    Capture, CaptureFrom, Constant, ConstantKind, EffectKind, Op, Opcode, OperandKind, Row,
};
use layout::Sizes;
use refusals::Refusal;

// The highest number of a value's type.
const LAST_TYPE: usize = 9;

// How many there are of each in a code.
#[derive(Clone, Copy)]
pub struct Counts {
    pub params: usize,
    pub variadic: usize,
    pub locals: usize,
    pub opcodes: usize,
    pub globals: usize,
    pub captures: usize,
    pub constants: usize,
    pub codes: usize,
}

// Does an opcode keep its operand's rule in a code of these counts?
fn opcode_fine(n: Counts, o: Op) -> bool
    ensures { result ≡ opcode_fine (counted n) o }
{
    let operand = o.operand as usize;
    match image::operand_kind(o.number) {
        OperandKind::Unused => operand == 0,
        OperandKind::Count => true,
        OperandKind::ValueType => operand <= LAST_TYPE,
        OperandKind::Local => operand < n.locals,
        OperandKind::Global => operand < n.globals,
        OperandKind::Upvalue => operand < n.captures,
        OperandKind::Const => operand < n.constants,
        OperandKind::Target => operand < n.opcodes,
        OperandKind::LeftOut => false,
    }
}

// Do all opcodes of code k keep their rule in it?
fn opcodes_fine(program: &lookups::Program, k: usize, n: Counts) -> bool
    requires { (k < 4294967296) × IsCounts program.now.image.now (flat program.now.rows.now) k n }
    ensures { result ≡ all (opcode_fine (code_in program.now k)) (code_in program.now k).opcodes }
{
    (0..program.opcode_count(k)).all(|i| opcode_fine(n, program.opcode(k, i)))
}

// May a code end with this opcode?
#[tactic(auto, using(crate::specs::RulesLaws::last_unnamed, crate::specs::RulesLaws::last_other, crate::specs::RulesLaws::last_named))]
fn last_fine(o: Op) -> bool
    ensures { result ≡ last_fine o }
{
    let Ok(opcode) = Opcode::try_from(o.number) else {
        return false;
    };
    match opcode {
        Opcode::Return | Opcode::Jump | Opcode::JumpBackEdge | Opcode::Break | Opcode::Continue =>
            true,
        _ => false,
    }
}

// Are all globals of code k below 256?
fn globals_fine(program: &lookups::Program, k: usize) -> bool
    requires { k < 4294967296 }
    ensures { result ≡ globals_fine (code_in program.now k).globals }
{
    (0..program.global_count(k)).all(|i| program.global(k, i) <= 255)
}

// Does a capture lie in an enclosing code of these counts?
#[tactic(auto, using(image::proofs::Parts::length_tab), unfolding(image::specs::Kinds::capture_from_of, image::specs::Program::capture_fine, image::specs::Records::both))]
fn capture_fine(outer: Counts, c: Capture) -> bool
    ensures { result ≡ capture_fine (counted outer) c }
{
    match CaptureFrom::try_from(c.from) {
        Ok(CaptureFrom::Local) => usize::from(c.index) < outer.locals,
        Ok(CaptureFrom::Upvalue) => usize::from(c.index) < outer.captures,
        Err(_) => false,
    }
}

// Do all captures of code k lie in it?
fn captures_fine(program: &lookups::Program, outer: Counts, k: usize) -> bool
    requires { k < 4294967296 }
    ensures { result ≡ captures_fine (counted outer) (code_in program.now k) }
{
    (0..program.capture_count(k)).all(|i| capture_fine(outer, program.capture(k, i)))
}

// Are the numbers and the name of an effect's body fine?
#[tactic(auto, unfolding(image::specs::Kinds::effect_kind_of, image::specs::Program::effect_fine, image::specs::Records::both))]
fn effect_fine(body: &[u8]) -> bool
    ensures { result ≡ effect_fine body.now }
{
    match EffectKind::try_from(program::le16(body, 0)) {
        Ok(EffectKind::Yield | EffectKind::Error | EffectKind::Panic) => true,
        Ok(EffectKind::Declared) => {
            program::le16(body, 2) <= 32
                && program::le16(body, 4) <= 1
                && utf8::is_utf8(program::rest(body, 6))
        }
        Err(_) => false,
    }
}

// Does a constant keep its rule in a code that has so many codes in it?
#[tactic(auto, unfolding(image::specs::Kinds::constant_kind_of, image::specs::Program::constant_fine))]
fn constant_fine(image: &[u8], codes: usize, c: Constant) -> bool
    ensures { result ≡ constant_fine image.now codes c }
{
    let body = program::part(image, c.place, c.size);
    match ConstantKind::try_from(c.kind) {
        Ok(ConstantKind::Bool) => program::byte(body, 0) <= 1,
        Ok(ConstantKind::Str) => utf8::is_utf8(body),
        Ok(ConstantKind::Function) => usize::from(program::le16(body, 0)) < codes,
        Ok(ConstantKind::Effect) => effect_fine(body),
        _ => true,
    }
}

// Do all constants of code k keep it? A function of its own when it runs, too: the loop is quicker so.
#[inline(never)]
fn constants_fine(program: &lookups::Program, k: usize) -> bool
    requires { k < 4294967296 }
    ensures { result ≡ all (constant_fine program.now.image.now (length (code_in program.now k).codes)) (code_in program.now k).constants }
{
    let codes = program.code_count(k);
    (0..program.constant_count(k)).all(|i| constant_fine(
        program.image,
        codes,
        program.constant(k, i),
    ))
}

// The counts of code k.
#[tactic(auto, using(crate::specs::CountsLaws::counts_is))]
pub fn counts_at(program: &lookups::Program, k: usize) -> Counts
    requires { k < 4294967296 }
    ensures { IsCounts program.now.image.now (flat program.now.rows.now) k result }
{
    Counts {
        params: usize::from(program.params(k)),
        variadic: usize::from(program.variadic(k)),
        locals: usize::from(program.locals(k)),
        opcodes: program.opcode_count(k),
        globals: program.global_count(k),
        captures: program.capture_count(k),
        constants: program.constant_count(k),
        codes: program.code_count(k),
    }
}

// Are the counts of a code within their limits?
fn counts_fine(n: Counts) -> bool
    ensures { result ≡ counts_fine (counted n) }
{
    n.params <= 32
        && n.variadic <= 1
        && n.locals <= 256
        && n.opcodes >= 1
        && n.opcodes <= 4096
        && n.globals <= 256
        && n.captures <= 256
        && n.constants <= 1024
}

// Do the captures of code k, which is in a code of these counts, lie in it? Past the last code there are none.
#[tactic(auto, using(crate::specs::CodeLaws::inner_past, crate::specs::CodeLaws::inner_there))]
fn inner_fine(program: &lookups::Program, outer: Counts, k: usize) -> bool
    requires { program.now.codes < 4294967296 }
    ensures { result ≡ inner_fine (codes_of program.now) (counted outer) k }
{
    k >= program.codes || captures_fine(program, outer, k)
}

// Do the captures of all codes in code k lie in it?
fn all_inner_fine(program: &lookups::Program, k: usize, n: Counts) -> bool
    requires { (k < 4294967296) × (program.now.codes < 4294967296) × IsCounts program.now.image.now (flat program.now.rows.now) k n }
    ensures { result ≡ all (inner_fine (codes_of program.now) (code_in program.now k)) (code_in program.now k).codes }
{
    (0..program.code_count(k)).all(|j| inner_fine(program, n, program.inner_code(k, j)))
}

// Do the counts, opcodes and globals of code k keep their rules?
#[tactic(auto, using(crate::specs::CodeLaws::some_opcodes, crate::specs::CodeLaws::counts_counted, crate::specs::CodeLaws::last_of), unfolding(image::specs::Records::both))]
fn own_fine(program: &lookups::Program, k: usize, n: Counts) -> bool
    requires { (k < 4294967296) × IsCounts program.now.image.now (flat program.now.rows.now) k n }
    ensures { result ≡ own_fine (code_in program.now k) }
{
    if !counts_fine(n) {
        return false;
    }
    opcodes_fine(program, k, n)
        && last_fine(program.opcode(k, n.opcodes - 1))
        && globals_fine(program, k)
}

// Do the numbers of code k keep their rules, and the captures of the codes in it?
#[tactic(auto, using(crate::specs::CodeLaws::code_is), unfolding(image::specs::Records::both))]
fn code_fine(program: &lookups::Program, k: usize) -> bool
    requires { (k < 4294967296) × (program.now.codes < 4294967296) }
    ensures { result ≡ code_fine program.now.image.now (codes_of program.now) (code_in program.now k) }
{
    let n = counts_at(program, k);
    own_fine(program, k, n) && constants_fine(program, k) && all_inner_fine(program, k, n)
}

// Do the numbers of all codes keep their rules?
fn all_fine(program: &lookups::Program) -> bool
    requires { program.now.codes < 4294967296 }
    ensures { result ≡ program_fine program.now.image.now (codes_of program.now) }
{
    (0..program.codes).all(|k| code_fine(program, k))
}

// The program of tables of which only the front is filled: so many codes, constants and numbers of inner codes.
pub fn filled<'a>(
    image: &'a [u8],
    rows: &'a [Row],
    constants: &'a [u32],
    inner: &'a [u32],
    sizes: Sizes,
) -> lookups::Program<'a>
    requires { Fits sizes.codes sizes.constants sizes.inner (flat rows.now) constants.now inner.now }
    ensures { (result.image.now ≡ image.now) × (result.codes ≡ sizes.codes) × (codes_of result ≡ tab sizes.codes (code_at image.now (take (10 * sizes.codes) (flat rows.now)) (take sizes.constants constants.now) (take sizes.inner inner.now))) }
{
    lookups::made(
        image,
        &rows[..sizes.codes],
        &constants[..sizes.constants],
        &inner[..sizes.inner],
        sizes.codes,
    )
}

// An image is read into the tables: its structure, then its numbers.
pub fn read_image(
    image: &[u8],
    rows: &mut [Row],
    constants: &mut [u32],
    inner: &mut [u32],
) -> Result<Sizes, Refusal>
    requires { (256 ≤ length rows.old) × (10923 ≤ length constants.old) × (256 ≤ length inner.old) }
    ensures { Reads image.now result (flat rows.new) constants.new inner.new }
{
    let held = layout::read_layout(image, rows, constants, inner)?;
    if all_fine(&filled(image, rows, constants, inner, held)) {
        return Ok(held);
    }
    Err(Refusal::ImageNumber)
}

// The refusal of an image, 0 for none.
pub fn refusal(image: &[u8]) -> u32
    ensures { result ≡ refusal_of (parse image.now) }
{
    let mut rows = [Row::NONE; 256];
    let mut constants = [0u32; 10923];
    let mut inner = [0u32; 256];
    let read = read_image(image, &mut rows, &mut constants, &mut inner);
    refusals::number_of(read.map(|_| ()))
}

// The same by another name, which `reader_c` exports to C.
pub fn lucia_refusal(image: &[u8]) -> u32
    ensures { result ≡ refusal_of (parse image.now) }
{
    refusal(image)
}
