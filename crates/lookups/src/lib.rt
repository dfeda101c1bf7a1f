// A program as it is lent: the image, and the tables that the reader filled. What a code has is looked up by its row: counts, opcodes, globals, captures, constants, codes.
#![tactic(auto)]

ghost use Rattle.std.specs.Prelude.{◌≡◌, [], ℕ, ◌<◌, get_or};
ghost use Rattle.image.specs.Program.{no_op};
ghost use Rattle.image.specs.Layout.{flat, field, code_at};
ghost use Rattle.program.specs.Looks.{body_at, no_capture, no_constant};

use image::{Capture, Constant, Op, Row};

// A row for each code; the places of all constants; the numbers of the codes in each code; how many codes there are.
#[derive(Clone, Copy)]
pub struct Program<'a> {
    pub image: &'a [u8],
    pub rows: &'a [Row],
    pub constants: &'a [u32],
    pub inner: &'a [u32],
    pub codes: usize,
}

impl Program<'_> {
    // The parameter count of code k.
    #[tactic(auto, using(program::specs::Looks::look_params))]
    pub fn params(&self, k: usize) -> u16
        requires { k < 4294967296 }
        ensures { result ≡ (body_at self.now.image.now (flat self.now.rows.now) k).params }
    {
        program::le16(self.image, program::row(self.rows, k).place as usize)
    }

    // Its variadic mark.
    #[tactic(auto, using(program::specs::Looks::look_head))]
    pub fn variadic(&self, k: usize) -> u16
        requires { k < 4294967296 }
        ensures { result ≡ (body_at self.now.image.now (flat self.now.rows.now) k).variadic }
    {
        program::le16(self.image, program::row(self.rows, k).place as usize + 2)
    }

    // How many locals it has.
    #[tactic(auto, using(program::specs::Looks::look_head))]
    pub fn locals(&self, k: usize) -> u16
        requires { k < 4294967296 }
        ensures { result ≡ (body_at self.now.image.now (flat self.now.rows.now) k).locals }
    {
        program::le16(self.image, program::row(self.rows, k).place as usize + 4)
    }

    // How many opcodes it has.
    pub fn opcode_count(&self, k: usize) -> usize
        requires { k < 4294967296 }
        ensures { (result ≡ field (flat self.now.rows.now) k 1) × (result < 4294967296) }
    {
        program::row(self.rows, k).opcodes as usize
    }

    // Opcode i of code k.
    #[tactic(auto, using(program::specs::Looks::look_opcode))]
    pub fn opcode(&self, k: usize, i: usize) -> Op
        requires { (k < 4294967296) × (i < field (flat self.now.rows.now) k 1) }
        ensures { result ≡ get_or (body_at self.now.image.now (flat self.now.rows.now) k).opcodes i no_op }
    {
        program::opcode_at(
            self.image,
            program::row(self.rows, k).place as usize + 14,
            i,
        )
    }

    // How many globals it has.
    pub fn global_count(&self, k: usize) -> usize
        requires { k < 4294967296 }
        ensures { (result ≡ field (flat self.now.rows.now) k 3) × (result < 4294967296) }
    {
        program::row(self.rows, k).globals as usize
    }

    // The name number of its global i.
    #[tactic(auto, using(program::specs::Looks::look_global))]
    pub fn global(&self, k: usize, i: usize) -> u16
        requires { (k < 4294967296) × (i < field (flat self.now.rows.now) k 3) }
        ensures { result ≡ get_or (body_at self.now.image.now (flat self.now.rows.now) k).globals i 0 }
    {
        program::le16(
            self.image,
            program::row(self.rows, k).globals_at as usize + 2 * i,
        )
    }

    // How many captures it has.
    pub fn capture_count(&self, k: usize) -> usize
        requires { k < 4294967296 }
        ensures { (result ≡ field (flat self.now.rows.now) k 5) × (result < 4294967296) }
    {
        program::row(self.rows, k).captures as usize
    }

    // Its capture i.
    #[tactic(auto, using(program::specs::Looks::look_capture))]
    pub fn capture(&self, k: usize, i: usize) -> Capture
        requires { (k < 4294967296) × (i < field (flat self.now.rows.now) k 5) }
        ensures { result ≡ get_or (body_at self.now.image.now (flat self.now.rows.now) k).captures i no_capture }
    {
        program::capture_at(
            self.image,
            program::row(self.rows, k).captures_at as usize,
            i,
        )
    }

    // How many constants it has.
    pub fn constant_count(&self, k: usize) -> usize
        requires { k < 4294967296 }
        ensures { (result ≡ field (flat self.now.rows.now) k 7) × (result < 4294967296) }
    {
        program::row(self.rows, k).constants as usize
    }

    // Its constant i.
    #[tactic(auto, using(program::specs::Looks::look_constant))]
    pub fn constant(&self, k: usize, i: usize) -> Constant
        requires { (k < 4294967296) × (i < field (flat self.now.rows.now) k 7) }
        ensures { result ≡ get_or (code_at self.now.image.now (flat self.now.rows.now) self.now.constants.now [] k).constants i no_constant }
    {
        let from = program::row(self.rows, k).constants_from as usize;
        program::constant_at(self.image, program::entry(self.constants, from + i))
    }

    // How many codes are in it.
    pub fn code_count(&self, k: usize) -> usize
        requires { k < 4294967296 }
        ensures { (result ≡ field (flat self.now.rows.now) k 9) × (result < 4294967296) }
    {
        program::row(self.rows, k).codes as usize
    }

    // The number of the code that is its code j.
    #[tactic(auto, using(program::specs::Looks::look_code))]
    pub fn inner_code(&self, k: usize, j: usize) -> usize
        requires { (k < 4294967296) × (j < field (flat self.now.rows.now) k 9) }
        ensures { result ≡ get_or (code_at [] (flat self.now.rows.now) [] self.now.inner.now k).codes j 0 }
    {
        let from = program::row(self.rows, k).codes_from as usize;
        program::entry(self.inner, from + j)
    }
}

// The program that the fronts of the reader's tables hold.
pub fn made<'a>(
    image: &'a [u8],
    rows: &'a [Row],
    constants: &'a [u32],
    inner: &'a [u32],
    codes: usize,
) -> Program<'a>
    ensures { (result.image.now ≡ image.now) × (result.rows.now ≡ rows.now) × (result.constants.now ≡ constants.now) × (result.inner.now ≡ inner.now) × (result.codes ≡ codes) }
{
    Program {
        image,
        rows,
        constants,
        inner,
        codes,
    }
}
