// Look-ups in an image and in the tables that the reader fills.
#![tactic(auto)]

ghost use Rattle.std.specs.Prelude.{◌≡◌, ◌<◌, drop, get_or};
ghost use Rattle.cells.specs.Le.{le_at};
ghost use Rattle.image.specs.Program.{part};
ghost use Rattle.image.specs.Layout.{flat, opcode_at, capture_at, constant_at};
ghost use Rattle.program.specs.Parts.{Entry};
ghost use Rattle.program.specs.Looks.{RowOf};

use image::{Capture, Constant, Op, Row};

// The number of two bytes; a byte past the end counts 0.
#[tactic(auto, using(crate::specs::Parts::le_past, crate::specs::Parts::le_last))]
pub fn le16(s: &[u8], at: usize) -> u16
    ensures { result ≡ le_at 2 s.now at }
{
    if at >= s.len() {
        return 0;
    }
    if s.len() - at >= 2 {
        return cells::read16(s, at);
    }
    u16::from(s[at])
}

// The number of four bytes; a byte past the end counts 0.
#[tactic(auto, using(crate::specs::Parts::le_past, crate::specs::Parts::le_halves))]
fn le32(s: &[u8], at: usize) -> u32
    ensures { result ≡ le_at 4 s.now at }
{
    if at >= s.len() {
        return 0;
    }
    if s.len() - at >= 4 {
        return cells::read32(s, at);
    }
    u32::from(le16(s, at)) + u32::from(le16(s, at + 2)) * 65536
}

// A number of a table, 0 past the end.
pub fn entry(t: &[u32], i: usize) -> usize
    ensures { Entry t.now i result }
{
    t.get(i).copied().unwrap_or(0) as usize
}

// A byte, 0 past the end.
pub fn byte(s: &[u8], i: usize) -> u8
    ensures { result ≡ get_or s.now i 0 }
{
    s.get(i).copied().unwrap_or(0)
}

// The bytes from a place on.
pub fn rest(s: &[u8], at: usize) -> &[u8]
    ensures { result.now ≡ drop at s.now }
{
    &s[at.min(s.len())..]
}

// The n bytes at a place, as many of them as are there.
#[tactic(auto, using(crate::specs::Parts::part_past, crate::specs::Parts::part_end, crate::specs::Parts::part_inside))]
pub fn part(s: &[u8], at: usize, n: usize) -> &[u8]
    ensures { result.now ≡ part s.now at n }
{
    if at >= s.len() {
        return &s[..0];
    }
    if s.len() - at <= n {
        return &s[at..];
    }
    &s[at..at + n]
}

// Opcode i of those at a place.
pub fn opcode_at(s: &[u8], at: usize, i: usize) -> Op
    requires { (at < 8589934592) × (i < 4294967296) }
    ensures { result ≡ opcode_at s.now at i }
{
    let place = at + 6 * i;
    // One test where all six bytes are there: with the tests of each number the opcodes are read at half the speed.
    if place + 6 <= s.len() {
        return Op {
            number: cells::read16(s, place),
            operand: cells::read32(s, place + 2),
        };
    }
    Op {
        number: le16(s, place),
        operand: le32(s, place + 2),
    }
}

// Capture i of those at a place.
pub fn capture_at(s: &[u8], at: usize, i: usize) -> Capture
    requires { (at < 8589934592) × (i < 4294967296) }
    ensures { result ≡ capture_at s.now at i }
{
    let place = at + 4 * i;
    Capture {
        from: le16(s, place),
        index: le16(s, place + 2),
    }
}

// The constant at a place.
pub fn constant_at(image: &[u8], at: usize) -> Constant
    requires { at < 8589934592 }
    ensures { result ≡ constant_at image.now at }
{
    // One test where all six bytes are there, as for an opcode.
    if at + 6 <= image.len() {
        return Constant {
            kind: cells::read16(image, at + 4),
            place: at + 6,
            size: cells::read32(image, at) as usize,
        };
    }
    Constant {
        kind: le16(image, at + 4),
        place: at + 6,
        size: le32(image, at) as usize,
    }
}

// The row of code k, one of zeros past the end.
pub fn row(rows: &[Row], k: usize) -> Row
    ensures { RowOf (flat rows.now) k result }
{
    rows.get(k).copied().unwrap_or(Row::NONE)
}
