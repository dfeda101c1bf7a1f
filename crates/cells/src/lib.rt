// Little-endian numbers in a slice of bytes, and the slice as cells of 16 bytes, one value each.
// The bytes behind the last whole cell are neither read nor written.
#![tactic(auto)]

ghost use Rattle.std.specs.Prelude.{◌≡◌, ◌+◌, ◌≤◌, ◌<◌, length, get_or, set, eqb};
ghost use Rattle.cells.specs.Le.{le_at, put_at};
ghost use Rattle.cells.specs.Tags.{tag_number, tagged};
ghost use Rattle.cells.specs.Cells.{null, room, cells, Sound, Writes, set_number, set_payload};

mod tags;

pub use tags::{Tag, UnknownTag, ValueType};

// A tag of 4 bytes, a number of 4 and a payload of 8, in this order.
#[derive(Clone, Copy)]
pub struct Cell {
    pub tag: u32,
    pub number: u32,
    pub payload: u64,
}

impl Cell {
    // Null, which is also a cell that nothing was written to.
    pub const NULL: Cell = Cell {
        tag: 0,
        number: 0,
        payload: 0,
    };

    pub fn new(tag: Tag, number: u32, payload: u64) -> Cell
        ensures { result ≡ tagged tag number payload }
    {
        Cell {
            tag: tag as u32,
            number,
            payload,
        }
    }

    // Has the cell this tag?
    pub fn is(self, tag: Tag) -> bool
        ensures { result ≡ eqb self.tag (tag_number tag) }
    {
        self.tag == tag as u32
    }
}

// The number of the 2 bytes at `at`, the lowest first.
#[tactic(auto, using(crate::proofs::Bytes::le_bytes), unfolding(crate::specs::Le::le_at))]
pub fn read16(s: &[u8], at: usize) -> u16
    requires { at + 2 ≤ length s.now }
    ensures { result ≡ le_at 2 s.now at }
{
    u16::from_le_bytes(s[at..at + 2].try_into().unwrap())
}

// The number of the 4 bytes at `at`.
#[tactic(auto, using(crate::proofs::Bytes::le_bytes), unfolding(crate::specs::Le::le_at))]
pub fn read32(s: &[u8], at: usize) -> u32
    requires { at + 4 ≤ length s.now }
    ensures { result ≡ le_at 4 s.now at }
{
    u32::from_le_bytes(s[at..at + 4].try_into().unwrap())
}

// The number of the 8 bytes at `at`.
#[tactic(auto, using(crate::proofs::Bytes::le_bytes), unfolding(crate::specs::Le::le_at))]
pub fn read64(s: &[u8], at: usize) -> u64
    requires { at + 8 ≤ length s.now }
    ensures { result ≡ le_at 8 s.now at }
{
    u64::from_le_bytes(s[at..at + 8].try_into().unwrap())
}

// The 2 bytes at `at` become x.
#[tactic(auto, using(crate::proofs::Bytes::put_bytes))]
pub fn write16(s: &mut [u8], at: usize, x: u16)
    requires { at + 2 ≤ length s.old }
    ensures { s.new ≡ put_at 2 s.old at x }
{
    s[at..at + 2].copy_from_slice(&x.to_le_bytes());
}

// The 4 bytes at `at` become x.
#[tactic(auto, using(crate::proofs::Bytes::put_bytes))]
pub fn write32(s: &mut [u8], at: usize, x: u32)
    requires { at + 4 ≤ length s.old }
    ensures { s.new ≡ put_at 4 s.old at x }
{
    s[at..at + 4].copy_from_slice(&x.to_le_bytes());
}

// The 8 bytes at `at` become x.
#[tactic(auto, using(crate::proofs::Bytes::put_bytes))]
pub fn write64(s: &mut [u8], at: usize, x: u64)
    requires { at + 8 ≤ length s.old }
    ensures { s.new ≡ put_at 8 s.old at x }
{
    s[at..at + 8].copy_from_slice(&x.to_le_bytes());
}

// How many whole cells a slice has.
pub fn room(s: &[u8]) -> usize
    ensures { result ≡ room s.now }
{
    s.len() / 16
}

// The tag of cell i; the rest of the cell is not read.
#[tactic(auto, using(crate::specs::CellsLaws::cells_tag))]
pub fn tag(s: &[u8], i: usize) -> u32
    requires { i < room s.now }
    ensures { result ≡ (get_or (cells s.now) i null).tag }
{
    read32(s, 16 * i)
}

// The number of cell i.
#[tactic(auto, using(crate::specs::CellsLaws::cells_number))]
pub fn number(s: &[u8], i: usize) -> u32
    requires { i < room s.now }
    ensures { result ≡ (get_or (cells s.now) i null).number }
{
    read32(s, 16 * i + 4)
}

// The payload of cell i.
#[tactic(auto, using(crate::specs::CellsLaws::cells_payload))]
pub fn payload(s: &[u8], i: usize) -> u64
    requires { i < room s.now }
    ensures { result ≡ (get_or (cells s.now) i null).payload }
{
    read64(s, 16 * i + 8)
}

// Cell i.
pub fn get(s: &[u8], i: usize) -> Cell
    requires { i < room s.now }
    ensures { (result ≡ get_or (cells s.now) i null) × Sound result }
{
    Cell {
        tag: tag(s, i),
        number: number(s, i),
        payload: payload(s, i),
    }
}

// Cell i becomes c.
pub fn put(s: &mut [u8], i: usize, c: Cell)
    requires { i < room s.old }
    ensures { Writes s.old (set (cells s.old) i c) s.new }
{
    write32(s, 16 * i, c.tag);
    write32(s, 16 * i + 4, c.number);
    write64(s, 16 * i + 8, c.payload);
}

// The number of cell i becomes x.
pub fn set_number(s: &mut [u8], i: usize, x: u32)
    requires { i < room s.old }
    ensures { Writes s.old (set (cells s.old) i (set_number (get_or (cells s.old) i null) x)) s.new }
{
    write32(s, 16 * i + 4, x);
}

// The payload of cell i becomes x.
pub fn set_payload(s: &mut [u8], i: usize, x: u64)
    requires { i < room s.old }
    ensures { Writes s.old (set (cells s.old) i (set_payload (get_or (cells s.old) i null) x)) s.new }
{
    write64(s, 16 * i + 8, x);
}
