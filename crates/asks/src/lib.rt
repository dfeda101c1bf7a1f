// What the calls of the host that run nothing share: answers and values as numbers, and how each but a load begins, with `form::enter`, which reads the image into tables and tests the form of memory.
#![tactic(auto)]

ghost use Rattle.std.specs.Prelude.{◌≡◌, ◌*◌, ◌≤◌, length, take};
ghost use Rattle.scan.specs.Tables.{program_of};
ghost use Rattle.form.specs.Entry.{entry, store_of};
ghost use Rattle.asks.specs.Asks.{cell_of};
ghost use Rattle.asks.specs.Entries.{used_in, says, got_said, entry_of, names_constant, named_in, named_by};

use cells::{Cell, Tag};
use form::Tables;
use refusals::Refusal;
use scan::Objects;

// How many globals there are, and how many builtins.
pub const NAMES: u32 = 256;

// What the part of an answer is a part of: the image, or the page of messages.
pub const FROM_IMAGE: u32 = 0;

pub const FROM_PAGE: u32 = 1;

// A code and a value.
#[repr(C)]
#[derive(Clone, Copy)]
pub struct Got {
    pub code: u32,
    pub low: u64,
    pub high: u64,
}

// A code and a part.
#[repr(C)]
#[derive(Clone, Copy)]
pub struct Part {
    pub code: u32,
    pub from: u32,
    pub start: u64,
    pub len: u64,
}

// A part of an image or of a page of messages.
#[derive(Clone, Copy)]
pub struct Place {
    pub start: usize,
    pub size: usize,
}

// A value of two numbers.
pub fn cell_of(low: u64, high: u64) -> Cell
    ensures { result ≡ cell_of low high }
{
    Cell {
        tag: (low % 4294967296) as u32,
        number: (low / 4294967296) as u32,
        payload: high,
    }
}

// A value that was found, or null and why there is none.
pub fn answered(found: Result<Cell, Refusal>) -> Got
    ensures { result ≡ got_said (says found) }
{
    let (code, v) = match found {
        Ok(v) => (0, v),
        Err(refusal) => (refusal.number(), Cell::NULL),
    };
    let tag = u64::from(v.tag);
    let number = u64::from(v.number);
    Got {
        code,
        low: tag + 4294967296 * number,
        high: v.payload,
    }
}

// The entry of a call: memory is in form, or why not.
pub fn entered(image: &[u8], state: &[u8], live: &[u8], store: &[u8]) -> Result<(), Refusal>
    ensures { says result ≡ entry_of (entry image.now state.now live.now store.now) }
{
    let mut tables = Tables::new();
    tables.enter(image, state, live, store).map(|_| ())
}

// Is a value a Str or Bytes of the image, and so names a constant?
fn names_constant(v: Cell) -> bool
    ensures { result ≡ names_constant v }
{
    v.is(Tag::Str) || v.is(Tag::Bytes)
}

// Where the constant stands that a value names, if it names one; or the value does not exist.
fn named_in(
    program: &lookups::Program,
    state: &[u8],
    store: &[u8],
    v: Cell,
) -> Result<Option<Place>, Refusal>
    requires { (length state.now ≡ 8256) × (used_in state.now ≤ length (store_of store.now)) }
    ensures { says result ≡ named_in (program_of program.now) state.now store.now v }
{
    let below = cells::payload(state, 0) as usize;
    let objects = Objects {
        store: form::lent(store, 65536),
        below,
    };
    if !scan::value_fits(program, &objects, v) {
        return Err(Refusal::BadValue);
    }
    if !names_constant(v) {
        return Ok(None);
    }
    let c = program.constant(v.number as usize, v.payload as usize);
    Ok(Some(Place {
        start: c.place,
        size: c.size,
    }))
}

// The entry of a call that brings a value: where the constant stands that it names, if it names one.
#[tactic(auto, using(form::specs::EntryLaws::enters_low, crate::specs::Named::with_size, crate::specs::Named::with_used, crate::specs::Named::with_not, crate::specs::Named::with_named))]
pub fn entered_with(
    image: &[u8],
    state: &[u8],
    live: &[u8],
    store: &[u8],
    v: Cell,
) -> Result<Option<Place>, Refusal>
    ensures { says result ≡ named_by state.now store.now v (entry image.now state.now live.now store.now) }
{
    let mut tables = Tables::new();
    let sizes = tables.enter(image, state, live, store)?;
    let program = tables.program(image, sizes);
    named_in(&program, state, store, v)
}
