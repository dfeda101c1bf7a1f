// A load and a clear: both leave no frame.
#![tactic(auto)]

ghost use Rattle.std.specs.Prelude.{◌≡◌, ◌++◌, ◌+◌, ◌≤◌, ◌<◌, length, drop};
ghost use Rattle.cells.specs.Cells.{room, cells, Writes};
ghost use Rattle.image.specs.Image.{parse};
ghost use Rattle.machine.specs.Calls.{clear};
ghost use Rattle.refusals.specs.Refusals.{number_of};
ghost use Rattle.asks.specs.Asks.{Asked, Loaded};
ghost use Rattle.asks.specs.Entries.{says, got_said};
ghost use Rattle.loading.specs.Fresh.{headed, cleared, fresh_store, fresh_state, outermost_of};

use asks::Got;
use cells::{Cell, Tag};
use form::Tables;
use refusals::Refusal;

// How many steps a slice has.
const SLICE: u32 = 64;

// The mark, what the store uses, and no frame; the slice is whole.
fn headed(state: &mut [u8], used: u64)
    requires { length state.old ≡ 8256 }
    ensures { Writes state.old (headed used (cells state.old)) state.new }
{
    cells::put(
        state,
        0,
        Cell {
            tag: form::LOADED,
            number: 0,
            payload: used,
        },
    );
    cells::put(
        state,
        1,
        Cell {
            tag: SLICE,
            number: 0,
            payload: 0,
        },
    );
}

// Frames, result, wait and slice go; the mark and what the store uses stay.
fn cleared(state: &mut [u8])
    requires { length state.old ≡ 8256 }
    ensures { Writes state.old (cleared (cells state.old)) state.new }
{
    let used = cells::payload(state, 0);
    headed(state, used);
    cells::put(state, 2, Cell::NULL);
    cells::put(state, 3, Cell::NULL);
}

// Memory in form is cleared.
#[tactic(auto, using(crate::specs::Clearing::clear_not))]
fn clear_entered(image: &[u8], state: &mut [u8], live: &[u8], store: &[u8]) -> Result<(), Refusal>
    ensures { Asked clear image.now state.old live.now store.now (number_of result) state.new }
{
    asks::entered(image, state, live, store)?;
    cleared(state);
    Ok(())
}

pub fn clear(image: &[u8], state: &mut [u8], live: &[u8], store: &[u8]) -> u32
    ensures { Asked clear image.now state.old live.now store.now result state.new }
{
    refusals::number_of(clear_entered(image, state, live, store))
}

// The store of the loaded world: one closure, its captures null.
fn fresh_store(store: &mut [u8], captures: usize)
    requires { 1 + captures ≤ room store.old }
    ensures { Writes store.old (fresh_store captures ++ drop (1 + captures) (cells store.old)) store.new }
{
    cells::put(store, 0, Cell::new(Tag::ObjectClosure, 0, captures as u64));
    blocks::fill(store, 1, captures, Cell::NULL);
}

// The state block of the loaded world: only what the store uses.
fn fresh_state(state: &mut [u8], captures: usize)
    requires { (length state.old ≡ 8256) × (captures < 4294967296) }
    ensures { Writes state.old (fresh_state captures) state.new }
{
    headed(state, 1 + captures as u64);
    blocks::fill(state, 2, 514, Cell::NULL);
}

// The loaded world: one closure in the store, and an empty state block.
fn fresh(state: &mut [u8], store: &mut [u8], captures: usize)
    requires { (length state.old ≡ 8256) × (1 + captures ≤ room store.old) × (captures < 4294967296) }
    ensures { Writes state.old (fresh_state captures) state.new × Writes store.old (fresh_store captures ++ drop (1 + captures) (cells store.old)) store.new }
{
    fresh_store(store, captures);
    fresh_state(state, captures);
}

// How many captures the outermost code of an image has.
#[tactic(auto, using(form::specs::EntryLaws::reads_low, crate::specs::Loading::outermost_not))]
fn outermost_of(image: &[u8]) -> Result<usize, Refusal>
    ensures { says result ≡ outermost_of (parse image.now) }
{
    let mut tables = Tables::new();
    let sizes = tables.read(image)?;
    Ok(tables.program(image, sizes).capture_count(0))
}

// The loaded world is written: its closure.
fn loaded(image: &[u8], state: &mut [u8], live: &[u8], store: &mut [u8]) -> Result<Cell, Refusal>
    ensures { Loaded image.now state.old live.now store.old (got_said (says result)) state.new store.new }
{
    if state.len() != 8256 {
        return Err(Refusal::BadLoan);
    }
    let captures = outermost_of(image)?;
    if 1 + captures > cells::room(store) {
        return Err(Refusal::StoreFull);
    }
    fresh(state, store, captures);
    Ok(Cell::new(Tag::Closure, 0, 0))
}

pub fn load(image: &[u8], state: &mut [u8], live: &[u8], store: &mut [u8]) -> Got
    ensures { Loaded image.now state.old live.now store.old result state.new store.new }
{
    asks::answered(loaded(image, state, live, store))
}
