// The calls of the host that read: text, bytes, globals and builtins.
#![tactic(auto)]

ghost use Rattle.std.specs.Prelude.{◌≡◌, ◌-◌, ◌≤◌};
ghost use Rattle.std.specs.List.{position};
ghost use Rattle.image.specs.Program.{part};
ghost use Rattle.machine.specs.Calls.{text, bytes, get_global, get_builtin, line_of, of_page};
ghost use Rattle.form.specs.Entry.{entry};
ghost use Rattle.asks.specs.Asks.{cell_of, got_by, part_by};
ghost use Rattle.asks.specs.Entries.{says};
ghost use Rattle.readings.specs.Readings.{is_feed, found_of, given_at, image_given, spotted, part_said, chosen, reading, texting, byting};

use asks::{FROM_IMAGE, FROM_PAGE, Got, NAMES, Part, Place};
use cells::{Cell, Tag};
use refusals::Refusal;

// A part of the image, or of the page of messages.
#[derive(Clone, Copy)]
enum Spot {
    Image(Place),
    Page(Place),
}

// The value in cell `first + number` of the state block.
#[tactic(auto, using(crate::specs::ReadingLaws::reading_not))]
fn get_value(
    image: &[u8],
    state: &[u8],
    live: &[u8],
    store: &[u8],
    first: usize,
    number: u32,
) -> Result<Cell, Refusal>
    requires { first ≤ 260 }
    ensures { says result ≡ reading first number state.now (entry image.now state.now live.now store.now) }
{
    asks::entered(image, state, live, store)?;
    if number >= NAMES {
        return Err(Refusal::BadValue);
    }
    Ok(cells::get(state, first + number as usize))
}

pub fn get_global(image: &[u8], state: &[u8], live: &[u8], store: &[u8], number: u32) -> Got
    ensures { result ≡ got_by (get_global number) image.now state.now live.now store.now }
{
    asks::answered(get_value(image, state, live, store, 4, number))
}

pub fn get_builtin(image: &[u8], state: &[u8], live: &[u8], store: &[u8], number: u32) -> Got
    ensures { result ≡ got_by (get_builtin number) image.now state.now live.now store.now }
{
    asks::answered(get_value(image, state, live, store, 260, number))
}

// A part as the host gets it, or no part and why.
fn answered(found: Result<Spot, Refusal>) -> Part
    ensures { result ≡ part_said (spotted found) }
{
    let none = Place { start: 0, size: 0 };
    let (code, from, place) = match found {
        Ok(Spot::Image(place)) => (0, FROM_IMAGE, place),
        Ok(Spot::Page(place)) => (0, FROM_PAGE, place),
        Err(refusal) => (refusal.number(), FROM_IMAGE, none),
    };
    Part {
        code,
        from,
        start: place.start as u64,
        len: place.size as u64,
    }
}

// How many bytes stand before the first LF.
fn before_feed(s: &[u8]) -> Option<usize>
    ensures { result ≡ position is_feed s.now }
{
    s.iter().position(|b| *b == b'\n')
}

// Line k + 1 of a page: it ends in an LF, and one that does not is missing.
fn line_of(page: &[u8], k: usize) -> Option<Place>
    ensures { result ≡ found_of (line_of k 0 0 page.now) }
{
    let mut start = 0;
    for _ in 0..k {
        start += before_feed(&page[start..])? + 1;
    }
    let size = before_feed(&page[start..])?;
    Some(Place { start, size })
}

// Where a message stands in the page; a missing one is empty, at its end.
fn message(page: &[u8], number: u32) -> Place
    requires { 1 ≤ number }
    ensures { given_at (Spot.Page result) ≡ of_page page.now (line_of (number - 1) 0 0 page.now) }
{
    let end = Place {
        start: page.len(),
        size: 0,
    };
    line_of(page, number as usize - 1).unwrap_or(end)
}

// The part of the image that a value names.
fn of_image(named: Option<Place>) -> Result<Spot, Refusal>
    ensures { spotted result ≡ image_given named }
{
    named.map(Spot::Image).ok_or(Refusal::BadValue)
}

// Where the text of a Str stands.
#[tactic(auto, using(crate::specs::ReadingLaws::text_not))]
fn text_spot(
    image: &[u8],
    state: &[u8],
    live: &[u8],
    store: &[u8],
    page: &[u8],
    v: Cell,
) -> Result<Spot, Refusal>
    ensures { spotted result ≡ texting page.now v state.now store.now (entry image.now state.now live.now store.now) }
{
    let named = asks::entered_with(image, state, live, store, v)?;
    if v.is(Tag::Str) {
        return of_image(named);
    }
    if v.is(Tag::Message) {
        return Ok(Spot::Page(message(page, v.number)));
    }
    Err(Refusal::BadValue)
}

// Where the bytes of a Bytes stand.
#[tactic(auto, using(crate::specs::ReadingLaws::bytes_not))]
fn bytes_spot(
    image: &[u8],
    state: &[u8],
    live: &[u8],
    store: &[u8],
    v: Cell,
) -> Result<Spot, Refusal>
    ensures { spotted result ≡ byting v state.now store.now (entry image.now state.now live.now store.now) }
{
    let named = asks::entered_with(image, state, live, store, v)?;
    if v.is(Tag::Bytes) {
        return of_image(named);
    }
    Err(Refusal::BadValue)
}

pub fn text(
    image: &[u8],
    state: &[u8],
    live: &[u8],
    store: &[u8],
    page: &[u8],
    low: u64,
    high: u64,
) -> Part
    ensures { result ≡ part_by (text page.now (cell_of low high)) image.now state.now live.now store.now }
{
    answered(text_spot(image, state, live, store, page, asks::cell_of(low, high)))
}

pub fn bytes(image: &[u8], state: &[u8], live: &[u8], store: &[u8], low: u64, high: u64) -> Part
    ensures { result ≡ part_by (bytes (cell_of low high)) image.now state.now live.now store.now }
{
    answered(bytes_spot(image, state, live, store, asks::cell_of(low, high)))
}

// The text that an answer of `lucia_text` names: a part of the image or of the page.
pub fn text_of<'a>(image: &'a [u8], page: &'a [u8], at: Part) -> &'a [u8]
    ensures { result.now ≡ chosen image.now page.now at }
{
    let source = if at.from == FROM_IMAGE { image } else { page };
    program::part(source, at.start as usize, at.len as usize)
}

// The bytes that an answer of `lucia_bytes` names: a part of the image.
pub fn bytes_of(image: &[u8], at: Part) -> &[u8]
    ensures { result.now ≡ part image.now at.start at.len }
{
    program::part(image, at.start as usize, at.len as usize)
}
