// The form test of memory (refusal 7): one scan of the store from the front, one of the live stack, one of the state
// block; and what every call but a load begins with: the refusals 6, 1 to 4, 10 and 7, in this order.
#![tactic(auto)]

ghost use Rattle.std.specs.Prelude.{◌≡◌, ◌+◌, ◌*◌, ◌≤◌, ◌<◌, length, take, get_or, unwrap_or};
ghost use Rattle.cells.specs.Cells.{null, room, cells};
ghost use Rattle.memory.specs.View.{frames_size};
ghost use Rattle.memory.specs.Tests.{top_kind, turn_fits, closure_fits, list_fits, continuation_fits, object_fits, store_fits, live_fits, error_fits, result_fits, in_form};
ghost use Rattle.scan.specs.Tables.{program_in, program_of, cells_of};
ghost use Rattle.results.specs.Results.{kind_number};
ghost use Rattle.layout.specs.Reads.{Low};
ghost use Rattle.reader.specs.Reads.{Reads};
ghost use Rattle.form.specs.Entry.{held_answer, Enters, HoldNothing};
ghost use Rattle.image.specs.Layout.{flat};
ghost use Rattle.refusals.specs.Refusals.{number_of};

use cells::{Cell, Tag};
use image::Row;
use layout::Sizes;
use refusals::Refusal;
use results::{ErrorKind, ResultKind};
use scan::Objects;

// The first cell of a state block has this tag where something is loaded.
pub const LOADED: u32 = 1;

// How many numbers opcodes, types and metamethods have: the fields of an error stay below them.
const OPCODES: u32 = 52;

const TYPES: u32 = 10;

const METAMETHODS: u32 = 24;

// The closure at `at`: its code, and as many upvalues as that captures.
#[tactic(auto, using(crate::specs::Objects::known, crate::specs::Objects::captures), unfolding(image::specs::Records::both, memory::specs::Tests::closure_fits))]
fn closure_fits(program: &lookups::Program, store: &[u8], at: usize, size: usize) -> bool
    requires { (at + 1 + size ≤ room store.now) × (size ≡ (get_or (cells store.now) at null).payload) }
    ensures { result ≡ closure_fits (program_of program.now) (cells store.now) at }
{
    let code = cells::number(store, at) as usize;
    code < program.codes
        && size == program.capture_count(code)
        && scan::values_fit(program, &Objects { store, below: at }, store, at + 1, size)
}

// The list at `at`.
#[tactic(auto, unfolding(image::specs::Records::both, memory::specs::Tests::list_fits))]
fn list_fits(program: &lookups::Program, store: &[u8], at: usize, size: usize) -> bool
    requires { (at + 1 + size ≤ room store.now) × (size ≡ (get_or (cells store.now) at null).payload) }
    ensures { result ≡ list_fits (program_of program.now) (cells store.now) at }
{
    cells::number(store, at) == 0
        && size <= 4096
        && scan::values_fit(program, &Objects { store, below: at }, store, at + 1, size)
}

// The continuation at `at`: its frames have exactly its cells.
#[tactic(auto, unfolding(image::specs::Records::both, memory::specs::Tests::continuation_fits))]
fn continuation_fits(program: &lookups::Program, store: &[u8], at: usize, size: usize) -> bool
    requires { (at + 1 + size ≤ room store.now) × (size ≡ (get_or (cells store.now) at null).payload) }
    ensures { result ≡ continuation_fits (program_of program.now) (cells store.now) at }
{
    let frames = cells::number(store, at) as usize;
    let from = 16 * (at + 1);
    let to = 16 * (at + 1 + size);
    frames >= 1
        && frames <= 256
        && scan::frames_fit(
            program,
            &Objects { store, below: at },
            &store[from..to],
            frames,
        ) == Some(size)
}

// The object at `at`, which ends by `end`.
#[tactic(auto, unfolding(image::specs::Records::both, memory::specs::Tests::object_fits))]
fn object_fits(program: &lookups::Program, store: &[u8], end: usize, at: usize) -> bool
    requires { (end ≤ room store.now) × (at < end) }
    ensures { result ≡ object_fits (program_of program.now) (cells store.now) end at }
{
    let size = cells::payload(store, at) as usize;
    if size > end - at - 1 {
        return false;
    }
    // Not a `match` by names: LLVM then takes the loops over values for rare ones, and they are slower.
    let kind = cells::tag(store, at);
    if kind == Tag::ObjectClosure as u32 {
        return closure_fits(program, store, at, size);
    }
    if kind == Tag::ObjectList as u32 {
        return list_fits(program, store, at, size);
    }
    kind == Tag::ObjectContinuation as u32 && continuation_fits(program, store, at, size)
}

// The store: objects, one behind the other, in exactly its used cells.
fn store_fits(program: &lookups::Program, store: &[u8], used: usize) -> bool
    ensures { result ≡ store_fits (program_of program.now) (cells store.now) used }
{
    if used > cells::room(store) {
        return false;
    }
    let mut at = 0;
    while at < used {
        if !object_fits(program, store, used, at) {
            return false;
        }
        at += 1 + cells::payload(store, at) as usize;
    }
    true
}

// The live stack: frames, then the arguments of an effect result.
#[tactic(auto, using(crate::specs::States::live_end, crate::specs::States::fit, crate::specs::States::ends, crate::specs::States::behind), unfolding(image::specs::Records::both, memory::specs::Tests::live_fits))]
fn live_fits(
    program: &lookups::Program,
    objects: &Objects,
    live: &[u8],
    count: usize,
    args: usize,
) -> bool
    ensures { result ≡ live_fits (program_of program.now) (cells_of objects.now) objects.now.below count args (cells live.now) }
{
    if count > 256 {
        return false;
    }
    let Some(end) = scan::frames_fit(program, objects, live, count) else {
        return false;
    };
    args <= cells::room(live) - end && scan::values_fit(program, objects, live, end, args)
}

// The fields of an error, by its kind.
#[tactic(auto, unfolding(image::specs::Records::both, memory::specs::Tests::error_fits))]
fn error_fits(
    program: &lookups::Program,
    objects: &Objects,
    kind: ErrorKind,
    v: Cell,
    second: u32,
) -> bool
    ensures { result ≡ error_fits (program_of program.now) (cells_of objects.now) objects.now.below (kind_number kind) v second }
{
    let tag = v.tag;
    let number = v.number;
    let typed = v.payload < u64::from(TYPES);
    match kind {
        ErrorKind::CallArguments => { tag <= 32 && number <= 1 && v.payload <= 4096 && second == 0 }
        ErrorKind::UnOperator => tag < OPCODES && typed && second == 0,
        ErrorKind::BinOperator => tag < OPCODES && typed && second < TYPES,
        ErrorKind::MetaUnOperator => tag < METAMETHODS && number == 0 && typed && second == 0,
        ErrorKind::MetaBinOperator => tag < METAMETHODS && number == 0 && typed && second < TYPES,
        ErrorKind::ZeroDivisor => scan::is_null(v) && second == 0,
        ErrorKind::Error | ErrorKind::Panic => {
            scan::value_fits(program, objects, v) && second == 0
        }
    }
}

// The result, by its kind: its value, and the cell of its second type and its arguments' count.
#[tactic(auto, unfolding(image::specs::Records::both, memory::specs::Tests::result_fits, memory::specs::Tests::error_fits, results::specs::Results::result_kind_of))]
fn result_fits(
    program: &lookups::Program,
    objects: &Objects,
    kind: u64,
    v: Cell,
    more: Cell,
) -> bool
    ensures { result ≡ result_fits (program_of program.now) (cells_of objects.now) objects.now.below kind v more }
{
    if more.number != 0 {
        return false;
    }
    let second = more.tag;
    let alone = more.payload == 0;
    match ResultKind::try_from(kind) {
        Ok(ResultKind::None) => alone && scan::is_null(v) && second == 0,
        Ok(ResultKind::Value) => alone && scan::value_fits(program, objects, v) && second == 0,
        Ok(ResultKind::Effect) => scan::effect_fits(program, objects, v) && second == 0,
        Ok(ResultKind::Error(error)) => alone && error_fits(program, objects, error, v, second),
        Err(_) => false,
    }
}

// A wait and a slice beside the kind of the frame that runs next.
#[tactic(auto, unfolding(image::specs::Records::both, memory::specs::Tests::turn_fits, cells::specs::Tags::tag_of))]
fn turn_fits(top: Option<u32>, wait: u32, slice: u32) -> bool
    ensures { result ≡ turn_fits (unwrap_or top 0) wait slice }
{
    match top.map(Tag::try_from) {
        Some(Ok(Tag::FrameLucia)) => wait == 0 && slice <= 64,
        Some(Ok(Tag::FrameCallback)) => wait <= 1 && slice == 64,
        _ => wait == 0 && slice == 64,
    }
}

// The kind of the frame that runs next: the top frame's where there is no result.
fn top_kind(live: &[u8], count: usize, res: u64) -> Option<u32>
    requires { frames_size count (cells live.now) ≤ room live.now }
    ensures { unwrap_or result 0 ≡ top_kind count res (cells live.now) }
{
    if count == 0 {
        return None;
    }
    if res != 0 {
        return None;
    }
    let top = placing::last_frame(live, 0, count);
    Some(cells::tag(live, top))
}

// Is memory in form? The state block has its length; live stack and store are lent up to their most.
#[tactic(auto, using(crate::specs::States::store_inside, crate::specs::States::live_frames, crate::specs::States::block_values), unfolding(image::specs::Records::both, memory::specs::Tests::in_form))]
fn in_form(program: &lookups::Program, state: &[u8], live: &[u8], store: &[u8]) -> bool
    requires { length state.now ≡ 8256 }
    ensures { result ≡ in_form (program_of program.now) (cells store.now) (cells state.now) (cells live.now) }
{
    let head = cells::get(state, 0);
    let turn = cells::get(state, 1);
    let value = cells::get(state, 2);
    let more = cells::get(state, 3);
    let used = head.payload as usize;
    let count = head.number as usize;
    let args = more.payload as usize;
    let kind = turn.payload;
    if !store_fits(program, store, used) {
        return false;
    }
    let objects = Objects { store, below: used };
    live_fits(program, &objects, live, count, args)
        && result_fits(program, &objects, kind, value, more)
        && turn_fits(top_kind(live, count, kind), turn.number, turn.tag)
        && scan::values_fit(program, &objects, state, 4, 512)
}

// The front of a loan, up to so many cells: "a longer loan is used that far".
pub fn lent(s: &[u8], most: usize) -> &[u8]
    requires { most ≤ 65536 }
    ensures { result.now ≡ take (16 * most) s.now }
{
    let end = 16 * most;
    &s[..end.min(s.len())]
}

// Is memory loaded, and in form?
fn held(program: &lookups::Program, state: &[u8], live: &[u8], store: &[u8]) -> Result<(), Refusal>
    requires { length state.now ≡ 8256 }
    ensures { number_of result ≡ held_answer (program_of program.now) state.now live.now store.now }
{
    if cells::tag(state, 0) != LOADED {
        return Err(Refusal::NotLoaded);
    }
    if in_form(program, state, lent(live, 4096), lent(store, 65536)) {
        return Ok(());
    }
    Err(Refusal::NotInForm)
}

// What every call but a load begins with: the image is read into the tables, and memory is in form.
pub fn enter(
    image: &[u8],
    state: &[u8],
    live: &[u8],
    store: &[u8],
    rows: &mut [Row],
    constants: &mut [u32],
    inner: &mut [u32],
) -> Result<Sizes, Refusal>
    requires { (256 ≤ length rows.old) × (10923 ≤ length constants.old) × (256 ≤ length inner.old) }
    ensures { Enters image.now state.now live.now store.now result (flat rows.new) constants.new inner.new }
{
    if state.len() != 8256 {
        return Err(Refusal::BadLoan);
    }
    let sizes = reader::read_image(image, rows, constants, inner)?;
    let program = reader::filled(image, rows, constants, inner, sizes);
    held(&program, state, live, store)?;
    Ok(sizes)
}

// The reader's tables, which have room for each image that it accepts.
#[derive(Drop)]
pub struct Tables {
    rows: [Row; 256],
    constants: [u32; 10923],
    inner: [u32; 256],
}

impl Tables {
    // Tables that hold nothing yet: each row is that of no code, each number 0.
    #[tactic(auto, unfolding(crate::specs::Entry::HoldNothing))]
    pub fn new() -> Tables
        ensures { HoldNothing result.rows result.constants result.inner }
    {
        Tables {
            rows: [Row::NONE; 256],
            constants: [0; 10923],
            inner: [0; 256],
        }
    }

    // An image is read into these tables.
    pub fn read(&mut self, image: &[u8]) -> Result<Sizes, Refusal>
        ensures { Reads image.now result (flat self.new.rows) self.new.constants self.new.inner }
    {
        let inner = &mut self.inner;
        reader::read_image(image, &mut self.rows, &mut self.constants, inner)
    }

    // What a call begins with: the image is read into these tables, and memory is in form.
    pub fn enter(
        &mut self,
        image: &[u8],
        state: &[u8],
        live: &[u8],
        store: &[u8],
    ) -> Result<Sizes, Refusal>
        ensures { Enters image.now state.now live.now store.now result (flat self.new.rows) self.new.constants self.new.inner }
    {
        enter(
            image,
            state,
            live,
            store,
            &mut self.rows,
            &mut self.constants,
            &mut self.inner,
        )
    }

    // The program that their fronts hold.
    #[tactic(auto, using(image::proofs::RowLaws::rows_long))]
    pub fn program<'a>(&'a self, image: &'a [u8], sizes: Sizes) -> lookups::Program<'a>
        requires { Low sizes.codes sizes.constants sizes.inner }
        ensures { program_of result ≡ program_in image.now (take (10 * sizes.codes) (flat self.now.rows)) (take sizes.constants self.now.constants) (take sizes.inner self.now.inner) sizes.codes }
    {
        reader::filled(image, &self.rows, &self.constants, &self.inner, sizes)
    }
}
