// Opcodes that change more than their frame: 6 `LoadConst` of a Function, 8 `StoreGlobal`, 10 `BuildList`.
#![tactic(auto)]

ghost use Rattle.std.specs.Prelude.{◌≡◌, ◌-◌, ◌≤◌, ◌<◌, length};
ghost use Rattle.cells.specs.Cells.{room};
ghost use Rattle.machine.specs.Values.{Program};
ghost use Rattle.moves.specs.Runs.{end_of};
ghost use Rattle.scan.specs.Tables.{program_of};
ghost use Rattle.image.specs.Layout.{flat};
ghost use Rattle.makes.specs.Made.{Makes, Capturable, Closable, MakesClosure, Captured, SetsGlobal};

use cells::{Cell, Tag};
use image::CaptureFrom;
use moves::Running;
use plan::Next;
use refusals::Refusal;

// How an opcode ends that makes an object and is not refused: it goes on, with so many cells of the store used.
#[derive(Clone, Copy)]
pub struct Made {
    pub g: Running,
    pub used: usize,
}

// 10 `BuildList` of the x top values: 14 only where none is popped, then 15.
pub fn build_list(
    live: &mut [u8],
    store: &mut [u8],
    g: Running,
    used: usize,
    x: u32,
) -> Result<Made, Refusal>
    requires { (end_of g ≤ room live.old) × (used ≤ room store.old) × (room store.old < 4294967296) }
    ensures { (P : Program) → Makes P 10 x g used result live.old store.old live.new store.new }
{
    let n = x as usize;
    if n > g.stack {
        return Err(Refusal::FewValues);
    }
    let h = g.dropped(n);
    if moves::end(h) >= cells::room(live) {
        return Err(Refusal::LiveFull);
    }
    if cells::room(store) - used < 1 + n {
        return Err(Refusal::StoreFull);
    }
    objects::new_object(
        store,
        used,
        Tag::ObjectList as u32,
        0,
        live,
        moves::end(h),
        n,
    );
    let g = moves::push(live, h, Cell::new(Tag::List, used as u32, 0));
    Ok(Made {
        g,
        used: used + 1 + n,
    })
}

// What a new closure captures: a local of the running frame, or an upvalue of its closure.
fn captured(
    program: &lookups::Program,
    live: &[u8],
    store: &[u8],
    g: Running,
    handle: usize,
    code: usize,
    i: usize,
) -> Cell
    requires { Capturable program.now.image.now (flat program.now.rows.now) g handle code i live.now store.now }
    ensures { Captured program.now.image.now (flat program.now.rows.now) g handle code i live.now store.now result }
{
    let c = program.capture(code, i);
    if c.from == CaptureFrom::Local as u16 {
        return moves::local(live, g, c.index as usize);
    }
    objects::upvalue(store, handle, c.index as usize)
}

// A closure of an inner code, at the end of the store; it is pushed.
pub fn make_closure(
    program: &lookups::Program,
    live: &mut [u8],
    store: &mut [u8],
    g: Running,
    handle: usize,
    used: usize,
    x: u32,
    code: usize,
) -> Result<Made, Refusal>
    requires { Closable (program_of program.now) g handle used x code live.old store.old }
    ensures { MakesClosure (program_of program.now) g handle used x code result live.old store.old live.new store.new }
{
    let n = program.capture_count(code);
    if moves::end(g) >= cells::room(live) {
        return Err(Refusal::LiveFull);
    }
    if cells::room(store) - used < 1 + n {
        return Err(Refusal::StoreFull);
    }
    objects::new_closure(store, used, code as u32, n);
    for i in 0..n {
        let v = captured(program, live, store, g, handle, code, i);
        cells::put(store, used + 1 + i, v);
    }
    let g = moves::push(live, g, Cell::new(Tag::Closure, used as u32, 0));
    Ok(Made {
        g,
        used: used + 1 + n,
    })
}

// 8 `StoreGlobal` of name x of the code.
pub fn store_global(
    state: &mut [u8],
    live: &[u8],
    g: Running,
    x: u32,
    name: u16,
) -> Result<Next, Refusal>
    requires { (end_of g ≤ room live.now) × (length state.old ≡ 8256) × (name < 256) }
    ensures { (P : Program) → SetsGlobal P g x name result live.now state.old state.new }
{
    if g.stack == 0 {
        return Err(Refusal::FewValues);
    }
    let v = moves::top(live, g, 0);
    states::set_global(state, name as usize, v);
    Ok(Next::Goes(g.dropped(1)))
}
