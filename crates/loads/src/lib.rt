// Opcodes 0 to 7: values copied, pushed and popped. Each changes nothing but its frame.
#![tactic(auto)]

ghost use Rattle.std.specs.Prelude.{◌≡◌, List, ℕ, ◌+◌, ◌-◌, ◌≤◌, ◌<◌, length, get_or};
ghost use Rattle.cells.specs.Cells.{room, cells, Sound};
ghost use Rattle.image.specs.Program.{Code};
ghost use Rattle.image.specs.Fine.{Sized, no_constant};
ghost use Rattle.machine.specs.Values.{Program};
ghost use Rattle.machine.specs.Machine.{M};
ghost use Rattle.machine.specs.Opcodes.{load_global};
ghost use Rattle.moves.specs.Objects.{Stored};
ghost use Rattle.moves.specs.Runs.{end_of};
ghost use Rattle.plan.specs.Rest.{Block};
ghost use Rattle.plan.specs.Inside.{DoesWhere, Does};
ghost use Rattle.loads.specs.Loads.{Pushes};

use cells::{Cell, Tag};
use image::Constant;
use moves::Running;
use plan::Next;
use refusals::Refusal;

// A value is pushed, by whatever opcode pushes it; 14 where there is no room.
fn push_value(live: &mut [u8], g: Running, v: Cell) -> Result<Next, Refusal>
    requires { end_of g ≤ room live.old }
    ensures { Pushes v g result live.old live.new }
{
    if moves::end(g) < cells::room(live) {
        return Ok(Next::Goes(moves::push(live, g, v)));
    }
    Err(Refusal::LiveFull)
}

// 0 `Pop`.
pub fn pop(g: Running) -> Result<Next, Refusal>
    ensures { (P : Program) (x : ℕ) (live : List ℕ) → Does P 0 x g result live live }
{
    if g.stack == 0 {
        return Err(Refusal::FewValues);
    }
    Ok(Next::Goes(g.dropped(1)))
}

// 1 `Copy` counts from 1, the top.
pub fn copy(live: &mut [u8], g: Running, x: u32) -> Result<Next, Refusal>
    requires { end_of g ≤ room live.old }
    ensures { (P : Program) → Does P 1 x g result live.old live.new }
{
    let i = x as usize;
    if i == 0 || i > g.stack {
        return Err(Refusal::FewValues);
    }
    let v = moves::top(live, g, i - 1);
    push_value(live, g, v)
}

// 2 `Swap` of the top with the x-th from it, counted from 1.
pub fn swap(live: &mut [u8], g: Running, x: u32) -> Result<Next, Refusal>
    requires { end_of g ≤ room live.old }
    ensures { (P : Program) → Does P 2 x g result live.old live.new }
{
    let i = x as usize;
    if i == 0 || i > g.stack {
        return Err(Refusal::FewValues);
    }
    let a = moves::top(live, g, 0);
    let b = moves::top(live, g, i - 1);
    moves::set_top(live, g, i - 1, a);
    moves::set_top(live, g, 0, b);
    Ok(Next::Goes(g))
}

// An Int from its parts: the processor waits where a cell that was written by parts, as those of arithmetic are, is read whole a moment later, so that Ints go by parts.
#[tactic(auto, using(crate::specs::Loads::int_parts))]
fn by_parts(v: Cell) -> Cell
    requires { v.tag ≡ 2 }
    ensures { result ≡ v }
{
    Cell::new(Tag::Int, v.number, v.payload)
}

// 3 `LoadLocal`.
pub fn load_local(live: &mut [u8], g: Running, x: u32) -> Result<Next, Refusal>
    requires { (end_of g ≤ room live.old) × (x < g.locals) }
    ensures { (P : Program) → Does P 3 x g result live.old live.new }
{
    let v = moves::local(live, g, x as usize);
    if v.is(Tag::Int) && moves::end(g) < cells::room(live) {
        return Ok(Next::Goes(moves::push(live, g, by_parts(v))));
    }
    push_value(live, g, v)
}

// A global, or where it is null the builtin of its name.
fn global_or_builtin(state: &[u8], name: u16) -> Cell
    requires { (length state.now ≡ 8256) × (name < 256) }
    ensures { ((m : M) → Block m (cells state.now) → length m.globals ≡ 256 → result ≡ load_global m name) × Sound result }
{
    let v = states::global(state, name as usize);
    if v.is(Tag::Null) {
        return states::builtin(state, name as usize);
    }
    v
}

// 4 `LoadGlobal` of name x of the code.
pub fn load_global(
    state: &[u8],
    live: &mut [u8],
    g: Running,
    x: u32,
    name: u16,
) -> Result<Next, Refusal>
    requires { (end_of g ≤ room live.old) × (length state.now ≡ 8256) × (name < 256) }
    ensures { (P : Program) → DoesWhere (λ m r. Block m (cells state.now) × (name ≡ get_or r.code.globals x 0)) P 4 x g result live.old live.new }
{
    push_value(live, g, global_or_builtin(state, name))
}

// 5 `LoadUpvalue` of the closure at a handle.
pub fn load_upvalue(
    store: &[u8],
    live: &mut [u8],
    g: Running,
    handle: usize,
    x: u32,
) -> Result<Next, Refusal>
    requires { (end_of g ≤ room live.old) × (handle + 1 + x < room store.now) }
    ensures { (P : Program) → DoesWhere (λ m r. Stored m.store (cells store.now) × (handle ≡ r.handle) × (x < length r.upvalues)) P 5 x g result live.old live.new }
{
    let v = objects::upvalue(store, handle, x as usize);
    push_value(live, g, v)
}

// 6 `LoadConst` of constant x of a code, where it is no Function.
pub fn load_const(
    image: &[u8],
    live: &mut [u8],
    g: Running,
    code: u32,
    x: u32,
    c: Constant,
) -> Result<Next, Refusal>
    requires { (end_of g ≤ room live.old) × Sized image.now c }
    ensures { (cs : List Code) → DoesWhere (λ m r. (code ≡ r.number) × (c ≡ get_or r.code.constants x no_constant) × (c.kind ≡ 22 → ⊥)) (record { image = image.entry.now; codes = cs }) 6 x g result live.old live.new }
{
    push_value(live, g, values::constant_value(image, code, x, c))
}

// 7 `StoreLocal`.
pub fn store_local(live: &mut [u8], g: Running, x: u32) -> Result<Next, Refusal>
    requires { (end_of g ≤ room live.old) × (x < g.locals) }
    ensures { (P : Program) → Does P 7 x g result live.old live.new }
{
    if g.stack == 0 {
        return Err(Refusal::FewValues);
    }
    let v = moves::top(live, g, 0);
    if v.is(Tag::Int) {
        moves::set_local(live, g, x as usize, by_parts(v));
        return Ok(Next::Goes(g.dropped(1)));
    }
    moves::set_local(live, g, x as usize, v);
    Ok(Next::Goes(g.dropped(1)))
}
