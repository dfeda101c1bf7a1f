// Opcodes 40 to 51: jumps and handlers. Each changes nothing but its frame.
#![tactic(auto)]

ghost use Rattle.std.specs.Prelude.{◌≡◌, List, ℕ, ◌-◌, ◌≤◌};
ghost use Rattle.image.specs.Kinds.{opcode_number};
ghost use Rattle.plan.specs.Plans.{error_of};
ghost use Rattle.cells.specs.Cells.{room};
ghost use Rattle.image.specs.Records.{both};
ghost use Rattle.machine.specs.Values.{Program, type_of, un_operator, is_effect, effect_params, match_effect_handler};
ghost use Rattle.moves.specs.Runs.{end_of};
ghost use Rattle.scan.specs.Tables.{program_of};
ghost use Rattle.plan.specs.Inside.{Does};

use cells::{Cell, Tag};
use image::Opcode;
use moves::Running;
use plan::{Error, Next};
use refusals::Refusal;

// The frame at another place, with so many values less on its stack.
fn placed(g: Running, place: u32, n: usize) -> Running
    requires { n ≤ g.stack }
    ensures { result ≡ record { base = g.base; locals = g.locals; handlers = g.handlers; stack = g.stack - n; place = place } }
{
    Running {
        place: place as usize,
        ..g.dropped(n)
    }
}

// 40 to 43: plain jumps.
pub fn jump(g: Running, x: u32) -> Result<Next, Refusal>
    ensures { (P : Program) (op : ℕ) (live : List ℕ) → 40 ≤ op → op ≤ 43 → Does P op x g result live live }
{
    Ok(Next::Jumps(placed(g, x, 0)))
}

// 44 `JumpPopIfNull`: a null is popped and the jump taken, another value stays.
pub fn jump_pop_if_null(live: &[u8], g: Running, x: u32) -> Result<Next, Refusal>
    requires { end_of g ≤ room live.now }
    ensures { (P : Program) → Does P 44 x g result live.now live.now }
{
    if g.stack == 0 {
        return Err(Refusal::FewValues);
    }
    let v = moves::top(live, g, 0);
    if v.is(Tag::Null) {
        return Ok(Next::Jumps(placed(g, x, 1)));
    }
    Ok(Next::Goes(g))
}

// The Bool that a jump asks for, 1 or 0: of each two opcodes the second, `falsely`, asks for false.
fn asked(op: Opcode, falsely: Opcode) -> u32
    requires { opcode_number op ≤ opcode_number falsely }
    ensures { result ≡ opcode_number falsely - opcode_number op }
{
    falsely as u32 - op as u32
}

// The error of a jump by a value that is no Bool.
fn not_bool(op: Opcode, x: u32, v: Cell) -> Error
    ensures { result ≡ error_of (un_operator (opcode_number op) x (type_of v)) }
{
    values::un_operator(op as u16, x, values::type_of(v))
}

// 45 `PopJumpIfTrue`, 46 `PopJumpIfFalse`: the Bool is popped first.
pub fn pop_jump_if(live: &[u8], g: Running, op: Opcode, x: u32) -> Result<Next, Refusal>
    requires { (end_of g ≤ room live.now) × (45 ≤ opcode_number op) × (opcode_number op ≤ 46) }
    ensures { (P : Program) → Does P (opcode_number op) x g result live.now live.now }
{
    if g.stack == 0 {
        return Err(Refusal::FewValues);
    }
    let v = moves::top(live, g, 0);
    if !v.is(Tag::Bool) {
        return Ok(Next::Throws(g.dropped(1), not_bool(op, x, v)));
    }
    if v.number == asked(op, Opcode::PopJumpIfFalse) {
        return Ok(Next::Jumps(placed(g, x, 1)));
    }
    Ok(Next::Goes(g.dropped(1)))
}

// 47 `JumpIfTrueOrPop`, 48 `JumpIfFalseOrPop`: the Bool is popped only where the jump is not taken.
pub fn jump_if_or_pop(live: &[u8], g: Running, op: Opcode, x: u32) -> Result<Next, Refusal>
    requires { (end_of g ≤ room live.now) × (47 ≤ opcode_number op) × (opcode_number op ≤ 48) }
    ensures { (P : Program) → Does P (opcode_number op) x g result live.now live.now }
{
    if g.stack == 0 {
        return Err(Refusal::FewValues);
    }
    let v = moves::top(live, g, 0);
    if !v.is(Tag::Bool) {
        return Ok(Next::Throws(g, not_bool(op, x, v)));
    }
    if v.number == asked(op, Opcode::JumpIfFalseOrPop) {
        return Ok(Next::Jumps(placed(g, x, 0)));
    }
    Ok(Next::Goes(g.dropped(1)))
}

// 49 `RegisterHandler`: an equal effect again only replaces what is stored with it; 16 for a seventeenth, 14 where there is no room.
pub fn register_handler(
    program: &lookups::Program,
    live: &mut [u8],
    g: Running,
    x: u32,
) -> Result<Next, Refusal>
    requires { end_of g ≤ room live.old }
    ensures { Does (program_of program.now) 49 x g result live.old live.new }
{
    if g.stack == 0 {
        return Err(Refusal::FewValues);
    }
    let e = moves::top(live, g, 0);
    let h = g.dropped(1);
    if !values::is_effect(e) {
        let op = Opcode::RegisterHandler as u16;
        return Ok(Next::Throws(h, values::un_operator(op, x, values::type_of(e))));
    }
    if let Some(j) = handlers::find_handler(program, live, h, e) {
        moves::set_handler(live, h, j, x, h.stack);
        return Ok(Next::Goes(h));
    }
    if h.handlers >= 16 {
        return Err(Refusal::ManyHandlers);
    }
    if moves::end(h) + 2 > cells::room(live) {
        return Err(Refusal::LiveFull);
    }
    Ok(Next::Goes(moves::add_handler(live, h, e, x, h.stack)))
}

// 50 `CheckEffect`: the expected effect lies on top.
pub fn check_effect(
    program: &lookups::Program,
    live: &[u8],
    g: Running,
    x: u32,
) -> Result<Next, Refusal>
    requires { end_of g ≤ room live.now }
    ensures { Does (program_of program.now) 50 x g result live.now live.now }
{
    if g.stack < 2 {
        return Err(Refusal::FewValues);
    }
    let expected = moves::top(live, g, 0);
    let e = moves::top(live, g, 1);
    let h = g.dropped(2);
    if effect_matches(program, e, expected) {
        return Ok(Next::Goes(h));
    }
    let op = Opcode::CheckEffect as u16;
    let (first, second) = (values::type_of(expected), values::type_of(e));
    Ok(Next::Throws(h, values::bin_operator(op, x, first, second)))
}

// Are both effects, and is the expected one right for a handler of the other?
#[tactic(auto, unfolding(image::specs::Records::both))]
fn effect_matches(program: &lookups::Program, e: Cell, expected: Cell) -> bool
    ensures { result ≡ both (both (is_effect e) (is_effect expected)) (match_effect_handler (effect_params (program_of program.now) e) (effect_params (program_of program.now) expected)) }
{
    values::is_effect(e)
        && values::is_effect(expected)
        && effects::match_effect_handler(
            effects::effect_params(program, e),
            effects::effect_params(program, expected),
        )
}

// 51 `MarkAddStackSize`, which does nothing.
pub fn nop(g: Running) -> Result<Next, Refusal>
    ensures { (P : Program) (x : ℕ) (live : List ℕ) → Does P 51 x g result live live }
{
    Ok(Next::Goes(g))
}
