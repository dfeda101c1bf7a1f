// One opcode: what it does is chosen by its number, and its family does it.
#![tactic(auto)]

ghost use Rattle.std.specs.Prelude.{◌≡◌, List, ℕ, ◌≤◌, length};
ghost use Rattle.cells.specs.Cells.{room};
ghost use Rattle.moves.specs.Runs.{end_of};
ghost use Rattle.scan.specs.Tables.{program_of};
ghost use Rattle.plan.specs.Inside.{Does};
ghost use Rattle.image.specs.Kinds.{opcode_number};
ghost use Rattle.steps.specs.declared.Family.TheVariants.{OnStack, Computes, Moves, Makes};
ghost use Rattle.steps.specs.Quickly.{quick_next, Quickly};
ghost use Rattle.steps.specs.Stepped.{Chosen, Ready, ReadyWith, Steps, StaysOn, after_next, after_made};

use image::{ConstantKind, Op, Opcode};
use makes::Made;
use moves::Running;
use operators::{BinaryOperator, UnaryOperator};
use plan::{Error, Next};
use refusals::Refusal;

// The closure that runs: its handle in the store, and the number of its code.
#[derive(Clone, Copy)]
pub struct Closure {
    pub handle: usize,
    pub code: usize,
}

// Opcodes that change nothing but the stack and the locals of their frame.
#[derive(Clone, Copy)]
pub enum Stack {
    Pop,
    Copy,
    Swap,
    LoadLocal,
    LoadGlobal,
    LoadUpvalue,
    StoreLocal,
}

#[derive(Clone, Copy)]
pub enum Operator {
    Unary(UnaryOperator),
    Binary(BinaryOperator),
    TypeCheck,
}

// Jumps, handlers, and what does nothing.
#[derive(Clone, Copy)]
pub enum Jump {
    Plain,
    PopIfNull,
    PopIf,
    IfOrPop,
    RegisterHandler,
    CheckEffect,
    Nop,
}

// Opcodes that may change more than their frame.
#[derive(Clone, Copy)]
pub enum Making {
    LoadConst,
    StoreGlobal,
    BuildList,
}

// Opcodes that close a slice.
#[derive(Clone, Copy)]
pub enum Closing {
    Call,
    Return,
    ReturnCall,
}

#[derive(Clone, Copy)]
pub enum Family {
    OnStack(Stack),
    Computes(Operator),
    Moves(Jump),
    Makes(Making),
    Closes(Closing),
}

// How an opcode ends that is not refused: it goes on, with so many cells of the store used; it jumps; its own error is
// thrown; or it closes the slice.
#[derive(Clone, Copy)]
pub enum After {
    On(Running, usize),
    Jumped(Running),
    Throws(Running, Error),
    Closing(Closing),
}

// How an opcode ends that is done at once: `Other` has written nothing.
#[derive(Clone, Copy)]
pub enum Quick {
    Goes(Running),
    Jumps(Running),
    Other,
}

// What an opcode does.
fn choose(op: Opcode) -> Family
    ensures { Chosen result (opcode_number op) }
{
    match op {
        Opcode::Pop => Family::OnStack(Stack::Pop),
        Opcode::Copy => Family::OnStack(Stack::Copy),
        Opcode::Swap => Family::OnStack(Stack::Swap),
        Opcode::LoadLocal => Family::OnStack(Stack::LoadLocal),
        Opcode::LoadGlobal => Family::OnStack(Stack::LoadGlobal),
        Opcode::LoadUpvalue => Family::OnStack(Stack::LoadUpvalue),
        Opcode::LoadConst => Family::Makes(Making::LoadConst),
        Opcode::StoreLocal => Family::OnStack(Stack::StoreLocal),
        Opcode::StoreGlobal => Family::Makes(Making::StoreGlobal),
        Opcode::BuildList => Family::Makes(Making::BuildList),
        Opcode::Neg => Family::Computes(Operator::Unary(UnaryOperator::Neg)),
        Opcode::Not => Family::Computes(Operator::Unary(UnaryOperator::Not)),
        Opcode::Add => Family::Computes(Operator::Binary(BinaryOperator::Add)),
        Opcode::Sub => Family::Computes(Operator::Binary(BinaryOperator::Sub)),
        Opcode::Mul => Family::Computes(Operator::Binary(BinaryOperator::Mul)),
        Opcode::Div => Family::Computes(Operator::Binary(BinaryOperator::Div)),
        Opcode::Rem => Family::Computes(Operator::Binary(BinaryOperator::Rem)),
        Opcode::Eq => Family::Computes(Operator::Binary(BinaryOperator::Eq)),
        Opcode::Ne => Family::Computes(Operator::Binary(BinaryOperator::Ne)),
        Opcode::Gt => Family::Computes(Operator::Binary(BinaryOperator::Gt)),
        Opcode::Ge => Family::Computes(Operator::Binary(BinaryOperator::Ge)),
        Opcode::Lt => Family::Computes(Operator::Binary(BinaryOperator::Lt)),
        Opcode::Le => Family::Computes(Operator::Binary(BinaryOperator::Le)),
        Opcode::TypeCheck => Family::Computes(Operator::TypeCheck),
        Opcode::Call => Family::Closes(Closing::Call),
        Opcode::Return => Family::Closes(Closing::Return),
        Opcode::ReturnCall => Family::Closes(Closing::ReturnCall),
        Opcode::Jump | Opcode::JumpBackEdge => Family::Moves(Jump::Plain),
        Opcode::Break | Opcode::Continue => Family::Moves(Jump::Plain),
        Opcode::JumpPopIfNull => Family::Moves(Jump::PopIfNull),
        Opcode::PopJumpIfTrue | Opcode::PopJumpIfFalse => Family::Moves(Jump::PopIf),
        Opcode::JumpIfTrueOrPop | Opcode::JumpIfFalseOrPop => Family::Moves(Jump::IfOrPop),
        Opcode::RegisterHandler => Family::Moves(Jump::RegisterHandler),
        Opcode::CheckEffect => Family::Moves(Jump::CheckEffect),
        Opcode::MarkAddStackSize => Family::Moves(Jump::Nop),
    }
}

fn stack_opcode(
    k: Stack,
    program: &lookups::Program,
    state: &[u8],
    live: &mut [u8],
    store: &[u8],
    g: Running,
    closure: Closure,
    o: Op,
) -> Result<Next, Refusal>
    requires { Ready (program_of program.now) g closure.handle closure.code o live.old store.now × Chosen (OnStack k) o.number × (length state.now ≡ 8256) }
    ensures { StaysOn (program_of program.now) g closure.handle closure.code o result state.now live.old store.now live.new }
{
    let x = o.operand;
    match k {
        Stack::Pop => loads::pop(g),
        Stack::Copy => loads::copy(live, g, x),
        Stack::Swap => loads::swap(live, g, x),
        Stack::LoadLocal => loads::load_local(live, g, x),
        Stack::LoadGlobal => loads::load_global(
            state,
            live,
            g,
            x,
            program.global(closure.code, x as usize),
        ),
        Stack::LoadUpvalue => loads::load_upvalue(store, live, g, closure.handle, x),
        Stack::StoreLocal => loads::store_local(live, g, x),
    }
}

fn operator_opcode(
    k: Operator,
    program: &lookups::Program,
    live: &mut [u8],
    g: Running,
    o: Op,
) -> Result<Next, Refusal>
    requires { (end_of g ≤ room live.old) × Chosen (Computes k) o.number }
    ensures { Does (program_of program.now) o.number o.operand g result live.old live.new }
{
    let x = o.operand;
    match k {
        Operator::Unary(op) => operators::unary(live, g, op, x),
        Operator::Binary(op) => operators::binary(program, live, g, op, x),
        Operator::TypeCheck => operators::type_check(live, g, x),
    }
}

fn jump_opcode(
    k: Jump,
    program: &lookups::Program,
    live: &mut [u8],
    g: Running,
    op: Opcode,
    x: u32,
) -> Result<Next, Refusal>
    requires { (end_of g ≤ room live.old) × Chosen (Moves k) (opcode_number op) }
    ensures { Does (program_of program.now) (opcode_number op) x g result live.old live.new }
{
    match k {
        Jump::Plain => jumps::jump(g, x),
        Jump::PopIfNull => jumps::jump_pop_if_null(live, g, x),
        Jump::PopIf => jumps::pop_jump_if(live, g, op, x),
        Jump::IfOrPop => jumps::jump_if_or_pop(live, g, op, x),
        Jump::RegisterHandler => jumps::register_handler(program, live, g, x),
        Jump::CheckEffect => jumps::check_effect(program, live, g, x),
        Jump::Nop => jumps::nop(g),
    }
}

// A step that stays in its frame, as a step.
fn from_next(n: Result<Next, Refusal>, used: usize) -> Result<After, Refusal>
    ensures { result ≡ after_next n used }
{
    n.map(|next| match next {
        Next::Goes(g) => After::On(g, used),
        Next::Jumps(g) => After::Jumped(g),
        Next::Throws(g, x) => After::Throws(g, x),
    })
}

fn from_made(n: Result<Made, Refusal>) -> Result<After, Refusal>
    ensures { result ≡ after_made n }
{
    n.map(|made| After::On(made.g, made.used))
}

// 6 `LoadConst`: a Function becomes a closure.
fn load_const(
    program: &lookups::Program,
    live: &mut [u8],
    store: &mut [u8],
    g: Running,
    closure: Closure,
    used: usize,
    x: u32,
) -> Result<After, Refusal>
    requires { ReadyWith (program_of program.now) g closure.handle closure.code used (record { number = 6; operand = x }) live.old store.old }
    ensures { (state : List ℕ) → Steps (program_of program.now) g closure.handle closure.code used (record { number = 6; operand = x }) result state live.old store.old state live.new store.new }
{
    let c = program.constant(closure.code, x as usize);
    if c.kind == ConstantKind::Function as u16 {
        let j = program::le16(contents::content(program.image, c), 0) as usize;
        let k = program.inner_code(closure.code, j);
        return from_made(makes::make_closure(program, live, store, g, closure.handle, used, x, k));
    }
    from_next(
        loads::load_const(program.image, live, g, closure.code as u32, x, c),
        used,
    )
}

fn making_opcode(
    k: Making,
    program: &lookups::Program,
    state: &mut [u8],
    live: &mut [u8],
    store: &mut [u8],
    g: Running,
    closure: Closure,
    used: usize,
    o: Op,
) -> Result<After, Refusal>
    requires { ReadyWith (program_of program.now) g closure.handle closure.code used o live.old store.old × Chosen (Makes k) o.number × (length state.old ≡ 8256) }
    ensures { Steps (program_of program.now) g closure.handle closure.code used o result state.old live.old store.old state.new live.new store.new }
{
    let x = o.operand;
    match k {
        Making::LoadConst => load_const(program, live, store, g, closure, used, x),
        Making::StoreGlobal => from_next(
            makes::store_global(state, live, g, x, program.global(closure.code, x as usize)),
            used,
        ),
        Making::BuildList => from_made(makes::build_list(live, store, g, used, x)),
    }
}

// One opcode of the frame in registers, whose place is already past it, by its family.
pub fn step(
    program: &lookups::Program,
    state: &mut [u8],
    live: &mut [u8],
    store: &mut [u8],
    g: Running,
    closure: Closure,
    used: usize,
    o: Op,
) -> Result<After, Refusal>
    requires { ReadyWith (program_of program.now) g closure.handle closure.code used o live.old store.old × (length state.old ≡ 8256) }
    ensures { Steps (program_of program.now) g closure.handle closure.code used o result state.old live.old store.old state.new live.new store.new }
{
    let Ok(op) = Opcode::try_from(o.number) else {
        return Err(Refusal::ImageNumber);
    };
    match choose(op) {
        Family::OnStack(k) => from_next(
            stack_opcode(k, program, state, live, store, g, closure, o),
            used,
        ),
        Family::Computes(k) => from_next(operator_opcode(k, program, live, g, o), used),
        Family::Moves(k) => from_next(jump_opcode(k, program, live, g, op, o.operand), used),
        Family::Makes(k) => making_opcode(k, program, state, live, store, g, closure, used, o),
        Family::Closes(k) => Ok(After::Closing(k)),
    }
}

// A step that throws or stops has written nothing: it is left to `step`.
fn quick_next(n: Result<Next, Refusal>) -> Quick
    ensures { result ≡ quick_next n }
{
    match n {
        Ok(Next::Goes(g)) => Quick::Goes(g),
        Ok(Next::Jumps(g)) => Quick::Jumps(g),
        _ => Quick::Other,
    }
}

// 6 `LoadConst` of an Int.
fn quick_const(
    program: &lookups::Program,
    live: &mut [u8],
    store: &[u8],
    g: Running,
    closure: Closure,
    used: usize,
    x: u32,
) -> Quick
    requires { ReadyWith (program_of program.now) g closure.handle closure.code used (record { number = 6; operand = x }) live.old store.now }
    ensures { Quickly (program_of program.now) g closure.handle closure.code (record { number = 6; operand = x }) result live.old store.now live.new }
{
    let c = program.constant(closure.code, x as usize);
    if c.kind == ConstantKind::Int as u16 {
        return quick_next(loads::load_const(program.image, live, g, closure.code as u32, x, c));
    }
    Quick::Other
}

// The opcodes that a loop of arithmetic is made of, each in the case that goes on: so few that a loop over them stays in the processor's registers. Any other case is left to `step`.
pub fn quick_step(
    program: &lookups::Program,
    live: &mut [u8],
    store: &[u8],
    g: Running,
    closure: Closure,
    used: usize,
    o: Op,
) -> Quick
    requires { ReadyWith (program_of program.now) g closure.handle closure.code used o live.old store.now }
    ensures { Quickly (program_of program.now) g closure.handle closure.code o result live.old store.now live.new }
{
    let Ok(op) = Opcode::try_from(o.number) else {
        return Quick::Other;
    };
    let x = o.operand;
    match op {
        Opcode::Pop => quick_next(loads::pop(g)),
        Opcode::LoadLocal => quick_next(loads::load_local(live, g, x)),
        Opcode::LoadConst => quick_const(program, live, store, g, closure, used, x),
        Opcode::StoreLocal => quick_next(loads::store_local(live, g, x)),
        Opcode::Add => quick_next(operators::binary(program, live, g, BinaryOperator::Add, x)),
        Opcode::Sub => quick_next(operators::binary(program, live, g, BinaryOperator::Sub, x)),
        Opcode::Mul => quick_next(operators::binary(program, live, g, BinaryOperator::Mul, x)),
        Opcode::Gt => quick_next(operators::binary(program, live, g, BinaryOperator::Gt, x)),
        Opcode::Ge => quick_next(operators::binary(program, live, g, BinaryOperator::Ge, x)),
        Opcode::Lt => quick_next(operators::binary(program, live, g, BinaryOperator::Lt, x)),
        Opcode::Le => quick_next(operators::binary(program, live, g, BinaryOperator::Le, x)),
        Opcode::Jump => quick_next(jumps::jump(g, x)),
        Opcode::JumpBackEdge => quick_next(jumps::jump(g, x)),
        Opcode::PopJumpIfTrue => {
            quick_next(jumps::pop_jump_if(live, g, Opcode::PopJumpIfTrue, x))
        }
        Opcode::PopJumpIfFalse => {
            quick_next(jumps::pop_jump_if(live, g, Opcode::PopJumpIfFalse, x))
        }
        _ => Quick::Other,
    }
}
