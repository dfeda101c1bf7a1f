// Opcodes 17 to 30: operators, each on one or two values of its frame.
#![tactic(auto)]

ghost use Rattle.std.specs.Prelude.{◌≡◌, ◌≤◌};
ghost use Rattle.image.specs.Effects.{same};
ghost use Rattle.cells.specs.Cells.{room};
ghost use Rattle.machine.specs.Values.{Program, bytes_at, meta_bin_operator, divides, unary, of_ints, binary, equal};
ghost use Rattle.moves.specs.Runs.{end_of};
ghost use Rattle.scan.specs.Tables.{program_of};
ghost use Rattle.plan.specs.Plans.{error_of, computed_of};
ghost use Rattle.plan.specs.Inside.{Does};
ghost use Rattle.operators.specs.Numbers.{unary_number, binary_number};
ghost use Rattle.operators.specs.Operated.{Operates};

use cells::{Cell, Tag};
use moves::Running;
use plan::{Error, ErrorKind, Next};
use refusals::Refusal;
use values::Metamethod;

// 17 and 18, on one value.
#[derive(Clone, Copy)]
pub enum UnaryOperator {
    Neg = 17,
    Not = 18,
}

// 19 to 29, on two values.
#[derive(Clone, Copy)]
pub enum BinaryOperator {
    Add = 19,
    Sub = 20,
    Mul = 21,
    Div = 22,
    Rem = 23,
    Eq = 24,
    Ne = 25,
    Gt = 26,
    Ge = 27,
    Lt = 28,
    Le = 29,
}

// A metamethod that two values do not have, by its name's number.
#[tactic(auto, unfolding(memory::specs::Layout::error_shown, plan::specs::Kinds::kind_of))]
fn meta_bin_operator(name: u32, first: u32, second: u32) -> Error
    ensures { result ≡ error_of (meta_bin_operator name first second) }
{
    Error {
        kind: ErrorKind::MetaBinOperator,
        value: Cell {
            tag: name,
            number: 0,
            payload: u64::from(first),
        },
        second,
    }
}

// A quotient or a remainder; a zero divisor is an error.
#[tactic(auto, unfolding(memory::specs::Layout::error_shown, plan::specs::Kinds::kind_of, plan::specs::Plans::computed_of, machine::specs::Values::divides))]
fn divided(d: Option<u64>) -> Result<Cell, Error>
    ensures { result ≡ computed_of (divides d) }
{
    d.map(values::int_of).ok_or(Error {
        kind: ErrorKind::ZeroDivisor,
        value: Cell::NULL,
        second: 0,
    })
}

// `Neg` takes an Int, `Not` a Bool.
#[tactic(auto, unfolding(plan::specs::Plans::computed_of, machine::specs::Values::unary))]
fn unary_of(op: UnaryOperator, v: Cell) -> Result<Cell, Error>
    ensures { result ≡ computed_of (unary (unary_number op) v) }
{
    match op {
        UnaryOperator::Neg if v.is(Tag::Int) => Ok(values::int_of(ints::neg(v.payload))),
        UnaryOperator::Neg => Err(values::meta_un_operator(
            Metamethod::Neg as u32,
            values::type_of(v),
        )),
        UnaryOperator::Not if v.is(Tag::Bool) => Ok(values::bool_of(v.number == 0)),
        UnaryOperator::Not => Err(values::un_operator(op as u16, 0, values::type_of(v))),
    }
}

// Arithmetic and order of two Ints; `Eq` and `Ne` never get here.
#[tactic(auto, unfolding(plan::specs::Plans::computed_of, machine::specs::Values::of_ints))]
fn of_ints(op: BinaryOperator, a: u64, b: u64) -> Result<Cell, Error>
    ensures { result ≡ computed_of (of_ints (binary_number op) a b) }
{
    match op {
        BinaryOperator::Add => Ok(values::int_of(ints::add(a, b))),
        BinaryOperator::Sub => Ok(values::int_of(ints::sub(a, b))),
        BinaryOperator::Mul => Ok(values::int_of(ints::mul(a, b))),
        BinaryOperator::Div => divided(ints::div(a, b)),
        BinaryOperator::Rem => divided(ints::rem(a, b)),
        BinaryOperator::Gt => Ok(values::bool_of(ints::gt(a, b))),
        BinaryOperator::Ge => Ok(values::bool_of(ints::ge(a, b))),
        BinaryOperator::Lt => Ok(values::bool_of(ints::lt(a, b))),
        BinaryOperator::Le | BinaryOperator::Eq | BinaryOperator::Ne => Ok(values::bool_of(ints::le(
            a, b,
        ))),
    }
}

// Are the texts of two Strs of the image the same?
fn same_text(program: &lookups::Program, a: Cell, b: Cell) -> bool
    ensures { result ≡ same (bytes_at (program_of program.now) a) (bytes_at (program_of program.now) b) }
{
    let x = effects::constant_of(program, a);
    let y = effects::constant_of(program, b);
    contents::same(
        contents::content(program.image, x),
        contents::content(program.image, y),
    )
}

// Null, Bool, Int and Effect by value, Str by bytes; any other pair is unequal.
#[tactic(auto, unfolding(machine::specs::Values::equal, image::specs::Records::both, cells::specs::Tags::tag_of))]
fn equal(program: &lookups::Program, a: Cell, b: Cell) -> bool
    ensures { result ≡ equal (program_of program.now) a b }
{
    if values::is_effect(a) {
        return values::is_effect(b) && effects::equal_effects(program, a, b);
    }
    if a.tag != b.tag {
        return false;
    }
    match Tag::try_from(a.tag) {
        Ok(Tag::Null) => true,
        Ok(Tag::Bool | Tag::Message) => a.number == b.number,
        Ok(Tag::Int) => a.payload == b.payload,
        Ok(Tag::Str) => same_text(program, a, b),
        _ => false,
    }
}

// All but `Eq` and `Ne` take two Ints. The names of the metamethods follow the opcodes.
#[tactic(auto, unfolding(plan::specs::Plans::computed_of, machine::specs::Values::binary, image::specs::Records::both))]
fn on_ints(op: BinaryOperator, a: Cell, b: Cell) -> Result<Cell, Error>
    requires { (binary_number op ≡ 24 → ⊥) × (binary_number op ≡ 25 → ⊥) }
    ensures { (P : Program) → result ≡ computed_of (binary P (binary_number op) a b) }
{
    if a.is(Tag::Int) && b.is(Tag::Int) {
        return of_ints(op, a.payload, b.payload);
    }
    let name = op as u32 - BinaryOperator::Add as u32 + Metamethod::Add as u32;
    Err(meta_bin_operator(name, values::type_of(a), values::type_of(b)))
}

#[tactic(auto, unfolding(plan::specs::Plans::computed_of, machine::specs::Values::binary))]
fn binary_of(
    program: &lookups::Program,
    op: BinaryOperator,
    a: Cell,
    b: Cell,
) -> Result<Cell, Error>
    ensures { result ≡ computed_of (binary (program_of program.now) (binary_number op) a b) }
{
    match op {
        BinaryOperator::Eq => Ok(values::bool_of(equal(program, a, b))),
        BinaryOperator::Ne => Ok(values::bool_of(!equal(program, a, b))),
        _ => on_ints(op, a, b),
    }
}

// What an operator gives takes the place of its n operands, or its error is thrown.
fn computed(live: &mut [u8], g: Running, n: usize, c: Result<Cell, Error>) -> Next
    requires { (1 ≤ n) × (n ≤ g.stack) × (end_of g ≤ room live.old) }
    ensures { (P : Program) → Operates P g n c result live.old live.new }
{
    let h = g.dropped(n);
    match c {
        Ok(v) => Next::Goes(moves::push(live, h, v)),
        Err(x) => Next::Throws(h, x),
    }
}

// 17 `Neg`, 18 `Not`.
pub fn unary(live: &mut [u8], g: Running, op: UnaryOperator, x: u32) -> Result<Next, Refusal>
    requires { end_of g ≤ room live.old }
    ensures { (P : Program) → Does P (unary_number op) x g result live.old live.new }
{
    if g.stack == 0 {
        return Err(Refusal::FewValues);
    }
    let v = moves::top(live, g, 0);
    Ok(computed(live, g, 1, unary_of(op, v)))
}

// 19 `Add` to 29 `Le`: the first operand lies under the second. All but `Eq` and `Ne` need nothing of the program, so what they do is the same for each.
pub fn binary(
    program: &lookups::Program,
    live: &mut [u8],
    g: Running,
    op: BinaryOperator,
    x: u32,
) -> Result<Next, Refusal>
    requires { end_of g ≤ room live.old }
    ensures lent { Does (program_of program.now) (binary_number op) x g result live.old live.new }
    ensures arithmetic { (binary_number op ≡ 24 → ⊥) × (binary_number op ≡ 25 → ⊥) → (P : Program) → Does P (binary_number op) x g result live.old live.new }
{
    if g.stack < 2 {
        return Err(Refusal::FewValues);
    }
    let b = moves::top(live, g, 0);
    let a = moves::top(live, g, 1);
    Ok(computed(live, g, 2, binary_of(program, op, a, b)))
}

// 30 `TypeCheck`.
pub fn type_check(live: &mut [u8], g: Running, x: u32) -> Result<Next, Refusal>
    requires { end_of g ≤ room live.old }
    ensures { (P : Program) → Does P 30 x g result live.old live.new }
{
    if g.stack == 0 {
        return Err(Refusal::FewValues);
    }
    let v = moves::top(live, g, 0);
    let same = values::type_of(v) == x;
    Ok(computed(live, g, 1, Ok(values::bool_of(same))))
}
