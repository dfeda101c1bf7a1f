// The image: what it is stands in specs/ (`Image.parse`); the types of what is read of it, and the kinds of operands, stand here.
#![tactic(auto)]

ghost use Rattle.std.specs.Prelude.{◌≡◌};
ghost use Rattle.image.specs.Program.{operand_kind};

mod kinds;

pub use kinds::{CaptureFrom, ConstantKind, EffectKind, Opcode, RecordKind, Unknown};

#[derive(Clone, Copy)]
pub struct Op {
    pub number: u16,
    pub operand: u32,
}

#[derive(Clone, Copy)]
pub struct Capture {
    pub from: u16,
    pub index: u16,
}

#[derive(Clone, Copy)]
pub struct Constant {
    pub kind: u16,
    pub place: usize,
    pub size: usize,
}

impl Constant {
    // A constant that is not there: of no kind and without bytes.
    pub const NONE: Constant = Constant {
        kind: 0,
        place: 0,
        size: 0,
    };
}

// Where the parts of a code lie: its place in the image; how many opcodes it has; place and count of its globals and of its captures;
// where its constants begin among all, and their count; and so the codes in it.
#[derive(Clone, Copy)]
pub struct Row {
    pub place: u32,
    pub opcodes: u32,
    pub globals_at: u32,
    pub globals: u32,
    pub captures_at: u32,
    pub captures: u32,
    pub constants_from: u32,
    pub constants: u32,
    pub codes_from: u32,
    pub codes: u32,
}

impl Row {
    // The row of a code that is not there.
    pub const NONE: Row = Row {
        place: 0,
        opcodes: 0,
        globals_at: 0,
        globals: 0,
        captures_at: 0,
        captures: 0,
        constants_from: 0,
        constants: 0,
        codes_from: 0,
        codes: 0,
    };
}

#[derive(Clone, Copy)]
pub enum OperandKind {
    Unused,
    Count,
    ValueType,
    Local,
    Global,
    Upvalue,
    Const,
    Target,
    LeftOut,
}

// What stands as operand of the opcode with this number.
#[tactic(auto, using(crate::proofs::KindLaws::kind_named, crate::proofs::KindLaws::kind_unnamed))]
pub fn operand_kind(number: u16) -> OperandKind
    ensures { result ≡ operand_kind number }
{
    let Ok(opcode) = Opcode::try_from(number) else {
        return OperandKind::LeftOut;
    };
    match opcode {
        Opcode::Pop | Opcode::Neg | Opcode::Not | Opcode::Return => OperandKind::Unused,
        Opcode::Add | Opcode::Sub | Opcode::Mul | Opcode::Div | Opcode::Rem => OperandKind::Unused,
        Opcode::Eq | Opcode::Ne | Opcode::Gt | Opcode::Ge => OperandKind::Unused,
        Opcode::Lt | Opcode::Le => OperandKind::Unused,
        Opcode::Copy | Opcode::Swap | Opcode::BuildList => OperandKind::Count,
        Opcode::Call | Opcode::ReturnCall => OperandKind::Count,
        Opcode::CheckEffect | Opcode::MarkAddStackSize => OperandKind::Count,
        Opcode::LoadLocal | Opcode::StoreLocal => OperandKind::Local,
        Opcode::LoadGlobal | Opcode::StoreGlobal => OperandKind::Global,
        Opcode::LoadUpvalue => OperandKind::Upvalue,
        Opcode::LoadConst => OperandKind::Const,
        Opcode::TypeCheck => OperandKind::ValueType,
        Opcode::Jump | Opcode::JumpBackEdge | Opcode::Break => OperandKind::Target,
        Opcode::Continue | Opcode::JumpPopIfNull => OperandKind::Target,
        Opcode::PopJumpIfTrue | Opcode::PopJumpIfFalse => OperandKind::Target,
        Opcode::JumpIfTrueOrPop | Opcode::JumpIfFalseOrPop => OperandKind::Target,
        Opcode::RegisterHandler => OperandKind::Target,
    }
}
