// What stands in an image by name: opcodes, records, constants, effects and captures, with their numbers.

ghost use Rattle.std.specs.Prelude.{◌≡◌};
ghost use Rattle.image.specs.Kinds.{opcode_of, constant_kind_of, effect_kind_of, capture_from_of};

// A number that names nothing of its kind.
#[derive(Clone, Copy, PartialEq, Eq)]
pub struct Unknown {
    pub number: u16,
}

// The 39 opcodes, by the names and in the order of opcode.rs; 13 of its opcodes are left out.
#[derive(Clone, Copy, PartialEq, Eq)]
pub enum Opcode {
    Pop = 0,
    Copy = 1,
    Swap = 2,
    LoadLocal = 3,
    LoadGlobal = 4,
    LoadUpvalue = 5,
    LoadConst = 6,
    StoreLocal = 7,
    StoreGlobal = 8,
    BuildList = 10,
    Neg = 17,
    Not = 18,
    Add = 19,
    Sub = 20,
    Mul = 21,
    Div = 22,
    Rem = 23,
    Eq = 24,
    Ne = 25,
    Gt = 26,
    Ge = 27,
    Lt = 28,
    Le = 29,
    TypeCheck = 30,
    Call = 36,
    Return = 37,
    ReturnCall = 38,
    Jump = 40,
    JumpBackEdge = 41,
    Break = 42,
    Continue = 43,
    JumpPopIfNull = 44,
    PopJumpIfTrue = 45,
    PopJumpIfFalse = 46,
    JumpIfTrueOrPop = 47,
    JumpIfFalseOrPop = 48,
    RegisterHandler = 49,
    CheckEffect = 50,
    MarkAddStackSize = 51,
}

impl TryFrom<u16> for Opcode {
    type Error = Unknown;

    ghost try_from_gives = { λ number result. result ≡ opcode_of number };

    #[tactic(auto, unfolding(crate::specs::Kinds::opcode_of))]
    fn try_from(number: u16) -> Result<Opcode, Unknown> {
        match number {
            0 => Ok(Opcode::Pop),
            1 => Ok(Opcode::Copy),
            2 => Ok(Opcode::Swap),
            3 => Ok(Opcode::LoadLocal),
            4 => Ok(Opcode::LoadGlobal),
            5 => Ok(Opcode::LoadUpvalue),
            6 => Ok(Opcode::LoadConst),
            7 => Ok(Opcode::StoreLocal),
            8 => Ok(Opcode::StoreGlobal),
            10 => Ok(Opcode::BuildList),
            17 => Ok(Opcode::Neg),
            18 => Ok(Opcode::Not),
            19 => Ok(Opcode::Add),
            20 => Ok(Opcode::Sub),
            21 => Ok(Opcode::Mul),
            22 => Ok(Opcode::Div),
            23 => Ok(Opcode::Rem),
            24 => Ok(Opcode::Eq),
            25 => Ok(Opcode::Ne),
            26 => Ok(Opcode::Gt),
            27 => Ok(Opcode::Ge),
            28 => Ok(Opcode::Lt),
            29 => Ok(Opcode::Le),
            30 => Ok(Opcode::TypeCheck),
            36 => Ok(Opcode::Call),
            37 => Ok(Opcode::Return),
            38 => Ok(Opcode::ReturnCall),
            40 => Ok(Opcode::Jump),
            41 => Ok(Opcode::JumpBackEdge),
            42 => Ok(Opcode::Break),
            43 => Ok(Opcode::Continue),
            44 => Ok(Opcode::JumpPopIfNull),
            45 => Ok(Opcode::PopJumpIfTrue),
            46 => Ok(Opcode::PopJumpIfFalse),
            47 => Ok(Opcode::JumpIfTrueOrPop),
            48 => Ok(Opcode::JumpIfFalseOrPop),
            49 => Ok(Opcode::RegisterHandler),
            50 => Ok(Opcode::CheckEffect),
            51 => Ok(Opcode::MarkAddStackSize),
            _ => Err(Unknown { number }),
        }
    }
}

// The kinds of records in an image.
#[derive(Clone, Copy, PartialEq, Eq)]
pub enum RecordKind {
    Code = 1,
    Opcodes = 2,
    Globals = 3,
    Captures = 4,
    Constants = 5,
}

// The kinds of constants, which are records too.
#[derive(Clone, Copy, PartialEq, Eq)]
pub enum ConstantKind {
    Null = 16,
    Bool = 17,
    Int = 18,
    Float = 19,
    Str = 20,
    Bytes = 21,
    Function = 22,
    Effect = 23,
}

impl TryFrom<u16> for ConstantKind {
    type Error = Unknown;

    ghost try_from_gives = { λ number result. result ≡ constant_kind_of number };

    #[tactic(auto, unfolding(crate::specs::Kinds::constant_kind_of))]
    fn try_from(number: u16) -> Result<ConstantKind, Unknown> {
        match number {
            16 => Ok(ConstantKind::Null),
            17 => Ok(ConstantKind::Bool),
            18 => Ok(ConstantKind::Int),
            19 => Ok(ConstantKind::Float),
            20 => Ok(ConstantKind::Str),
            21 => Ok(ConstantKind::Bytes),
            22 => Ok(ConstantKind::Function),
            23 => Ok(ConstantKind::Effect),
            _ => Err(Unknown { number }),
        }
    }
}

// The effects by the number that begins an effect's body: three builtins, and any that the image declares.
#[derive(Clone, Copy, PartialEq, Eq)]
pub enum EffectKind {
    Yield = 0,
    Error = 1,
    Panic = 2,
    Declared = 3,
}

impl TryFrom<u16> for EffectKind {
    type Error = Unknown;

    ghost try_from_gives = { λ number result. result ≡ effect_kind_of number };

    #[tactic(auto, unfolding(crate::specs::Kinds::effect_kind_of))]
    fn try_from(number: u16) -> Result<EffectKind, Unknown> {
        match number {
            0 => Ok(EffectKind::Yield),
            1 => Ok(EffectKind::Error),
            2 => Ok(EffectKind::Panic),
            3 => Ok(EffectKind::Declared),
            _ => Err(Unknown { number }),
        }
    }
}

// Where a capture comes from: a local or an upvalue of the enclosing code.
#[derive(Clone, Copy, PartialEq, Eq)]
pub enum CaptureFrom {
    Local = 0,
    Upvalue = 1,
}

impl TryFrom<u16> for CaptureFrom {
    type Error = Unknown;

    ghost try_from_gives = { λ number result. result ≡ capture_from_of number };

    #[tactic(auto, unfolding(crate::specs::Kinds::capture_from_of))]
    fn try_from(number: u16) -> Result<CaptureFrom, Unknown> {
        match number {
            0 => Ok(CaptureFrom::Local),
            1 => Ok(CaptureFrom::Upvalue),
            _ => Err(Unknown { number }),
        }
    }
}
