// The tags of cells by name: docs/LAYOUT.md has the numbers.

ghost use Rattle.std.specs.Prelude.{◌≡◌};
ghost use Rattle.cells.specs.Tags.{tag_of};

// First those of values, then those of a frame's first cell, of a handler's second
// cell and a frame's third one, and of an object's first cell.
#[derive(Clone, Copy, PartialEq, Eq)]
pub enum Tag {
    Null = 0,
    Bool = 1,
    Int = 2,
    Float = 3,
    Str = 4,
    Bytes = 5,
    List = 6,
    Closure = 7,
    BuiltinEffect = 8,
    Message = 20,
    Continuation = 23,
    Effect = 24,
    Callback = 39,
    FrameLucia = 64,
    FrameCallback = 65,
    FrameEffect = 66,
    Handler = 67,
    Place = 68,
    ObjectClosure = 128,
    ObjectList = 129,
    ObjectContinuation = 130,
}

// A number that no tag has.
#[derive(Clone, Copy, PartialEq, Eq)]
pub struct UnknownTag {
    pub number: u32,
}

impl TryFrom<u32> for Tag {
    type Error = UnknownTag;

    ghost try_from_gives = { λ number result. result ≡ tag_of number };

    #[tactic(auto, unfolding(crate::specs::Tags::tag_of))]
    fn try_from(number: u32) -> Result<Tag, UnknownTag> {
        match number {
            0 => Ok(Tag::Null),
            1 => Ok(Tag::Bool),
            2 => Ok(Tag::Int),
            3 => Ok(Tag::Float),
            4 => Ok(Tag::Str),
            5 => Ok(Tag::Bytes),
            6 => Ok(Tag::List),
            7 => Ok(Tag::Closure),
            8 => Ok(Tag::BuiltinEffect),
            20 => Ok(Tag::Message),
            23 => Ok(Tag::Continuation),
            24 => Ok(Tag::Effect),
            39 => Ok(Tag::Callback),
            64 => Ok(Tag::FrameLucia),
            65 => Ok(Tag::FrameCallback),
            66 => Ok(Tag::FrameEffect),
            67 => Ok(Tag::Handler),
            68 => Ok(Tag::Place),
            128 => Ok(Tag::ObjectClosure),
            129 => Ok(Tag::ObjectList),
            130 => Ok(Tag::ObjectContinuation),
            _ => Err(UnknownTag { number }),
        }
    }
}

// The types of values: a value's type is its tag modulo 16.
#[derive(Clone, Copy, PartialEq, Eq)]
pub enum ValueType {
    Null = 0,
    Bool = 1,
    Int = 2,
    Float = 3,
    Str = 4,
    Bytes = 5,
    Table = 6,
    Function = 7,
    Effect = 8,
    UserData = 9,
}
