// The kinds of results in memory by name: docs/LAYOUT.md has the numbers.
#![tactic(auto)]

ghost use Rattle.std.specs.Prelude.{◌≡◌};
ghost use Rattle.results.specs.Results.{kind_number, result_kind_of};

// The kinds of errors, by the numbers that a result in memory has for them.
#[derive(Clone, Copy, PartialEq, Eq)]
pub enum ErrorKind {
    CallArguments = 3,
    UnOperator = 4,
    BinOperator = 5,
    MetaUnOperator = 6,
    MetaBinOperator = 7,
    ZeroDivisor = 8,
    Error = 9,
    Panic = 10,
}

impl ErrorKind {
    pub fn number(self) -> u32
        ensures { result ≡ kind_number self }
    {
        self as u32
    }
}

// The kinds of results: none while the machine runs, a value returned, an effect that nothing handles, an error.
#[derive(Clone, Copy, PartialEq, Eq)]
pub enum ResultKind {
    None,
    Value,
    Effect,
    Error(ErrorKind),
}

// A number that no kind of results has.
#[derive(Clone, Copy, PartialEq, Eq)]
pub struct UnknownResult {
    pub number: u64,
}

impl TryFrom<u64> for ResultKind {
    type Error = UnknownResult;

    ghost try_from_gives = { λ number result. result ≡ result_kind_of number };

    #[tactic(auto, unfolding(crate::specs::Results::result_kind_of))]
    fn try_from(number: u64) -> Result<ResultKind, UnknownResult> {
        match number {
            0 => Ok(ResultKind::None),
            1 => Ok(ResultKind::Value),
            2 => Ok(ResultKind::Effect),
            3 => Ok(ResultKind::Error(ErrorKind::CallArguments)),
            4 => Ok(ResultKind::Error(ErrorKind::UnOperator)),
            5 => Ok(ResultKind::Error(ErrorKind::BinOperator)),
            6 => Ok(ResultKind::Error(ErrorKind::MetaUnOperator)),
            7 => Ok(ResultKind::Error(ErrorKind::MetaBinOperator)),
            8 => Ok(ResultKind::Error(ErrorKind::ZeroDivisor)),
            9 => Ok(ResultKind::Error(ErrorKind::Error)),
            10 => Ok(ResultKind::Error(ErrorKind::Panic)),
            _ => Err(UnknownResult { number }),
        }
    }
}
