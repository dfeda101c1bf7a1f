// Why a call is refused. Each refusal has its number of docs/ANSWERS.md, which is what C gets.
#![tactic(auto)]

ghost use Rattle.std.specs.Prelude.{◌≡◌};
ghost use Rattle.refusals.specs.Refusals.{number, number_of};

#[derive(Clone, Copy, PartialEq, Eq)]
pub enum Refusal {
    ImageSize = 1,
    ImageStructure = 2,
    ImageNumber = 3,
    ImageCodes = 4,
    BadValue = 5,
    BadLoan = 6,
    NotInForm = 7,
    NotLoaded = 10,
    OutOfTurn = 11,
    FewValues = 12,
    ManyFrames = 13,
    LiveFull = 14,
    StoreFull = 15,
    ManyHandlers = 16,
}

impl Refusal {
    // The number that C gets.
    pub fn number(self) -> u32
        ensures { result ≡ number self }
    {
        self as u32
    }
}

// The number that C gets of what was done or refused: 0 for what was done.
pub fn number_of(done: Result<(), Refusal>) -> u32
    ensures { result ≡ number_of done }
{
    match done {
        Ok(()) => 0,
        Err(refusal) => refusal.number(),
    }
}
