// Fuel: a signed number of 32 bits that stops at the ends of its type, and an interrupt mark. The core in `impl Fuel` goes by value; the free functions `adjust`,
// `consume` and `refill` take fuel by `&mut`, and each calls its namesake of the core.
#![tactic(auto)]

ghost use Rattle.std.specs.Prelude.{◌≡◌};
ghost use Rattle.fuel.specs.Fuels.{with, empty, refill, adjust, consume, remaining, set_remaining, interrupt, is_interrupted, clear_interrupt, should_continue};
ghost use Rattle.fuel.specs.Loans.{read, write};

use refusals::Refusal;

#[derive(Clone, Copy)]
pub struct Fuel {
    fuel: i32,
    interrupted: bool,
}

impl Fuel {
    pub fn empty() -> Fuel
        ensures { result ≡ empty }
    {
        Fuel::with(0)
    }

    pub fn with(fuel: i32) -> Fuel
        ensures { result ≡ with fuel }
    {
        Fuel {
            fuel,
            interrupted: false,
        }
    }

    // Refills up to a maximum, which may also lower the number, and clears the mark.
    pub fn refill(self, x: i32, max: i32) -> Fuel
        ensures { result ≡ refill self x max }
    {
        Fuel::with(self.fuel.saturating_add(x).min(max))
    }

    pub fn adjust(self, x: i32) -> Fuel
        ensures { result ≡ adjust self x }
    {
        self.set_remaining(self.fuel.saturating_add(x))
    }

    pub fn consume(self, x: i32) -> Fuel
        ensures { result ≡ consume self x }
    {
        self.adjust(x.saturating_neg())
    }

    pub fn remaining(self) -> i32
        ensures { result ≡ remaining self }
    {
        self.fuel
    }

    pub fn set_remaining(self, x: i32) -> Fuel
        ensures { result ≡ set_remaining self x }
    {
        Fuel { fuel: x, ..self }
    }

    pub fn interrupt(self) -> Fuel
        ensures { result ≡ interrupt self }
    {
        Fuel {
            interrupted: true,
            ..self
        }
    }

    pub fn is_interrupted(self) -> bool
        ensures { result ≡ is_interrupted self }
    {
        self.interrupted
    }

    pub fn clear_interrupt(self) -> Fuel
        ensures { result ≡ clear_interrupt self }
    {
        Fuel {
            interrupted: false,
            ..self
        }
    }

    pub fn should_continue(self) -> bool
        ensures { result ≡ should_continue self }
    {
        self.fuel > 0 && !self.interrupted
    }
}

pub fn adjust(fuel: &mut Fuel, x: i32)
    ensures { fuel.new ≡ adjust fuel.old x }
{
    *fuel = Fuel::adjust(*fuel, x);
}

pub fn consume(fuel: &mut Fuel, x: i32)
    ensures { fuel.new ≡ consume fuel.old x }
{
    *fuel = Fuel::consume(*fuel, x);
}

pub fn refill(fuel: &mut Fuel, x: i32, max: i32)
    ensures { fuel.new ≡ refill fuel.old x max }
{
    *fuel = Fuel::refill(*fuel, x, max);
}

// Fuel that is lent for one charge: from the value to the form by `&mut` and back.
pub fn charged(f: Fuel, cost: i32) -> Fuel
    ensures { result ≡ consume f cost }
{
    let mut g = f;
    consume(&mut g, cost);
    g
}

// Fuel as 5 bytes: the number, little-endian, then the mark.
#[tactic(auto, using(crate::specs::LoanLaws::read_held, crate::specs::LoanLaws::read_other))]
pub fn read(loan: &[u8]) -> Result<Fuel, Refusal>
    ensures { result ≡ read loan.now }
{
    if loan.len() != 5 {
        return Err(Refusal::BadLoan);
    }
    let fuel = cells::read32(loan, 0).cast_signed();
    let interrupted = loan[4] != 0;
    Ok(Fuel { fuel, interrupted })
}

// The number is written and the mark byte left, since no call that charges fuel alters the mark. A loan of another length is left whole: `read` refuses it.
#[tactic(auto, using(crate::specs::LoanLaws::write_held, crate::specs::LoanLaws::write_other))]
pub fn write(loan: &mut [u8], fuel: Fuel)
    ensures { loan.new ≡ write loan.old fuel }
{
    if loan.len() == 5 {
        cells::write32(loan, 0, fuel.fuel.cast_unsigned());
    }
}
