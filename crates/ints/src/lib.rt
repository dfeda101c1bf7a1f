// Arithmetic and comparison of Ints. An Int is its pattern of 64 bits in two's complement: the u64 a stands for the integer `signed half a`.
#![tactic(auto)]

ghost use Rattle.std.specs.Prelude.{◌≡◌};
ghost use Rattle.ints.specs.Ints.{half, neg, add, sub, mul, div, rem, lt, le, gt, ge};

pub fn neg(a: u64) -> u64
    ensures { result ≡ neg half a }
{
    a.wrapping_neg()
}

#[tactic(auto, using(crate::proofs::Laws::add_is))]
pub fn add(a: u64, b: u64) -> u64
    ensures { result ≡ add half a b }
{
    a.wrapping_add(b)
}

#[tactic(auto, using(crate::proofs::Laws::sub_is))]
pub fn sub(a: u64, b: u64) -> u64
    ensures { result ≡ sub half a b }
{
    a.wrapping_sub(b)
}

#[tactic(auto, using(crate::proofs::Laws::mul_is))]
pub fn mul(a: u64, b: u64) -> u64
    ensures { result ≡ mul half a b }
{
    a.wrapping_mul(b)
}

// Truncates toward zero; None where the divisor is 0.
#[tactic(auto, using(crate::proofs::Laws::div_none, crate::proofs::Laws::div_some))]
pub fn div(a: u64, b: u64) -> Option<u64>
    ensures { result ≡ div half a b }
{
    if b == 0 {
        return None;
    }
    let (x, y) = (a.cast_signed(), b.cast_signed());
    Some(x.wrapping_div(y).cast_unsigned())
}

// Has the dividend's sign; None where the divisor is 0.
#[tactic(auto, using(crate::proofs::Laws::rem_none, crate::proofs::Laws::rem_some))]
pub fn rem(a: u64, b: u64) -> Option<u64>
    ensures { result ≡ rem half a b }
{
    if b == 0 {
        return None;
    }
    let (x, y) = (a.cast_signed(), b.cast_signed());
    Some(x.wrapping_rem(y).cast_unsigned())
}

#[tactic(auto, using(crate::proofs::Laws::lt_cast))]
pub fn lt(a: u64, b: u64) -> bool
    ensures { result ≡ lt half a b }
{
    a.cast_signed() < b.cast_signed()
}

#[tactic(auto, using(crate::proofs::Laws::le_cast))]
pub fn le(a: u64, b: u64) -> bool
    ensures { result ≡ le half a b }
{
    a.cast_signed() <= b.cast_signed()
}

#[tactic(auto, using(crate::proofs::Laws::lt_cast))]
pub fn gt(a: u64, b: u64) -> bool
    ensures { result ≡ gt half a b }
{
    a.cast_signed() > b.cast_signed()
}

#[tactic(auto, using(crate::proofs::Laws::le_cast))]
pub fn ge(a: u64, b: u64) -> bool
    ensures { result ≡ ge half a b }
{
    a.cast_signed() >= b.cast_signed()
}
