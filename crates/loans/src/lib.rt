// What is used of a loan.
#![tactic(auto)]

ghost use Rattle.std.specs.Prelude.{◌≡◌, ◌++◌, take, drop};
ghost use Rattle.std.specs.Borrow.{LendsBoth, Array, sem, u8 as byte};

// The front of a loan, up to so many bytes, and what lies behind it: "a longer loan is used that far".
pub fn parted(s: &mut [u8], most: usize) -> (&mut [u8], &mut [u8])
    ensures* writes_back { sem 𝓛 (LendsBoth (Array byte 0) (Array byte 0) (Array byte 0) s.entry result ◌++◌) }
    ensures front { result.0.now ≡ take most s.old }
    ensures behind { result.1.now ≡ drop most s.old }
{
    let end = s.len().min(most);
    s.split_at_mut(end)
}
