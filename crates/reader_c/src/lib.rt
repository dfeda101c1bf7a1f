// The reader's refusal for C, with the contract of its namesake in `reader`: the oracle links it, to compare and to time the reader alone. It is no call of the executor's.
#![tactic(auto)]

ghost use Rattle.std.specs.Prelude.{◌≡◌};
ghost use Rattle.image.specs.Image.{parse};
ghost use Rattle.reader.specs.Reads.{refusal_of};

#[unsafe(no_mangle)]
pub extern "C" fn lucia_refusal(image: &[u8]) -> u32
    ensures { result ≡ refusal_of (parse image.now) }
{
    reader::lucia_refusal(image)
}
