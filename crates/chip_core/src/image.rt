// The program memory that an image makes.
ghost use Rattle.std.specs.Prelude.{◌≡◌};
ghost use Rattle.chip_core.specs.Machine.{undrawn, memory_of, any_above_4095};

use super::address::ProgramAddress;

// "an entry past its end reads as 000"
const UNDRAWN: u16 = 0x000;

#[tactic(auto, unfolding(crate::specs::Machine::undrawn))]
fn undrawn() -> u16
    ensures { result ≡ undrawn }
{
    UNDRAWN
}

// What the memory reads as at an address.
pub(crate) fn word_at(image: &[u16], address: ProgramAddress) -> u16
    ensures { result ≡ memory_of image.now address }
{
    image.get(address.0 as usize).copied().unwrap_or(undrawn())
}

// Whether some word is above 4095: the largest word so far goes along, and one test stands at the end. An `any` was tried, and its proof did not close by itself.
pub(crate) fn any_above_4095(image: &[u16]) -> bool
    ensures { result ≡ any_above_4095 image.now }
{
    let mut largest = 0;
    for &word in image {
        largest = word.max(largest);
    }
    4095 < largest
}
