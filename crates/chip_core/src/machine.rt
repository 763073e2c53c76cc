// The machine record, and what every call over a machine refuses.
ghost use Rattle.std.specs.Prelude.{◌≡◌};
ghost use Rattle.chip_core.specs.Clock.{clock_refusal};
ghost use Rattle.chip_core.specs.Machine.{FreshPromise};
ghost use Rattle.chip_core.specs.Refusal.{refusal_number};

use super::address::ProgramAddress;
use super::control::Stage;
use super::image::any_above_4095;
use super::refusal::Refusal;

// The registers, and the stage that the next clock makes.
#[derive(Clone, Copy, Debug, PartialEq, Eq)]
pub struct Machine {
    pub pc: ProgramAddress,
    pub ir: u16,
    pub dr: u8,
    pub acc: u8,
    pub sr: u8,
    pub stage: Stage,
}

// A freshly loaded machine. Its cells come from the caller.
pub fn fresh() -> Machine
    ensures { FreshPromise result }
{
    Machine {
        pc: ProgramAddress(0),
        ir: 0,
        dr: 0,
        acc: 0,
        sr: 0,
        stage: Stage::Fetch,
    }
}

// "11, 10, 12, 13"
#[tactic(auto, unfolding(crate::specs::Clock::clock_refusal))]
pub(crate) fn check_call(machine: Machine, image: &[u16], count: usize) -> Result<(), Refusal>
    ensures { refusal_number result ≡ clock_refusal machine image.now count }
{
    if 256 < image.len() {
        return Err(Refusal::ImageAbove256Words);
    }
    if any_above_4095(image) {
        return Err(Refusal::WordAbove4095);
    }
    if count != 16 {
        return Err(Refusal::NotSixteenCells);
    }
    if 15 < machine.sr || 4095 < machine.ir {
        return Err(Refusal::RegisterOutOfRange);
    }
    Ok(())
}
