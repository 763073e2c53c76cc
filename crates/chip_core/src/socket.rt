// "The tester keeps one machine for each socket and clocks it where it stands."
ghost use Rattle.chip_core.specs.Clock.{ClockInPlacePromise};

use super::clock::clock;
use super::machine::Machine;
use super::refusal::Refusal;

// One clock of a machine that is lent. A refused machine stands as it stood.
pub fn clock_in_place(machine: &mut Machine, image: &[u16], cells: &mut [u8]) -> Result<(), Refusal>
    ensures { ClockInPlacePromise machine.old image.now cells.old result machine.new cells.new }
{
    *machine = clock(*machine, image, cells)?;
    Ok(())
}
