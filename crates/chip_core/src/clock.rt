// The calls over a machine by value: a run of clocks, one clock and one instruction. A refused call leaves the cells. Machine, image and cells come apart, since
// each has an owner of its own: many sockets share an image, and cells outlast a machine that is loaded anew. `RunPromise` speaks of each.
ghost use Rattle.std.specs.Prelude.{◌≡◌, ◌<◌};
ghost use Rattle.chip_core.specs.Clock.{clock, ClockPromise, RunPromise};
ghost use Rattle.chip_core.specs.Instruction.{InstructionPromise};
ghost use Rattle.chip_core.specs.Iterate.{iterate};
ghost use Rattle.chip_core.specs.Machine.{state, memory_of};

use super::control::Stage;
use super::edge::one_clock;
use super::machine::{Machine, check_call};
use super::refusal::Refusal;

// So many clocks of a machine that is not refused. The image is not scanned again. That SR is below 16 is asked here and of a clock, and is not in the type: `Machine`
// is public and has any number there, which is refused with 13 (`RunPromise`).
fn clocked(machine: Machine, image: &[u16], cells: &mut [u8; 16], clocks: u64) -> Machine
    requires { machine.sr < 16 }
    ensures { state result cells.new ≡ iterate (clock (memory_of image.now)) clocks (state machine cells.old) }
{
    let mut at = machine;
    for _ in 0..clocks {
        at = one_clock(at, image, cells);
    }
    at
}

// Any number of clocks, from any stage to any stage. Refuses 11: image above 256 words; 10: word above 4095; 12: not exactly 16 cells; 13: SR above
// 15 or IR above 4095.
#[tactic(auto, using(crate::proofs::Refusals::ready))]
pub fn run(
    machine: Machine,
    image: &[u16],
    cells: &mut [u8],
    clocks: u64,
) -> Result<Machine, Refusal>
    ensures { RunPromise clocks machine image.now cells.old result cells.new }
{
    check_call(machine, image, cells.len())?;
    let sixteen = cells.as_mut_array().unwrap();
    Ok(clocked(machine, image, sixteen, clocks))
}

// One clock: the row of the clock table for this stage says what is written. Refuses as a run does.
pub fn clock(machine: Machine, image: &[u16], cells: &mut [u8]) -> Result<Machine, Refusal>
    ensures { ClockPromise machine image.now cells.old result cells.new }
{
    run(machine, image, cells, 1)
}

// "One instruction is three clocks of a machine about to fetch." Refuses as a run does, then 33: FETCH is not next.
pub fn instruction(machine: Machine, image: &[u16], cells: &mut [u8]) -> Result<Machine, Refusal>
    ensures { InstructionPromise machine image.now cells.old result cells.new }
{
    if let Stage::Fetch = machine.stage {
        return run(machine, image, cells, 3);
    }
    check_call(machine, image, cells.len()).and(Err(Refusal::FetchNotNext))
}
