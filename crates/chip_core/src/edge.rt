// One clock edge of a machine that is not refused: the row of the clock table says what is written, all from values before the edge. Where a function
// takes the row and the machine before the edge, it does so in the order of its definition: a struct of both would only be taken apart again.
ghost use Rattle.std.specs.Prelude.{◌≡◌, ◌<◌, if◌then◌else◌};
ghost use Rattle.chip_core.specs.Clock.{pc_after, ir_after, operand, result_out, cells_after, cell_of, clock};
ghost use Rattle.chip_core.specs.Control.{column_of, enabled, stage_after};
ghost use Rattle.chip_core.specs.Machine.{state, memory_of};
ghost use Rattle.chip_core.specs.Rule.{cell_at, stepped};

use super::address::{DataAddress, ProgramAddress};
use super::control::{ControlRow, Enable, Stage, control_row};
use super::image::word_at;
use super::machine::Machine;
use super::unit::compute;
use super::word::{bits, is_set};

// "in that order, then FETCH again"
fn stage_after(stage: Stage) -> Stage
    ensures { result ≡ stage_after stage }
{
    match stage {
        Stage::Fetch => Stage::Decode,
        Stage::Decode => Stage::Execute,
        Stage::Execute => Stage::Fetch,
    }
}

fn enabled(enable: Enable, row: ControlRow) -> bool
    ensures { result ≡ enabled (column_of enable) row }
{
    is_set(enable.column(), row.enables)
}

// What DR, Acc or SR holds after the edge: one rule for the three registers that take a new value or keep theirs.
fn written(enable: Enable, row: ControlRow, new: u8, old: u8) -> u8
    ensures { result ≡ (if enabled (column_of enable) row then new else old) }
{
    if enabled(enable, row) { new } else { old }
}

// The PC adder: "PC steps by one, and 255 steps to 0".
fn stepped(pc: ProgramAddress) -> ProgramAddress
    ensures { result ≡ stepped pc }
{
    ProgramAddress(pc.0.wrapping_add(1))
}

#[tactic(auto, unfolding(crate::specs::Clock::pc_after))]
fn pc_after(row: ControlRow, machine: Machine) -> ProgramAddress
    ensures { result ≡ pc_after row machine }
{
    if enabled(Enable::Pc, row) {
        if row.mux1 == 0 {
            return ProgramAddress(bits(7, 0, machine.ir));
        }
        return stepped(machine.pc);
    }
    machine.pc
}

#[tactic(auto, unfolding(crate::specs::Clock::ir_after))]
fn ir_after(row: ControlRow, machine: Machine, image: &[u16]) -> u16
    ensures { result ≡ ir_after (memory_of image.now) row machine }
{
    if enabled(Enable::Ir, row) {
        return word_at(image, machine.pc);
    }
    machine.ir
}

// The cell that a word in IR names.
#[tactic(auto, using(crate::proofs::Field::bits_lt))]
fn cell_of(ir: u16) -> DataAddress
    ensures { (result ≡ cell_of ir) × (result.0 < 16) }
{
    DataAddress(bits(3, 0, ir))
}

fn read_cell(ir: u16, cells: &[u8; 16]) -> u8
    ensures { result ≡ cell_at (cell_of ir) cells.now }
{
    let cell = cell_of(ir);
    cells[cell.0 as usize]
}

// The unit's operand 2. EXECUTE of M uses DR, whatever the cell holds by then.
#[tactic(auto, unfolding(crate::specs::Clock::operand))]
fn operand(row: ControlRow, ir: u16, dr: u8) -> u8
    ensures { result ≡ operand row ir dr }
{
    if row.mux2 == 0 { bits(7, 0, ir) } else { dr }
}

#[tactic(auto, unfolding(crate::specs::Clock::cells_after))]
fn write_cell(row: ControlRow, machine: Machine, res: u8, cells: &mut [u8; 16])
    requires { res ≡ result_out row machine }
    ensures { cells.new ≡ cells_after row machine cells.old }
{
    let cell = cell_of(machine.ir);
    if enabled(Enable::CellWrite, row) {
        cells[cell.0 as usize] = res;
    }
}

// One clock of a machine and its cells.
pub(crate) fn one_clock(machine: Machine, image: &[u16], cells: &mut [u8; 16]) -> Machine
    requires { machine.sr < 16 }
    ensures { state result cells.new ≡ clock (memory_of image.now) (state machine cells.old) }
{
    let row = control_row(machine.ir, machine.stage, machine.sr);
    let cell = read_cell(machine.ir, &*cells);
    let b = operand(row, machine.ir, machine.dr);
    let out = compute(row.mode, machine.acc, b, machine.sr);
    let after = Machine {
        pc: pc_after(row, machine),
        ir: ir_after(row, machine, image),
        dr: written(Enable::Dr, row, cell, machine.dr),
        acc: written(Enable::Acc, row, out.result, machine.acc),
        sr: written(Enable::Sr, row, out.flags, machine.sr),
        stage: stage_after(machine.stage),
    };
    write_cell(row, machine, out.result, cells);
    after
}
