// The line runner: an accepted deck run by the line rules, which speak of lines alone. The cost and, at the end, PC are counted beside them.
ghost use Rattle.std.specs.Prelude.{◌*◌, ◌<◌, ◌≡◌};
ghost use Rattle.chip_core.specs.Rule.{Act, effect};
ghost use Rattle.deck.specs.Lines.{line_effect, line_next, executed, LinesPromise};
ghost use Rattle.deck.specs.Private.{seen, Reaches, Fits};

use super::check::accept;
use super::decks::AcceptedDeck;
use super::operation::Operation;
use chip_core::address::{DataAddress, ProgramAddress};
use chip_core::refusal::Refusal;
use chip_core::unit::unit;
use chip_core::word::is_flag_set;

// What a run of lines reached.
#[derive(Clone, Copy, Debug, PartialEq, Eq)]
pub struct LinesRun {
    pub lines: u32,
    pub clocks: u64,
    pub acc: u8,
    pub flags: u8,
    pub position: u16,
    pub pc: ProgramAddress,
}

// Acc and flags. The cells stand in the caller's memory. That flags are four bits is asked of two functions and kept by the loop: a ghost field was tried, and the
// loop had to say it all the same.
#[derive(Clone, Copy, Debug, PartialEq, Eq)]
struct Registers {
    acc: u8,
    flags: u8,
}

// Where a run stands, and what it has counted.
#[derive(Clone, Copy, Debug, PartialEq, Eq)]
struct Reached {
    position: u16,
    registers: Registers,
    lines: u32,
    clocks: u64,
}

// "M uses b = cell; d = 1 writes Acc, d = 0 writes the same cell." The fields are those of an M.
#[tactic(auto, using(chip_core::proofs::Answered::computed_in_range, chip_core::proofs::Answered::no_zero, chip_core::proofs::Effects::on_cell_lem))]
fn on_cell(d: u8, mode: u8, cell: DataAddress, before: Registers, cells: &mut [u8; 16]) -> Registers
    requires { (mode < 16) × (cell.0 < 16) × (before.flags < 16) }
    ensures { seen result cells.new ≡ effect (Act.OnCell d mode cell) (seen before cells.old) }
{
    let place = cell.0 as usize;
    let out = unit(mode, before.acc, cells[place], before.flags).unwrap();
    if d == 1 {
        return Registers {
            acc: out.result,
            flags: out.flags,
        };
    }
    cells[place] = out.result;
    Registers {
        acc: before.acc,
        flags: out.flags,
    }
}

// What a line does to Acc, flags and cells.
#[tactic(auto, using(chip_core::proofs::Answered::computed_in_range, chip_core::proofs::Answered::no_zero, chip_core::proofs::Effects::on_immediate))]
fn apply(operation: Operation, before: Registers, cells: &mut [u8; 16]) -> Registers
    requires { Fits operation × (before.flags < 16) }
    ensures { seen result cells.new ≡ line_effect operation (seen before cells.old) }
{
    match operation {
        Operation::M { d, mode, cell } => on_cell(d, mode, cell, before, cells),
        Operation::I { mode, immediate } => {
            let out = unit(mode, before.acc, immediate, before.flags).unwrap();
            Registers {
                acc: out.result,
                flags: out.flags,
            }
        }
        Operation::Goto { .. }
        | Operation::JumpIf { .. }
        | Operation::JumpUnless { .. }
        | Operation::Nop => before,
    }
}

// "A jump moves to its label's line; other lines go to the next. Operation 26 jumps when the flag is 0."
fn next(operation: Operation, position: u16, flags: u8) -> u16
    requires { position < 256 }
    ensures { result ≡ line_next operation position flags }
{
    match operation {
        Operation::Goto { line } => line,
        Operation::JumpIf { flag, line } if is_flag_set(flag, flags) => line,
        Operation::JumpUnless { flag, line } if !is_flag_set(flag, flags) => line,
        _ => position + 1,
    }
}

// "Cost: 3 clocks for each executed word, so operation 26 costs 3 if the flag is 1 and 6 otherwise."
fn cost(operation: Operation, flags: u8) -> u64
    ensures { result ≡ 3 * executed operation flags }
{
    match operation {
        Operation::JumpUnless { flag, .. } if !is_flag_set(flag, flags) => 6,
        _ => 3,
    }
}

// Runs so many lines, fewer if the run passes the last line. Each line is read where it stands in the deck.
#[tactic(auto, using(crate::proofs::Sound::sound, crate::proofs::Sound::line_fits))]
fn run_accepted(deck: AcceptedDeck<'_>, cells: &mut [u8; 16], asked: u32) -> Reached
    ensures { Reaches asked deck.entry.bytes.now cells.old result cells.new }
{
    let count = deck.line_count();
    let mut position = 0;
    let mut registers = Registers { acc: 0, flags: 0 };
    let mut clocks = 0;
    for lines in 0..asked {
        if count <= position {
            return Reached {
                position,
                registers,
                lines,
                clocks,
            };
        }
        let operation = deck.operation_at(position);
        clocks += cost(operation, registers.flags);
        position = next(operation, position, registers.flags);
        registers = apply(operation, registers, cells);
    }
    Reached {
        position,
        registers,
        lines: asked,
        clocks,
    }
}

// Lines of a deck from line 0, with Acc and flags 0. Refuses 1 to 8 as `check` does, then 12: not exactly 16 cells.
#[tactic(auto, using(crate::proofs::Parts::then_last, chip_core::proofs::Answered::no_zero), unfolding(crate::specs::Lines::lines_refusal))]
pub fn run_lines(deck: &[u8], cells: &mut [u8], asked: u32) -> Result<LinesRun, Refusal>
    ensures { LinesPromise asked deck.now cells.old result cells.new }
{
    let deck = accept(deck)?;
    let Some(cells) = cells.as_mut_array() else {
        return Err(Refusal::NotSixteenCells);
    };
    let reached = run_accepted(deck, cells, asked);
    Ok(LinesRun {
        lines: reached.lines,
        clocks: reached.clocks,
        acc: reached.registers.acc,
        flags: reached.registers.flags,
        position: reached.position,
        pc: ProgramAddress((deck.address_of(reached.position) % 256) as u8),
    })
}
