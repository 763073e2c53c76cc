// The clock table: what each stage of each kind of word enables, and what the two selects pick.
ghost use Rattle.std.specs.Prelude.{◌≡◌, ◌*◌, ◌/◌, ◌%◌, ◌^◌, ◌<◌, if◌then◌else◌};
ghost use Rattle.chip_core.specs.Control.{stage_number, column_of, row_with, control_row, RowPromise};

use super::refusal::Refusal;
use super::word::{Instruction, bits, instruction_at, is_set};

// "The only stages are FETCH, DECODE, EXECUTE, in that order, then FETCH again."
#[derive(Clone, Copy, Debug, PartialEq, Eq)]
pub enum Stage {
    Fetch,
    Decode,
    Execute,
}

impl Stage {
    // Where the constant table has the rows of a stage.
    fn number(self) -> usize
        ensures { (result ≡ stage_number self) × (result < 3) }
    {
        self as usize
    }
}

// A row: the nine enables as document 01 writes them, PC.E the first digit and ALU.E the last, the unit's mode and the two selects. All are the table's own
// numbers, since `RowPromise` says them so (`row_with`), and a reader compares them digit by digit.
#[derive(Clone, Copy, Debug, PartialEq, Eq)]
pub struct ControlRow {
    pub enables: u16,
    pub mode: u8,
    pub mux1: u8,
    pub mux2: u8,
}

// The enables that a clock goes by, each with its bit: PC.E, Acc.E, SR.E, IR.E, DR.E and DMem.WE.
#[derive(Clone, Copy, Debug, PartialEq, Eq)]
pub(crate) enum Enable {
    Pc = 8,
    Acc = 7,
    Sr = 6,
    Ir = 5,
    Dr = 4,
    CellWrite = 1,
}

impl Enable {
    pub(crate) fn column(self) -> u16
        ensures { (result ≡ column_of self) × (result < 16) }
    {
        self as u16
    }
}

// The rows of document 01's clock table: nine enables, MUX1, MUX2.
const FETCH: u16 = 0b000101000_0_0;

const DECODE: u16 = 0b000000000_0_0;

const DECODE_M: u16 = 0b000010100_0_0;

const EXECUTE_S: u16 = 0b100000000_1_0;

const EXECUTE_GOTO: u16 = 0b100000000_0_0;

// M with d = 0 and d = 1: DMem.E and DMem.WE are the INVERSE of d, against 003's table.
const EXECUTE_M0: u16 = 0b101000111_1_1;

const EXECUTE_M1: u16 = 0b111000001_1_1;

// A jump that is not taken; one that is taken has MUX1 0.
const EXECUTE_JUMP: u16 = 0b100000000_1_0;

const EXECUTE_I: u16 = 0b111000001_1_0;

// The rows by stage and, in each stage, by bits 11..8 of the word.
const CONTROL: [u16; 48] = [
    FETCH,
    FETCH,
    FETCH,
    FETCH,
    FETCH,
    FETCH,
    FETCH,
    FETCH,
    FETCH,
    FETCH,
    FETCH,
    FETCH,
    FETCH,
    FETCH,
    FETCH,
    FETCH,
    DECODE,
    DECODE,
    DECODE_M,
    DECODE_M,
    DECODE,
    DECODE,
    DECODE,
    DECODE,
    DECODE,
    DECODE,
    DECODE,
    DECODE,
    DECODE,
    DECODE,
    DECODE,
    DECODE,
    EXECUTE_S,
    EXECUTE_GOTO,
    EXECUTE_M0,
    EXECUTE_M1,
    EXECUTE_JUMP,
    EXECUTE_JUMP,
    EXECUTE_JUMP,
    EXECUTE_JUMP,
    EXECUTE_I,
    EXECUTE_I,
    EXECUTE_I,
    EXECUTE_I,
    EXECUTE_I,
    EXECUTE_I,
    EXECUTE_I,
    EXECUTE_I,
];

// Enables and selects go by the stage and bits 11..8 alone, but for a jump that is taken: they are those of the word that has bits 11..8 and
// zeros below, with no flag set.
fn entry_at(stage: Stage, top: u8) -> u16
    requires { top < 16 }
    ensures { (result / 4 ≡ (control_row (top * 2 ^ 8) stage 0).enables)
        × (result / 2 % 2 ≡ (control_row (top * 2 ^ 8) stage 0).mux1)
        × (result % 2 ≡ (control_row (top * 2 ^ 8) stage 0).mux2) }
{
    CONTROL[stage.number() * 16 + top as usize]
}

// The row of an entry, with what it leaves open: the mode, and whether a jump is taken, for which MUX1 is 0.
fn row_with(entry: u16, mode: u8, taken: bool) -> ControlRow
    ensures { result ≡ row_with (entry / 4) mode (if taken then 0 else entry / 2 % 2) (entry % 2) }
{
    ControlRow {
        enables: entry / 4,
        mode,
        mux1: if taken { 0 } else { (entry / 2 % 2) as u8 },
        mux2: (entry % 2) as u8,
    }
}

// The row of a word at a stage. "mode" is a field of M and I; MUX1 of a jump is "1 - SR bit f", the INVERSE of its flag.
pub(crate) fn control_row(word: u16, stage: Stage, sr: u8) -> ControlRow
    ensures { result ≡ control_row word stage sr }
{
    let entry = entry_at(stage, bits(11, 8, word));
    let instruction = instruction_at(word);
    match stage {
        Stage::Fetch | Stage::Decode => row_with(entry, 0, false),
        Stage::Execute => match instruction {
            Instruction::S { .. } | Instruction::Goto { .. } => row_with(entry, 0, false),
            Instruction::M { mode, .. } | Instruction::I { mode, .. } => {
                row_with(entry, mode, false)
            }
            Instruction::JumpIf { flag, .. } => {
                row_with(entry, 0, is_set(flag as u16, sr as u16))
            }
        },
    }
}

// The control row of a word at a stage, with the flags in SR. Refuses 10: word above 4095; then 13: SR above 15.
#[tactic(auto, unfolding(crate::specs::Control::controlled))]
pub fn row(word: u16, stage: Stage, sr: u8) -> Result<ControlRow, Refusal>
    ensures { RowPromise word stage sr result }
{
    if 4095 < word {
        return Err(Refusal::WordAbove4095);
    }
    if 15 < sr {
        return Err(Refusal::RegisterOutOfRange);
    }
    Ok(control_row(word, stage, sr))
}
