// Words: "Each field is cut from the word by position", by shifts and masks, and joined again.
ghost use Rattle.std.specs.Prelude.{◌≡◌, ◌+◌, ◌-◌, ◌*◌, ◌^◌, ◌<◌, ◌≤◌, true};
ghost use Rattle.chip_core.specs.Word.{bits, is_set, instruction_at, fits, in_range, word_of, FlagPromise, DecodePromise, EncodePromise};

use super::address::{DataAddress, ProgramAddress};
use super::refusal::Refusal;

// The kinds of document 01's table of words, with its fields. The fields are numbers, and not enums, since `encode` refuses those that are out of their range
// with 14 (`EncodePromise`).
#[derive(Clone, Copy, Debug, PartialEq, Eq)]
pub enum Instruction {
    S { k: u8 },
    Goto { target: ProgramAddress },
    M { d: u8, mode: u8, cell: DataAddress },
    JumpIf { flag: u8, target: ProgramAddress },
    I { mode: u8, immediate: u8 },
}

// Bits high..low of a word, at most eight of them.
#[tactic(auto, using(crate::proofs::Field::mask_fits, crate::proofs::Field::cut, crate::proofs::Field::bits_lt))]
pub(crate) fn bits(high: u16, low: u16, word: u16) -> u8
    requires { (low ≤ high) × (high < 16) × (high < low + 8) }
    ensures { result ≡ bits high low word }
{
    let mask = (2 << (high - low)) - 1;
    (word >> low & mask) as u8
}

// Bit k of a number.
pub(crate) fn is_set(k: u16, number: u16) -> bool
    requires { k < 16 }
    ensures { result ≡ is_set k number }
{
    number >> k & 1 == 1
}

// Two fields side by side: high above the width bits of low.
fn join(high: u16, low: u16, width: u16) -> u16
    requires { (width < 16) × (high < 2 ^ (16 - width)) × (low < 2 ^ width) }
    ensures { result ≡ high * 2 ^ width + low }
{
    high << width | low
}

// The table of words, left to right: the pattern of bits 11..8 picks the kind.
#[tactic(auto, using(crate::proofs::Kind::at_s, crate::proofs::Kind::at_goto, crate::proofs::Kind::at_m, crate::proofs::Kind::at_jump_if, crate::proofs::Kind::at_i))]
pub(crate) fn instruction_at(word: u16) -> Instruction
    ensures { result ≡ instruction_at word }
{
    let kind = bits(11, 8, word);
    match kind {
        0b0000 => Instruction::S {
            k: bits(7, 0, word),
        },
        0b0001 => Instruction::Goto {
            target: ProgramAddress(bits(7, 0, word)),
        },
        0b0010..=0b0011 => Instruction::M {
            d: bits(8, 8, word),
            mode: bits(7, 4, word),
            cell: DataAddress(bits(3, 0, word)),
        },
        0b0100..=0b0111 => Instruction::JumpIf {
            flag: bits(9, 8, word),
            target: ProgramAddress(bits(7, 0, word)),
        },
        _ => Instruction::I {
            mode: bits(10, 8, word),
            immediate: bits(7, 0, word),
        },
    }
}

// The instruction at a word. Refuses 10: word above 4095. It has a name of its own, as `encode` has, and is no `try_from`: both are public, and
// document 01 names the decoder and the encoder (`DecodePromise`, `EncodePromise`).
#[tactic(auto, unfolding(crate::specs::Word::decoded))]
pub fn decode(word: u16) -> Result<Instruction, Refusal>
    ensures { DecodePromise word result }
{
    if 4095 < word {
        return Err(Refusal::WordAbove4095);
    }
    Ok(instruction_at(word))
}

// Whether a field stays within its width.
#[tactic(auto, using(crate::proofs::Field::power))]
fn fits(width: u16, field: u8) -> bool
    requires { width < 16 }
    ensures { result ≡ fits width field }
{
    (field as u16) < 1 << width
}

// Whether each field stays within the bits that the table gives it.
#[tactic(auto, unfolding(crate::specs::Word::in_range))]
fn in_range(instruction: Instruction) -> bool
    ensures { result ≡ in_range instruction }
{
    match instruction {
        Instruction::S { k } => fits(8, k),
        Instruction::Goto { target } => fits(8, target.0),
        Instruction::M { d, mode, cell } => fits(1, d) & fits(4, mode) & fits(4, cell.0),
        Instruction::JumpIf { flag, target } => fits(2, flag) & fits(8, target.0),
        Instruction::I { mode, immediate } => fits(3, mode) & fits(8, immediate),
    }
}

// The table of words, right to left.
#[tactic(auto, unfolding(crate::specs::Word::word_of))]
fn word_of(instruction: Instruction) -> u16
    requires { in_range instruction ≡ true }
    ensures { result ≡ word_of instruction }
{
    match instruction {
        Instruction::S { k } => join(0b0000, k as u16, 8),
        Instruction::Goto { target } => join(0b0001, target.0 as u16, 8),
        Instruction::M { d, mode, cell } => join(
            join(0b001, d as u16, 1),
            join(mode as u16, cell.0 as u16, 4),
            8,
        ),
        Instruction::JumpIf { flag, target } => {
            join(join(0b01, flag as u16, 2), target.0 as u16, 8)
        }
        Instruction::I { mode, immediate } => join(join(0b1, mode as u16, 3), immediate as u16, 8),
    }
}

// The word of an instruction. Refuses 14: a field outside its range.
#[tactic(auto, unfolding(crate::specs::Word::encoded))]
pub fn encode(instruction: Instruction) -> Result<u16, Refusal>
    ensures { EncodePromise instruction result }
{
    if !in_range(instruction) {
        return Err(Refusal::FieldOutOfRange);
    }
    Ok(word_of(instruction))
}

// Whether a flag of SR is 1: 0 = O, 1 = S, 2 = C, 3 = Z. A flag above 7 is no bit of a byte, and is 0: the promise is of
// every number (`FlagPromise`).
#[tactic(auto, unfolding(crate::specs::Word::flag))]
pub fn is_flag_set(flag: u8, sr: u8) -> bool
    ensures { FlagPromise flag sr result }
{
    if 7 < flag {
        return false;
    }
    is_set(flag as u16, sr as u16)
}
