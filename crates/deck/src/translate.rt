// The translator: an accepted deck to the words of its image.
ghost use Rattle.std.specs.Prelude.{◌≡◌, suc, ◌+◌, ◌%◌, ◌<◌, ◌≤◌, true, length, slice_set};
ghost use Rattle.chip_core.specs.Word.{program_address, in_range, word_of};
ghost use Rattle.deck.specs.Bytes.{line_count};
ghost use Rattle.deck.specs.Image.{address, total_words, line_words, image};
ghost use Rattle.deck.specs.Operation.{program};
ghost use Rattle.deck.specs.Private.{first_of, Lands, overwritten};
ghost use Rattle.deck.specs.Translate.{starting_with, TranslatePromise};

use super::check::accept;
use super::decks::AcceptedDeck;
use super::operation::Operation;
use chip_core::address::ProgramAddress;
use chip_core::refusal::Refusal;
use chip_core::word::{Instruction, encode};

// Writes one word, and gives the place after it. Places and addresses are below 256 where there is a word, and 256 is the one past the last: so they are wider than a
// `ProgramAddress`, and each function asks for what it needs.
#[tactic(auto, using(chip_core::proofs::Answered::encoded_in_range, chip_core::proofs::Answered::no_zero))]
fn write(instruction: Instruction, place: u16, output: &mut [u16]) -> u16
    requires { (place < 256) × (place < length output.old) × (in_range instruction ≡ true) }
    ensures { (result ≡ place + 1) × (output.new ≡ slice_set output.old place (word_of instruction)) }
{
    output[place as usize] = encode(instruction).unwrap();
    place + 1
}

// Where a jump to a line goes.
#[tactic(auto, using(crate::proofs::Addresses::address_lt, crate::proofs::Sound::sound))]
fn target_of(deck: AcceptedDeck<'_>, line: u16) -> ProgramAddress
    requires { line < line_count deck.bytes.now }
    ensures { result ≡ program_address (address (program deck.entry.bytes.now) line) }
{
    ProgramAddress(deck.address_of(line) as u8)
}

// "jump if f to (p+2) mod 256": past the GOTO that comes after it. For an operation 26 in the last two words of the memory that is address 0.
fn skip_target(here: u16) -> ProgramAddress
    requires { here < 256 }
    ensures { result ≡ program_address ((here + 2) % 256) }
{
    ProgramAddress(((here + 2) % 256) as u8)
}

// The first instruction of a line at an address; the only one of most.
fn first_of(deck: AcceptedDeck<'_>, operation: Operation, here: u16) -> Instruction
    requires { Lands (line_count deck.bytes.now) operation × (here < 256) }
    ensures { result ≡ first_of (program deck.entry.bytes.now) here operation }
{
    match operation {
        Operation::M { d, mode, cell } => Instruction::M { d, mode, cell },
        Operation::I { mode, immediate } => Instruction::I { mode, immediate },
        Operation::Goto { line } => Instruction::Goto {
            target: target_of(deck, line),
        },
        Operation::JumpIf { flag, line } => Instruction::JumpIf {
            flag,
            target: target_of(deck, line),
        },
        Operation::JumpUnless { flag, .. } => Instruction::JumpIf {
            flag,
            target: skip_target(here),
        },
        Operation::Nop => Instruction::S { k: 0 },
    }
}

// Writes the words of a line at its address, and gives the address of the next line. Operation 26 has a second word, "GOTO the label's address".
#[tactic(auto, using(crate::proofs::Addresses::address_lt, crate::proofs::Sound::sound, crate::proofs::Sound::line_lands, crate::proofs::LineCode::first, crate::proofs::LineCode::second))]
fn write_line(deck: AcceptedDeck<'_>, line: u16, here: u16, output: &mut [u16]) -> u16
    requires { (line < line_count deck.bytes.now) × (here ≡ address (program deck.bytes.now) line)
        × (total_words (program deck.bytes.now) ≤ length output.old) }
    ensures { (result ≡ address (program deck.entry.bytes.now) (suc line))
        × (output.new ≡ overwritten here (line_words (program deck.entry.bytes.now) line) output.old) }
{
    let operation = deck.operation_at(line);
    let after_first = write(first_of(deck, operation, here), here, output);
    let Operation::JumpUnless { line: to, .. } = operation else {
        return after_first;
    };
    let target = target_of(deck, to);
    write(Instruction::Goto { target }, after_first, output)
}

// Writes the words of all lines, and gives their count.
fn write_image(deck: AcceptedDeck<'_>, output: &mut [u16]) -> u16
    requires { total_words (program deck.bytes.now) ≤ length output.old }
    ensures { (result ≡ total_words (program deck.entry.bytes.now))
        × (output.new ≡ starting_with (image (program deck.entry.bytes.now)) output.old) }
{
    let mut here = 0;
    for line in 0..deck.line_count() {
        here = write_line(deck, line, here, output);
    }
    here
}

// The image of a deck, at the start of the output; the count of its words. Refuses 1 to 8 as `check` does, then 9: output shorter than W.
#[tactic(auto, using(crate::proofs::Parts::then_last, chip_core::proofs::Answered::no_zero), unfolding(crate::specs::Translate::translate_refusal))]
pub fn translate(deck: &[u8], output: &mut [u16]) -> Result<u16, Refusal>
    ensures { TranslatePromise deck.now output.old result output.new }
{
    let deck = accept(deck)?;
    if output.len() < deck.address_of(deck.line_count()) as usize {
        return Err(Refusal::OutputTooShort);
    }
    Ok(write_image(deck, output))
}
