// Lines: a record read by its row of the table of operations.
ghost use Rattle.std.specs.Prelude.{◌≡◌, ◌<◌, ◌≤◌, if◌then◌else◌, nat_eq};
ghost use Rattle.chip_core.specs.Refusal.{first_broken, number_and_values, answered};
ghost use Rattle.deck.specs.Bytes.{line_count};
ghost use Rattle.deck.specs.Deck.{bound_checks};
ghost use Rattle.deck.specs.Operation.{operation_at};
ghost use Rattle.deck.specs.Records.{line_refusal, record_read};

use super::bytes::Record;
use super::decks::{AcceptedDeck, CompleteDeck};
use super::operation::Operation;
use chip_core::address::DataAddress;
use chip_core::refusal::Refusal;

// The second bytes of a jump are below this: GOTO has 0 there, the others a flag. The operation is a byte as the deck has it.
fn jump_seconds(operation: u8) -> u8
    ensures { result ≡ (if nat_eq operation 24 then 1 else 4) }
{
    if operation == 24 { 1 } else { 4 }
}

impl Record {
    // A line that is no jump: its second byte and its operand are below the bounds of its row, or it is refused.
    fn bounded(self, seconds: u8, operands: u16, means: Operation) -> Result<Operation, Refusal>
        ensures { number_and_values result ≡ answered (first_broken (bound_checks seconds operands self.second self.operand)) means }
    {
        if seconds <= self.second {
            return Err(Refusal::SecondByteNotAllowed);
        }
        if operands <= self.operand as u16 {
            return Err(Refusal::OperandNotAllowed);
        }
        Ok(means)
    }

    // "For a jump whose second byte is allowed, the label is looked up first, and a missing one ends the translation with 7."
    #[tactic(auto, unfolding(crate::specs::Operation::row_of, crate::specs::Operation::looked_up))]
    fn jump(self, deck: CompleteDeck<'_>) -> Result<Operation, Refusal>
        requires { (24 ≤ self.operation) × (self.operation < 27) }
        ensures { number_and_values result ≡ record_read deck.entry.bytes.now self }
    {
        if jump_seconds(self.operation) <= self.second {
            return Err(Refusal::SecondByteNotAllowed);
        }
        let Some(line) = deck.look_up(self.operand) else {
            return Err(Refusal::OperandNotAllowed);
        };
        let flag = self.second;
        match self.operation {
            24 => Ok(Operation::Goto { line }),
            25 => Ok(Operation::JumpIf { flag, line }),
            _ => Ok(Operation::JumpUnless { flag, line }),
        }
    }

    // The table of operations, row by row. NOP is what is left, and stands last: a 27 by itself would be asked for before all else, at each line that is read.
    #[tactic(auto, unfolding(crate::specs::Operation::row_of))]
    fn read(self, deck: CompleteDeck<'_>) -> Result<Operation, Refusal>
        ensures { number_and_values result ≡ record_read deck.entry.bytes.now self }
    {
        match self.operation {
            0..=15 => {
                let cell = DataAddress(self.operand);
                let means = Operation::M {
                    d: self.second,
                    mode: self.operation,
                    cell,
                };
                self.bounded(2, 16, means)
            }
            16..=23 => {
                let means = Operation::I {
                    mode: self.operation - 16,
                    immediate: self.operand,
                };
                self.bounded(1, 256, means)
            }
            24..=26 => self.jump(deck),
            28.. => Err(Refusal::OperationAbove27),
            _ => self.bounded(1, 1, Operation::Nop),
        }
    }
}

impl CompleteDeck<'_> {
    // A line, or the first rule that it breaks.
    #[tactic(auto, unfolding(crate::specs::Operation::operation_at, crate::specs::Records::line_refusal))]
    pub(crate) fn read_line(self, line: u16) -> Result<Operation, Refusal>
        requires { line < line_count self.bytes.now }
        ensures { number_and_values result ≡ answered (line_refusal self.entry.bytes.now line) (operation_at self.entry.bytes.now line) }
    {
        self.record(line).read(self)
    }
}

impl AcceptedDeck<'_> {
    // A line: none of an accepted deck is refused.
    #[tactic(auto, using(crate::proofs::Sound::sound, chip_core::proofs::Answered::is_ok))]
    pub(crate) fn operation_at(self, line: u16) -> Operation
        requires { line < line_count self.bytes.now }
        ensures { result ≡ operation_at self.entry.bytes.now line }
    {
        self.complete().read_line(line).unwrap()
    }
}
