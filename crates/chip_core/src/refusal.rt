// Document 01's refusals, each with its number: this is their one place in the code, as specs/Refusal.antt is among the definitions.
ghost use Rattle.std.specs.Prelude.{Some};
ghost use Rattle.chip_core.specs.Refusal.{NumberPromise, printed};

use std::error::Error;
use std::fmt;

// The rule that is the first one broken.
#[derive(Clone, Copy, Debug, PartialEq, Eq)]
pub enum Refusal {
    // "deck shorter than its counts"
    DeckTooShort = 1,
    // "bytes after the lines"
    BytesAfterLines = 2,
    // "L above 256"
    LinesAbove256 = 3,
    // "a label's line not below L"
    LabelNotBelowLines = 4,
    // "operation above 27"
    OperationAbove27 = 5,
    // "second byte not allowed"
    SecondByteNotAllowed = 6,
    // "operand not allowed: cell above 15, label not below K, NOP operand not 0"
    OperandNotAllowed = 7,
    // "W above 256"
    WordsAbove256 = 8,
    // "output shorter than W"
    OutputTooShort = 9,
    // "word above 4095"
    WordAbove4095 = 10,
    // "image above 256 words"
    ImageAbove256Words = 11,
    // "not exactly 16 cells"
    NotSixteenCells = 12,
    // "SR above 15 or IR above 4095"
    RegisterOutOfRange = 13,
    // "an instruction field or mode outside its range"
    FieldOutOfRange = 14,
    // "one instruction asked for when FETCH is not next"
    FetchNotNext = 33,
}

impl Refusal {
    // The number in document 01's table.
    pub fn number(self) -> u8
        ensures { NumberPromise self result }
    {
        self as u8
    }
}

impl fmt::Display for Refusal {
    ghost output = { λ refusal. Some (printed refusal) };

    fn fmt<W: fmt::Write>(&self, f: &mut fmt::Formatter<W>) -> fmt::Result {
        write!(f, "refused {}", self.number())
    }
}

impl Error for Refusal {}
