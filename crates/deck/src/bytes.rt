// Where each number of a deck stands: "Sections in a fixed order, each after its count".
ghost use Rattle.std.specs.Prelude.{◌≡◌, ◌+◌, ◌<◌, ◌≤◌, length};
ghost use Rattle.deck.specs.Bytes.{two_bytes_at, label_count, label_line, line_count_at, line_count, record_at};
ghost use Rattle.deck.specs.Records.{record_of};

use super::decks::{AcceptedDeck, CompleteDeck};

// The functions here take bytes that may be no deck, since the check of the layout reads by them, and each asks for the bytes that it reads. The methods below are
// the same of a deck that is known to have them, and ask for none.

// One of the "records of three bytes": "operation, second byte, operand".
// Bytes as they stand in a deck: which of them are allowed is found out by `read`, which refuses the others with 5, 6 and 7 (`CheckPromise`).
#[derive(Clone, Copy, Debug, PartialEq, Eq)]
pub(crate) struct Record {
    pub(crate) operation: u8,
    pub(crate) second: u8,
    pub(crate) operand: u8,
}

// "two-byte numbers low byte first"
fn two_bytes(deck: &[u8], place: usize) -> u16
    requires { place + 1 < length deck.now }
    ensures { result ≡ two_bytes_at deck.now place }
{
    u16::from_le_bytes([deck[place], deck[place + 1]])
}

// K
fn label_count(deck: &[u8]) -> u8
    requires { 0 < length deck.now }
    ensures { result ≡ label_count deck.now }
{
    deck[0]
}

// Where L stands.
pub(crate) fn line_count_at(deck: &[u8]) -> usize
    requires { 0 < length deck.now }
    ensures { (result ≡ line_count_at deck.now) × (result < 512) }
{
    1 + 2 * label_count(deck) as usize
}

// L
pub(crate) fn line_count(deck: &[u8]) -> u16
    requires { record_at deck.now 0 ≤ length deck.now }
    ensures { result ≡ line_count deck.now }
{
    two_bytes(deck, line_count_at(deck))
}

// Where the record of a line stands, or for the position past the last line where the records end.
pub(crate) fn record_at(deck: &[u8], line: u16) -> usize
    requires { 0 < length deck.now }
    ensures { result ≡ record_at deck.now line }
{
    line_count_at(deck) + 2 + 3 * line as usize
}

impl CompleteDeck<'_> {
    // K
    pub(crate) fn label_count(self) -> u8
        ensures { result ≡ label_count self.entry.bytes.now }
    {
        label_count(self.bytes)
    }

    // The line of a label.
    pub(crate) fn label_line(self, label: u8) -> u16
        requires { label < label_count self.bytes.now }
        ensures { result ≡ label_line self.entry.bytes.now label }
    {
        two_bytes(self.bytes, 1 + 2 * label as usize)
    }

    // L
    pub(crate) fn line_count(self) -> u16
        ensures { result ≡ line_count self.entry.bytes.now }
    {
        line_count(self.bytes)
    }

    // The record of a line. Lines are plain numbers, which each function over one asks to be below L: a type for them would have to be made, by the same
    // proof, of each number that a jump goes to and that a run comes to.
    pub(crate) fn record(self, line: u16) -> Record
        requires { line < line_count self.bytes.now }
        ensures { result ≡ record_of self.entry.bytes.now line }
    {
        let place = record_at(self.bytes, line);
        Record {
            operation: self.bytes[place],
            second: self.bytes[place + 1],
            operand: self.bytes[place + 2],
        }
    }
}

// An accepted deck answers as the complete one that it is: that spares its users a `complete()`, and writes nothing twice.
impl AcceptedDeck<'_> {
    // L
    pub(crate) fn line_count(self) -> u16
        ensures { result ≡ line_count self.entry.bytes.now }
    {
        self.complete().line_count()
    }
}
