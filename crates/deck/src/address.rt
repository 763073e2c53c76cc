// Addresses of lines.
ghost use Rattle.std.specs.Prelude.{◌≡◌, ◌<◌, ◌≤◌};
ghost use Rattle.deck.specs.Bytes.{line_count};
ghost use Rattle.deck.specs.Image.{address};
ghost use Rattle.deck.specs.Operation.{program, operation_at, words};

use super::decks::{AcceptedDeck, CompleteDeck};

impl CompleteDeck<'_> {
    // The "words" column: every line has one word, but operation 26 two.
    #[tactic(auto, using(crate::proofs::Rows::words_of), unfolding(crate::specs::Operation::operation_at))]
    fn words_at(self, line: u16) -> u16
        requires { line < line_count self.bytes.now }
        ensures { result ≡ words (operation_at self.entry.bytes.now line) }
    {
        if self.record(line).operation == 26 {
            2
        } else {
            1
        }
    }

    // "A line's address is the count of words before it.": counted anew for each line that is asked for, a byte a line.
    #[tactic(auto, using(crate::proofs::Addresses::address_next, crate::proofs::Addresses::words_le), unfolding(crate::specs::Image::address))]
    pub(crate) fn address_of(self, line: u16) -> u16
        requires { line ≤ line_count self.bytes.now }
        ensures { result ≡ address (program self.entry.bytes.now) line }
    {
        let mut counted = 0;
        for before in 0..line {
            counted += self.words_at(before);
        }
        counted
    }
}

// An accepted deck answers as the complete one that it is: that spares its users a `complete()`, and writes nothing twice.
impl AcceptedDeck<'_> {
    // The address of a line, or of the position past the last line.
    pub(crate) fn address_of(self, line: u16) -> u16
        requires { line ≤ line_count self.bytes.now }
        ensures { result ≡ address (program self.entry.bytes.now) line }
    {
        self.complete().address_of(line)
    }
}
