// The check of a deck: "1 for K and labels, 1 for L, 3, 1 for records, 2, then 4 in label order, then line by line 5, 6, 7, then 8."
ghost use Rattle.std.specs.Prelude.{◌≡◌};
ghost use Rattle.std.specs.Result.{IfOk};
ghost use Rattle.chip_core.specs.Refusal.{first_broken, refusal_number};
ghost use Rattle.deck.specs.Deck.{layout_checks, label_checks, line_checks, words_checks, deck_refusal, CheckPromise};

use super::bytes::{line_count, line_count_at, record_at};
use super::decks::{AcceptedDeck, CompleteDeck};
use chip_core::refusal::Refusal;

// As many bytes of a deck as can alter the answer: one more than the longest that is accepted, which has K and 255 labels, L and 256 lines.
pub const MOST_BYTES: usize = 1 + 2 * 255 + 2 + 3 * 256 + 1;

// "1 for K and labels, 1 for L, 3, 1 for records, 2"
fn check_layout(deck: &[u8]) -> Result<(), Refusal>
    ensures { refusal_number result ≡ first_broken (layout_checks deck.now) }
{
    let length = deck.len();
    if length == 0 || length < line_count_at(deck) || length < record_at(deck, 0) {
        return Err(Refusal::DeckTooShort);
    }
    let lines = line_count(deck);
    let end = record_at(deck, lines);
    if 256 < lines {
        return Err(Refusal::LinesAbove256);
    }
    if length < end {
        return Err(Refusal::DeckTooShort);
    }
    if end < length {
        return Err(Refusal::BytesAfterLines);
    }
    Ok(())
}

// "4 in label order"
fn check_labels(deck: CompleteDeck<'_>) -> Result<(), Refusal>
    ensures { refusal_number result ≡ first_broken (label_checks deck.entry.bytes.now) }
{
    let lines = deck.line_count();
    for label in 0..deck.label_count() {
        if lines <= deck.label_line(label) {
            return Err(Refusal::LabelNotBelowLines);
        }
    }
    Ok(())
}

// "line by line 5, 6, 7"
fn check_lines(deck: CompleteDeck<'_>) -> Result<(), Refusal>
    ensures { refusal_number result ≡ first_broken (line_checks deck.entry.bytes.now) }
{
    for line in 0..deck.line_count() {
        deck.read_line(line)?;
    }
    Ok(())
}

// "then 8": "W above 256"
fn check_words(deck: CompleteDeck<'_>) -> Result<(), Refusal>
    ensures { refusal_number result ≡ first_broken (words_checks deck.entry.bytes.now) }
{
    if 256 < deck.address_of(deck.line_count()) {
        return Err(Refusal::WordsAbove256);
    }
    Ok(())
}

// Whether a deck is accepted, or else the first rule that it breaks: 1 to 8.
#[tactic(auto, using(crate::proofs::Parts::in_order, crate::proofs::Sound::complete, chip_core::proofs::Answered::no_zero))]
pub fn check(deck: &[u8]) -> Result<(), Refusal>
    ensures { CheckPromise deck.now result }
{
    check_layout(deck)?;
    let deck = CompleteDeck { bytes: deck };
    check_labels(deck)?;
    check_lines(deck)?;
    check_words(deck)
}

// A deck that breaks no rule, or the first one that it breaks.
#[tactic(auto, using(crate::proofs::Sound::sound))]
pub(crate) fn accept(bytes: &[u8]) -> Result<AcceptedDeck<'_>, Refusal>
    ensures number { refusal_number result ≡ deck_refusal bytes.now }
    ensures same { IfOk result (λ deck. deck.bytes.now ≡ bytes.now) }
{
    check(bytes)?;
    Ok(AcceptedDeck { bytes })
}
