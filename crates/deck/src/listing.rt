// The listing of a deck, as text.
ghost use Rattle.std.specs.Prelude.{◌≡◌, ◌+◌, ◌*◌, ◌<◌, ◌≤◌, [], ◌++◌, length};
ghost use Rattle.chip_core.specs.Refusal.{accepted, number_of};
ghost use Rattle.deck.specs.Listing.{digit, decimal, word_line, word_lines, listing_of, listing_text, ListingPromise};

use super::text::Text;
use super::translate::translate;
use chip_core::refusal::Refusal;

// The length of the longest text, 1,802: `words 256` and a newline, and 256 lines of seven bytes.
pub const LONGEST_TEXT: usize = 10 + 256 * 7;

// A digit, in capitals where it is above 9. Digits are made here, and not by `write!`, since the promise says each byte (`ListingPromise`): std's clauses say
// what `write!` writes to a `String`, which wants memory from the heap, and a `Text` is no writer of std's. Each function below asks for the room that its own part
// takes, which is another number each time, so that no type can say it.
fn digit(number: u16) -> u8
    requires { number < 16 }
    ensures { result ≡ digit number }
{
    if number < 10 {
        b'0' + number as u8
    } else {
        b'A' - 10 + number as u8
    }
}

// A number below 1,000 in decimal at the end, with no zeros before it.
fn put_decimal(number: u16, text: &mut Text)
    requires { length text.old + 3 ≤ 1802 }
    ensures { text.new ≡ text.old ++ decimal number }
{
    if 100 <= number {
        text.push(digit(number / 100 % 10));
    }
    if 10 <= number {
        text.push(digit(number / 10 % 10));
    }
    text.push(digit(number % 10));
}

// "its address in two hex digits, a space and the word in three, capitals"
fn put_word_line(address: u16, word: u16, text: &mut Text)
    requires { length text.old + 7 ≤ 1802 }
    ensures { text.new ≡ text.old ++ word_line address word }
{
    let line = [
        digit(address / 16 % 16),
        digit(address % 16),
        b' ',
        digit(word / 256 % 16),
        digit(word / 16 % 16),
        digit(word % 16),
        b'\n',
    ];
    text.put(&line);
}

// The lines of all words.
#[tactic(auto, using(crate::proofs::ListingText::next_line), unfolding(crate::specs::Listing::word_lines))]
fn put_word_lines(words: &[u16], text: &mut Text)
    requires { (length words.now ≤ 256) × (length text.old + 7 * length words.now ≤ 1802) }
    ensures { text.new ≡ text.old ++ word_lines words.now (length words.now) }
{
    for (address, &word) in words.iter().enumerate() {
        put_word_line(address as u16, word, text);
    }
}

// The text for an accepted deck, put into an empty one.
#[tactic(auto, using(crate::proofs::ListingText::decimal_length), unfolding(crate::specs::Listing::listing_of))]
fn put_words(words: &[u16], text: &mut Text)
    requires { (length words.now ≤ 256) × (text.old ≡ []) }
    ensures { text.new ≡ listing_of accepted words.now }
{
    text.put(b"words ");
    put_decimal(words.len() as u16, text);
    text.push(b'\n');
    put_word_lines(words, text);
}

// The text for a refused deck, put into an empty one.
#[tactic(auto, unfolding(crate::specs::Listing::listing_of))]
fn put_refusal(refusal: Refusal, text: &mut Text)
    requires { text.old ≡ [] }
    ensures { text.new ≡ listing_of (number_of refusal) [] }
{
    text.put(b"refused ");
    put_decimal(u16::from(refusal.number()), text);
    text.push(b'\n');
}

// The text for a deck, put into an empty one: a text that is answered by value would be copied, all of its memory at each return.
fn put_listing(deck: &[u8], text: &mut Text)
    requires { text.old ≡ [] }
    ensures { text.new ≡ listing_text deck.now }
{
    // The translator writes into memory that it is lent, and answers the count (`TranslatePromise`).
    let mut image = [0u16; 256];
    match translate(deck, &mut image) {
        Ok(words) => put_words(&image[..words as usize], text),
        Err(refusal) => put_refusal(refusal, text),
    }
}

// The text of the listing program for a deck, whatever the deck is; the count of its bytes. Refuses 9: output shorter than the text.
pub fn listing(deck: &[u8], output: &mut [u8]) -> Result<usize, Refusal>
    ensures { ListingPromise deck.now output.old result output.new }
{
    let mut text = Text::new();
    put_listing(deck, &mut text);
    let bytes = text.as_bytes();
    let count = bytes.len();
    if output.len() < count {
        return Err(Refusal::OutputTooShort);
    }
    output[..count].copy_from_slice(bytes);
    Ok(count)
}
