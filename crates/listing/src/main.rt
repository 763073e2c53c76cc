// The listing program: a deck on standard input, its listing on standard output.
#![tactic(auto)]

use deck::check::MOST_BYTES;
use deck::listing::{LONGEST_TEXT, listing};
use reading::read_full;
use std::io;

// Every deck has a text, and each fits: no listing is refused. `listing` writes into memory that it is lent, and answers the count (`ListingPromise`).
fn list(rt: &impl Print, deck: &[u8]) -> io::Result<()> {
    let mut text = [0; LONGEST_TEXT];
    match listing(deck, &mut text) {
        Ok(count) => rt.write_all(&text[..count]),
        Err(_) => Ok(()),
    }
}

fn main(rt: HostRuntime) -> io::Result<()> {
    // `read_full` reads into memory that it is lent, and answers the count (`ReadFullPromise`).
    let mut input = [0; MOST_BYTES];
    let count = read_full(&mut rt.reader(), &mut input)?;
    list(&rt, &input[..count])
}
