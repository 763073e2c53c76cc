// The agreement, for anyone to see: `agree LINES < DECK` runs so many lines of a deck, clocks its image on the machine, and says whether the two agree.
#![tactic(auto)]

mod asked;
mod report;

use agreement::agree::agree;
use asked::lines_asked;
use deck::check::MOST_BYTES;
use reading::read_full;
use report::report;
use std::io;

// Both ways begin with cells of 0.
fn read_and_compare(rt: &(impl Input + Print), lines: u32) -> io::Result<()> {
    // `read_full` reads into memory that it is lent, and answers the count (`ReadFullPromise`).
    let mut input = [0; MOST_BYTES];
    let count = read_full(&mut rt.reader(), &mut input)?;
    report(rt, agree(&input[..count], &[0; 16], lines))
}

fn print_usage(rt: &impl Eprint) -> io::Result<()> {
    eprintln!(rt;
        "usage: agree LINES < DECK, with LINES in decimal, 0 to 4294967295, at most ten digits"
    )
}

fn main(rt: HostRuntime) -> io::Result<()> {
    match lines_asked(&rt) {
        Some(lines) => read_and_compare(&rt, lines),
        None => print_usage(&rt),
    }
}
