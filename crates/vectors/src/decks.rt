// Decks: what the check, the translator, the listing and the line runner answer, and what they leave in the memory that they are lent.
use super::answer::{NO_LINES, parts};
use super::fold::Digest;
use super::generated::{mixed_deck, nop_deck};
use chip_core::refusal::Refusal;
use deck::check::check;
use deck::lines::run_lines;
use deck::listing::listing;
use deck::translate::translate;
use std::fmt::Display;
use std::{array, io};

const SMALL: [(&str, &[u8]); 24] = [
    // Document 01's decks of three bytes and of none.
    ("of no lines", b"\x00\x00\x00"),
    ("of no bytes", b""),
    ("of 257 lines", b"\x00\x01\x01"),
    // One deck for each number that a small deck can be refused with.
    ("without its labels", b"\x02\x00\x00\x00"),
    ("without its count", b"\x01\x00\x00\x01"),
    ("without its records", b"\x00\x01\x00\x1B\x00"),
    ("with a byte more", b"\x00\x01\x00\x1B\x00\x00\x00"),
    (
        "with a label past the lines",
        b"\x01\x01\x00\x01\x00\x1B\x00\x00",
    ),
    ("with operation 28", b"\x00\x01\x00\x1C\x00\x00"),
    ("with a second byte 2", b"\x00\x01\x00\x00\x02\x10"),
    ("with cell 16", b"\x00\x01\x00\x00\x01\x10"),
    ("with label K", b"\x01\x00\x00\x01\x00\x18\x00\x01"),
    ("with a NOP 1", b"\x00\x01\x00\x1B\x00\x01"),
    (
        "with a label at line 256",
        b"\x01\x00\x01\x01\x00\x1B\x00\x00",
    ),
    // Second bytes that are not allowed, for each kind of operation but M.
    ("with I and a second byte 1", b"\x00\x01\x00\x10\x01\x00"),
    (
        "with GOTO and a second byte 1",
        b"\x01\x00\x00\x01\x00\x18\x01\x00",
    ),
    ("with jump if flag 4", b"\x01\x00\x00\x01\x00\x19\x04\x00"),
    (
        "with jump unless flag 4",
        b"\x01\x00\x00\x01\x00\x1A\x04\x00",
    ),
    ("with NOP and a second byte 1", b"\x00\x01\x00\x1B\x01\x00"),
    // Several rules broken at once: the first of them in document 01's order gives its number.
    ("with 4 and 5", b"\x01\x01\x00\x01\x00\x1C\x00\x00"),
    ("with 5, 6 and 7", b"\x00\x01\x00\x1C\xFF\xFF"),
    ("with 6 and 7", b"\x00\x01\x00\x1B\x01\x01"),
    ("with 7, then 5", b"\x00\x02\x00\x1B\x00\x01\x1C\x00\x00"),
    ("with 2 and 4", b"\x01\x01\x00\x01\x00\x1B\x00\x00\x00"),
];

// Document 01's example deck.
const EXAMPLE: &[u8] = b"\x01\x01\x00\x03\x00\x13\x00\x03\x11\x00\x01\x1A\x03\x00";

pub(crate) fn print_decks(rt: &impl Print) -> io::Result<()> {
    for (name, deck) in SMALL {
        print_deck(rt, name, deck)?;
    }
    // L 257 in a deck of 1,000 bytes.
    let mut long = [0; 1000];
    long[1] = 1;
    long[2] = 1;
    print_deck(rt, "with 3 and 2", &long)?;
    print_labels(rt)?;
    print_top(rt)?;
    // Decks of 64 lines with all operations.
    for number in 0..12 {
        print_deck(rt, "mixed", &mixed_deck(number))?;
    }
    print_example(rt)
}

// 255 labels, and one line that goes to the last of them.
fn print_labels(rt: &impl Print) -> io::Result<()> {
    let mut deck = [0; 516];
    deck[0] = 255;
    deck[511] = 1;
    deck[513] = 24;
    deck[515] = 254;
    print_deck(rt, "of 255 labels", &deck)?;
    print_asked(rt, &deck, 70_000)
}

// "One label, at line 0. 256 NOP lines: accepted. 254, then one operation 26 on Z: accepted, word 254 is 700. 255, then one operation 26: 8."
fn print_top(rt: &impl Print) -> io::Result<()> {
    let jump_unless_z = [26, 3, 0];
    let all: [u8; 773] = nop_deck(256, [27, 0, 0]);
    print_deck(rt, "of 256 NOPs", &all)?;
    let fits: [u8; 770] = nop_deck(255, jump_unless_z);
    print_deck(rt, "of 254 NOPs and a jump unless Z", &fits)?;
    let over: [u8; 773] = nop_deck(256, jump_unless_z);
    print_deck(rt, "of 255 NOPs and a jump unless Z", &over)?;
    // 9 and 12 come after the refusals of a deck.
    print_room(rt, &over, &mut [0xFFFF; 3])?;
    print_cells(rt, &over, &mut [1; 15])
}

// The example with outputs as long as it wants and one item shorter, with sixteen cells, fewer and more, and line by line.
fn print_example(rt: &impl Print) -> io::Result<()> {
    print_deck(rt, "example", EXAMPLE)?;
    print_room(rt, EXAMPLE, &mut [0xFFFF; 4])?;
    print_room(rt, EXAMPLE, &mut [0xFFFF; 3])?;
    print_cells(rt, EXAMPLE, &mut [1; 15])?;
    print_cells(rt, EXAMPLE, &mut [1; 16])?;
    print_cells(rt, EXAMPLE, &mut [1; 17])?;
    print_text(rt, EXAMPLE, &mut [0xFF; 36])?;
    print_text(rt, EXAMPLE, &mut [0xFF; 35])?;
    for asked in 0..9 {
        print_asked(rt, EXAMPLE, asked)?;
    }
    print_asked(rt, EXAMPLE, u32::MAX)
}

fn print_deck(rt: &impl Print, name: &str, deck: &[u8]) -> io::Result<()> {
    let (refusal, ()) = parts(check(deck), ());
    print!(rt; "deck {name}: check {refusal}, ")?;
    print_translation(rt, deck, &mut [0xFFFF; 300])?;
    print!(rt; ", ")?;
    print_listing(rt, deck, &mut [0xFF; 2000])?;
    print_lines(rt, deck, 1000)
}

fn print_room(rt: &impl Print, deck: &[u8], words: &mut [u16]) -> io::Result<()> {
    print!(rt; "output of {}: ", words.len())?;
    print_translation(rt, deck, words)?;
    println!(rt; "")
}

fn print_text(rt: &impl Print, deck: &[u8], text: &mut [u8]) -> io::Result<()> {
    print!(rt; "text of {}: ", text.len())?;
    print_listing(rt, deck, text)?;
    println!(rt; "")
}

fn print_asked(rt: &impl Print, deck: &[u8], asked: u32) -> io::Result<()> {
    print!(rt; "asked {asked}")?;
    print_lines(rt, deck, asked)
}

fn print_cells(rt: &impl Print, deck: &[u8], cells: &mut [u8]) -> io::Result<()> {
    let (refusal, run) = parts(run_lines(deck, cells, 1000), NO_LINES);
    println!(rt;
        "cells {}: lines {refusal} {} {} {}",
        cells.len(),
        run.lines,
        run.clocks,
        Digest::of(cells)
    )
}

fn print_translation(rt: &impl Print, deck: &[u8], words: &mut [u16]) -> io::Result<()> {
    let answer = translate(deck, words);
    print_written(rt, "translate", answer, words)
}

fn print_listing(rt: &impl Print, deck: &[u8], text: &mut [u8]) -> io::Result<()> {
    let answer = listing(deck, text);
    print_written(rt, "listing", answer, text)
}

// What a call that writes answered, the count or its refusal, and what it left.
fn print_written<C, T>(
    rt: &impl Print,
    name: &str,
    answer: Result<C, Refusal>,
    left: &[T],
) -> io::Result<()>
where
    C: Copy + Default + Display + Drop,
    T: Copy + Into<u32>,
{
    let (refusal, count) = parts(answer, C::default());
    print!(rt; "{name} {refusal} {count} {}", Digest::of(left))
}

fn print_lines(rt: &impl Print, deck: &[u8], asked: u32) -> io::Result<()> {
    let mut cells: [u8; 16] = array::from_fn(|i| 3 + 7 * i as u8);
    let (refusal, run) = parts(run_lines(deck, &mut cells, asked), NO_LINES);
    println!(rt;
        ", lines {refusal} {} {} {} {} {} {} {}",
        run.lines,
        run.clocks,
        run.acc,
        run.flags,
        run.position,
        run.pc.0,
        Digest::of(&cells)
    )
}
