// Document 01's "Numbers to meet": its starred rows, in its order.
use super::answer::NOT_COMPUTED;
use chip_core::unit::unit;
use chip_core::word::{Instruction, decode};
use std::io;

// Mode; a, b, flags before. "modes 8, 9 and F ignore a, which is 00 in these rows."
const ROWS: [(u8, u8, u8, u8); 12] = [
    (0x0, 0x80, 0x80, 0x0),
    (0x1, 0x02, 0x03, 0x0),
    (0x7, 0xFF, 0xFC, 0x0),
    (0x8, 0x00, 0x7F, 0x0),
    (0x9, 0x00, 0x00, 0x0),
    (0xA, 0x01, 0x80, 0x5),
    (0xC, 0x09, 0x81, 0x3),
    (0xD, 0x03, 0x04, 0x0),
    (0xE, 0x01, 0x81, 0x0),
    (0xE, 0x00, 0x80, 0xD),
    (0xF, 0x00, 0x80, 0x0),
    (0xF, 0x00, 0x00, 0x0),
];

pub(crate) fn print_numbers(rt: &impl Print) -> io::Result<()> {
    for (mode, a, b, before) in ROWS {
        let answer = unit(mode, a, b, before).unwrap_or(NOT_COMPUTED);
        println!(rt;
            "mode {mode:x}: {a:02x}, {b:02x}, {before:x} -> {:02x}, {:x}",
            answer.result, answer.flags
        )?;
    }
    print_word(rt, 0x704)?;
    print_word(rt, 0x404)
}

fn print_word(rt: &impl Print, word: u16) -> io::Result<()> {
    match decode(word) {
        Ok(Instruction::JumpIf { flag, target }) => {
            println!(rt; "{word:03x} is jump if {flag} to {:02x}", target.0)
        }
        Ok(_) => println!(rt; "{word:03x} is no jump if flag"),
        Err(_) => println!(rt; "{word:03x} is refused"),
    }
}
