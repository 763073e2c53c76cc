// Calls on both sides of each rule of "Arithmetic unit: 14, 13. Decoder 10, encoder 14."
use super::answer::{NOT_COMPUTED, parts};
use super::instructions::{i, jump_if, m};
use chip_core::unit::unit;
use chip_core::word::{Instruction, decode, encode};
use std::io;

pub(crate) fn print_refusals(rt: &impl Print) -> io::Result<()> {
    for (mode, sr) in [
        (0x10, 0x00),
        (0x00, 0x10),
        (0x10, 0x10),
        (0xFF, 0xFF),
        (0x0F, 0x0F),
    ] {
        print_unit(rt, mode, sr)?;
    }
    for word in [0x0FFF, 0x1000, 0xFFFF] {
        let (refusal, _) = parts(decode(word), Instruction::S { k: 0 });
        println!(rt; "decode {word:04x} -> {refusal}")?;
    }
    for (d, mode, cell) in [(1, 15, 15), (2, 0, 0), (0, 16, 0), (0, 0, 16)] {
        print!(rt; "encode M {d} {mode} {cell}")?;
        print_encoded(rt, m(d, mode, cell))?;
    }
    for (flag, target) in [(3, 255), (4, 0)] {
        print!(rt; "encode J {flag} {target}")?;
        print_encoded(rt, jump_if(flag, target))?;
    }
    for (mode, immediate) in [(7, 255), (8, 0)] {
        print!(rt; "encode I {mode} {immediate}")?;
        print_encoded(rt, i(mode, immediate))?;
    }
    Ok(())
}

// The number, then the result and the flags, which are 0 where the call is refused. Mode and SR are numbers, since both are asked out of range.
fn print_unit(rt: &impl Print, mode: u8, sr: u8) -> io::Result<()> {
    let (refusal, computed) = parts(unit(mode, 0x12, 0x34, sr), NOT_COMPUTED);
    println!(rt;
        "unit {mode:02x}, {sr:02x} -> {refusal}, {:02x}, {:x}",
        computed.result, computed.flags
    )
}

// The number, then the word, which is 0 where the call is refused.
fn print_encoded(rt: &impl Print, instruction: Instruction) -> io::Result<()> {
    let (refusal, word) = parts(encode(instruction), 0);
    println!(rt; " -> {refusal}, {word:03x}")
}
