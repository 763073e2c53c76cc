// Calls on both sides of each rule of "Instruction, clock and run: 11, 10, 12, 13, and for the instruction 33 last", and of a row's 10 and 13.
use super::answer::{NO_ROW, parts};
use super::trace::print_row;
use chip_core::address::ProgramAddress;
use chip_core::clock::{clock, instruction, run};
use chip_core::control::{Stage, row};
use chip_core::machine::Machine;
use chip_core::refusal::Refusal;
use std::io;

pub(crate) fn print_rows(rt: &impl Print) -> io::Result<()> {
    for (word, stage, sr) in [
        (0x0FFF, Stage::Execute, 0x0F),
        (0x1000, Stage::Execute, 0x0F),
        (0x0FFF, Stage::Execute, 0x10),
        (0x1000, Stage::Fetch, 0x10),
        (0x0704, Stage::Execute, 0x08),
        (0x0704, Stage::Execute, 0x07),
        (0x0210, Stage::Execute, 0x00),
        (0x0310, Stage::Execute, 0x00),
        (0x0210, Stage::Decode, 0x00),
    ] {
        let (refusal, row) = parts(row(word, stage, sr), NO_ROW);
        print!(rt; "row {word:04x}, {}, {sr:02x} -> {refusal}, ", stage as u8)?;
        print_row(rt, row, ", ")?;
    }
    Ok(())
}

// A call: the words of the image and the last of them, the count of cells, and the machine.
#[derive(Clone, Copy)]
struct Call {
    words: usize,
    last: u16,
    count: usize,
    machine: Machine,
}

impl Call {
    fn new(words: usize, last: u16, count: usize, sr: u8, ir: u16, stage: Stage) -> Call {
        let machine = Machine {
            pc: ProgramAddress(0x07),
            ir,
            dr: 0x21,
            acc: 0x43,
            sr,
            stage,
        };
        Call {
            words,
            last,
            count,
            machine,
        }
    }
}

pub(crate) fn print_calls(rt: &impl Print) -> io::Result<()> {
    for call in [
        Call::new(256, 0x0FFF, 16, 0x0F, 0x0FFF, Stage::Fetch),
        Call::new(257, 0x0FFF, 16, 0x0F, 0x0FFF, Stage::Fetch),
        Call::new(257, 0x1000, 15, 0x10, 0x1000, Stage::Decode),
        Call::new(256, 0x1000, 15, 0x10, 0x1000, Stage::Decode),
        Call::new(256, 0x0FFF, 15, 0x10, 0x1000, Stage::Decode),
        Call::new(256, 0x0FFF, 17, 0x00, 0x0000, Stage::Fetch),
        Call::new(256, 0x0FFF, 16, 0x10, 0x0000, Stage::Decode),
        Call::new(256, 0x0FFF, 16, 0x0F, 0x1000, Stage::Execute),
        Call::new(256, 0x0FFF, 16, 0x0F, 0x0FFF, Stage::Decode),
        Call::new(256, 0x0FFF, 16, 0x0F, 0x0FFF, Stage::Execute),
        Call::new(0, 0x0000, 16, 0x00, 0x0000, Stage::Fetch),
        Call::new(1, 0x1000, 16, 0x00, 0x0000, Stage::Fetch),
    ] {
        print_call(rt, call)?;
    }
    Ok(())
}

fn print_call(rt: &impl Print, call: Call) -> io::Result<()> {
    let Call {
        words,
        last,
        count,
        machine,
    } = call;
    print!(rt;
        "{words} words, last {last:04x}, {count} cells, sr {:02x}, ir {:04x}, stage {}: clock ",
        machine.sr, machine.ir, machine.stage as u8
    )?;
    // The most that a call has are 257 words and 17 cells.
    let mut image = [0; 257];
    let image = &mut image[..words.min(257)];
    if let Some(word) = image.last_mut() {
        *word = last;
    }
    let mut cells = [0; 17];
    let cells = &mut cells[..count.min(17)];
    print_answer(rt, cells, |cells| clock(machine, image, cells))?;
    print!(rt; ", instruction ")?;
    print_answer(rt, cells, |cells| instruction(machine, image, cells))?;
    print!(rt; ", run ")?;
    print_answer(rt, cells, |cells| run(machine, image, cells, 4))?;
    println!(rt; "")
}

// The number, and whether a refused call kept the cells.
fn print_answer<F>(rt: &impl Print, cells: &mut [u8], call: F) -> io::Result<()>
where
    F: FnOnce(&mut [u8]) -> Result<Machine, Refusal>,
    requires { F.IsAlwaysCallable call }
{
    cells.fill(0x5A);
    match call(cells) {
        Ok(_) => print!(rt; "0"),
        Err(refusal) => {
            let kept = cells.iter().all(|&cell| cell == 0x5A);
            print!(rt;
                "{} {}",
                refusal.number(),
                if kept { "kept" } else { "CHANGED" }
            )
        }
    }
}
