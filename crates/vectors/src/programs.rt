// 003's four test programs, run from a fresh load until each has made its last GOTO once: accumulator, PC and cells are those of 003's "meaning".
use super::trace::print_trace;
use chip_core::clock::run;
use chip_core::machine::fresh;
use std::io;

// An image, and the clocks that it is run for.
#[derive(Clone, Copy)]
pub(crate) struct Program {
    pub(crate) name: &'static str,
    pub(crate) image: &'static [u16],
    pub(crate) clocks: u8,
}

// Program loading, accumulator, and memory loading, GOTO.
const TEST_1: Program = Program {
    name: "test 1",
    image: &[0x000, 0xB01, 0x220, 0xB00, 0x330, 0x105],
    clocks: 18,
};

// Addition and subtraction (M type).
const TEST_2: Program = Program {
    name: "test 2",
    image: &[
        0x000, 0xB01, 0x220, 0x300, 0x200, 0x310, 0x210, 0x370, 0x270, 0x109,
    ],
    clocks: 30,
};

// Logic operation (M type).
const TEST_3: Program = Program {
    name: "test 3",
    image: &[
        0x000, 0xB05, 0x220, 0x221, 0x222, 0xB03, 0x240, 0x251, 0x262, 0x109,
    ],
    clocks: 30,
};

// Addition, subtraction, logic operation (I type).
const TEST_4: Program = Program {
    name: "test 4",
    image: &[
        0x000, 0xB01, 0xA00, 0x807, 0x906, 0xF07, 0xC03, 0xD05, 0xE03, 0x109,
    ],
    clocks: 30,
};

// The image of document 01's example deck.
const EXAMPLE: Program = Program {
    name: "the example",
    image: &[0xB03, 0x901, 0x704, 0x101],
    clocks: 27,
};

// A GOTO to the last entry, which is past the image: it reads as 000, and PC steps from 255 to 0.
const LAST_ENTRY: Program = Program {
    name: "the last entry",
    image: &[0x1FF],
    clocks: 6,
};

pub(crate) fn print_programs(rt: &impl Print) -> io::Result<()> {
    for program in [TEST_1, TEST_2, TEST_3, TEST_4] {
        print_program(rt, program)?;
    }
    Ok(())
}

// The second test program has M words with d = 0 and d = 1; document 01's example has a conditional jump, twice not taken and once taken.
pub(crate) fn print_traces(rt: &impl Print) -> io::Result<()> {
    for program in [TEST_2, EXAMPLE, LAST_ENTRY] {
        print_trace(rt, program)?;
    }
    Ok(())
}

fn print_program(rt: &impl Print, program: Program) -> io::Result<()> {
    let Program {
        name,
        image,
        clocks,
    } = program;
    let machine = fresh();
    let mut cells = [0; 16];
    let end = run(machine, image, &mut cells, clocks as u64).unwrap_or(machine);
    print!(rt; "{name}: acc {:02x}, pc {:02x}, cells", end.acc, end.pc.0)?;
    for cell in cells {
        print!(rt; " {cell:02x}")?;
    }
    println!(rt; "")
}
