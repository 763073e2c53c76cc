// The state before the first clock and after each: stage, registers and the control row of the state as it stands.
use super::answer::NO_ROW;
use super::programs::Program;
use chip_core::clock::clock;
use chip_core::control::{ControlRow, Stage, row};
use chip_core::machine::{Machine, fresh};
use std::io;

pub(crate) fn print_trace(rt: &impl Print, program: Program) -> io::Result<()> {
    let Program {
        name,
        image,
        clocks,
    } = program;
    println!(rt; "trace of {name}: clock stage pc ir dr acc sr enables mode mux1 mux2")?;
    let mut cells = [0; 16];
    let mut machine = fresh();
    print_state(rt, 0, machine)?;
    for made in 1..=clocks {
        machine = clock(machine, image, &mut cells).unwrap_or(machine);
        print_state(rt, made, machine)?;
    }
    Ok(())
}

fn print_state(rt: &impl Print, number: u8, machine: Machine) -> io::Result<()> {
    print!(rt;
        "{number:02} {} {:02x} {:03x} {:02x} {:02x} {:x} ",
        name_of(machine.stage),
        machine.pc.0,
        machine.ir,
        machine.dr,
        machine.acc,
        machine.sr
    )?;
    let row = row(machine.ir, machine.stage, machine.sr).unwrap_or(NO_ROW);
    print_row(rt, row, " ")
}

// As the trace prints it, in capitals, which `Debug` does not.
fn name_of(stage: Stage) -> &'static str {
    match stage {
        Stage::Fetch => "FETCH",
        Stage::Decode => "DECODE",
        Stage::Execute => "EXECUTE",
    }
}

// The nine enables as digits, bit 8 first, the mode and the two selects.
pub(crate) fn print_row(rt: &impl Print, row: ControlRow, between: &str) -> io::Result<()> {
    println!(rt;
        "{:09b}{between}{:x}{between}{}{between}{}",
        row.enables, row.mode, row.mux1, row.mux2
    )
}
