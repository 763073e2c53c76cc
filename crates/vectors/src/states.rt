// Digests of rows over all words, stages and flags, and of clock, instruction and run over many states, whose cells go on from call to call.
use super::answer::parts;
use super::fold::Digest;
use chip_core::address::ProgramAddress;
use chip_core::clock::{clock, instruction, run};
use chip_core::control::{Stage, row};
use chip_core::machine::Machine;
use chip_core::refusal::Refusal;
use std::{array, io};

const STAGES: [Stage; 3] = [Stage::Fetch, Stage::Decode, Stage::Execute];

pub(crate) fn print_state_digests(rt: &impl Print) -> io::Result<()> {
    println!(rt; "digest of row: {}", of_rows())?;
    let of_clock = of_calls(any_stage, |machine, image, cells, _| {
        clock(machine, image, cells)
    });
    println!(rt; "digest of clock: {of_clock}")?;
    let of_instruction = of_calls(fetch_mostly, |machine, image, cells, _| {
        instruction(machine, image, cells)
    });
    println!(rt; "digest of instruction: {of_instruction}")?;
    let of_run = of_calls(any_stage, |machine, image, cells, n| {
        run(machine, image, cells, mixed(n, 8) as u64 % 50)
    });
    println!(rt; "digest of run: {of_run}")
}

fn of_rows() -> Digest {
    let mut digest = Digest::START;
    for sr in 0..17 {
        for stage in STAGES {
            for word in 0..4097 {
                digest = digest.fold_row(row(word, stage, sr));
            }
        }
    }
    digest
}

// A number below 65521 for n and the salt: a square of a sum of theirs, so that the fields of one state, which differ in the salt, differ by no constant.
fn mixed(n: u16, salt: u16) -> u32 {
    let a = ((n as u64) * 40503 + (salt as u64) * 9973 + 1) % 65521;
    ((a * a + (salt as u64)) % 65521) as u32
}

fn byte(n: u16, salt: u16) -> u8 {
    (mixed(n, salt) % 256) as u8
}

// IR and SR are at times out of range.
fn machine_at(n: u16, stage: Stage) -> Machine {
    Machine {
        pc: ProgramAddress(byte(n, 1)),
        ir: (mixed(n, 2) % 4160) as u16,
        dr: byte(n, 3),
        acc: byte(n, 4),
        sr: (mixed(n, 5) % 17) as u8,
        stage,
    }
}

// Each stage alike.
fn any_stage(n: u16) -> Stage {
    STAGES[mixed(n, 6) as usize % 3]
}

// FETCH in fourteen of sixteen, for an instruction, which else is refused.
fn fetch_mostly(n: u16) -> Stage {
    match mixed(n, 6) % 16 {
        14 => Stage::Decode,
        15 => Stage::Execute,
        _ => Stage::Fetch,
    }
}

fn of_calls<S, F>(stage_of: S, call: F) -> Digest
where
    S: Fn(u16) -> Stage,
    F: Fn(Machine, &[u16], &mut [u8], u16) -> Result<Machine, Refusal>,
    requires stages { S.IsAlwaysCallable stage_of }
    requires calls { F.IsAlwaysCallable call }
{
    let image: [u16; 250] = array::from_fn(|i| (mixed(i as u16, 99) % 4096) as u16);
    let mut cells: [u8; 16] = array::from_fn(|i| byte(i as u16, 7));
    let mut digest = Digest::START;
    for n in 0..10000 {
        let machine = machine_at(n, stage_of(n));
        let (refusal, after) = parts(call(machine, &image, &mut cells, n), machine);
        digest = digest.fold(refusal).fold_machine(after).fold_all(&cells);
    }
    digest
}
