// Digests of the core's answers: the unit in each mode and the decoder on each word, and the encoder on fields in and out of range.
use super::fold::Digest;
use super::instructions::{goto, i, jump_if, m};
use chip_core::unit::unit;
use chip_core::word::{Instruction, decode, encode};
use std::io;

pub(crate) fn print_digests(rt: &impl Print) -> io::Result<()> {
    for mode in 0..16 {
        let digest = of_mode(mode);
        println!(rt; "digest of mode {mode:x}: {digest}")?;
    }
    println!(rt; "digest of decode: {}", of_decoder())?;
    println!(rt; "digest of encode: {}", of_encoder())
}

// Each a and b; SR is 0 and then 15. A mode is a number, as `unit` takes it.
fn of_mode(mode: u8) -> Digest {
    (0..=u16::MAX).fold(Digest::START, |digest, n| {
        let [a, b] = n.to_be_bytes();
        digest
            .fold_computed(unit(mode, a, b, 0))
            .fold_computed(unit(mode, a, b, 15))
    })
}

fn of_decoder() -> Digest {
    (0..=u16::MAX).fold(Digest::START, |digest, word| {
        digest.fold_decoded(decode(word))
    })
}

// Each k and target, d below 4 with mode and cell below 32, and each flag and mode with the least and the most beside it.
fn of_encoder() -> Digest {
    let mut digest = Digest::START;
    for k in 0..=u8::MAX {
        digest = digest.fold_encoded(encode(Instruction::S { k }));
    }
    for target in 0..=u8::MAX {
        digest = digest.fold_encoded(encode(goto(target)));
    }
    for d in 0..4 {
        for mode in 0..32 {
            for cell in 0..32 {
                digest = digest.fold_encoded(encode(m(d, mode, cell)));
            }
        }
    }
    for flag in 0..=u8::MAX {
        digest = digest
            .fold_encoded(encode(jump_if(flag, 0)))
            .fold_encoded(encode(jump_if(flag, 255)));
    }
    for mode in 0..=u8::MAX {
        digest = digest
            .fold_encoded(encode(i(mode, 0)))
            .fold_encoded(encode(i(mode, 255)));
    }
    digest
}
