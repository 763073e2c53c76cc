// Digests: a sequence of numbers becomes one number, which all but surely changes with any of them and with their order.
use super::answer::{NO_ROW, NOT_COMPUTED, parts};
use chip_core::control::ControlRow;
use chip_core::machine::Machine;
use chip_core::refusal::Refusal;
use chip_core::unit::Computed;
use chip_core::word::Instruction;
use std::fmt;

#[derive(Clone, Copy)]
pub(crate) struct Digest(u32);

impl Digest {
    // The digest of no number.
    pub(crate) const START: Digest = Digest(0);

    pub(crate) fn of<T: Copy + Into<u32>>(numbers: &[T]) -> Digest {
        Digest::START.fold_all(numbers)
    }

    pub(crate) fn fold(self, number: impl Into<u32>) -> Digest {
        let number: u32 = number.into();
        Digest(((self.0 as u64 * 16777619 + number as u64 + 1) % 4294967291) as u32)
    }

    pub(crate) fn fold_all<T: Copy + Into<u32>>(self, numbers: &[T]) -> Digest {
        numbers
            .iter()
            .fold(self, |digest, &number| digest.fold(number))
    }

    pub(crate) fn fold_computed(self, answer: Result<Computed, Refusal>) -> Digest {
        let (refusal, computed) = parts(answer, NOT_COMPUTED);
        self.fold(refusal as u32 * 65536 + computed.result as u32 * 256 + computed.flags as u32)
    }

    pub(crate) fn fold_encoded(self, answer: Result<u16, Refusal>) -> Digest {
        let (refusal, word) = parts(answer, 0);
        self.fold(refusal as u32 * 65536 + word as u32)
    }

    pub(crate) fn fold_row(self, answer: Result<ControlRow, Refusal>) -> Digest {
        let (refusal, row) = parts(answer, NO_ROW);
        self.fold(refusal)
            .fold(row.enables)
            .fold(row.mode)
            .fold(row.mux1)
            .fold(row.mux2)
    }

    // The kind by its row in document 01's table of words, from 0, and its fields in the table's order, filled up with 0. A refused word counts as one
    // more kind, whose field is the refusal.
    pub(crate) fn fold_decoded(self, answer: Result<Instruction, Refusal>) -> Digest {
        let fields = match answer {
            Ok(Instruction::S { k }) => [0, k, 0, 0],
            Ok(Instruction::Goto { target }) => [1, target.0, 0, 0],
            Ok(Instruction::M { d, mode, cell }) => [2, d, mode, cell.0],
            Ok(Instruction::JumpIf { flag, target }) => [3, flag, target.0, 0],
            Ok(Instruction::I { mode, immediate }) => [4, mode, immediate, 0],
            Err(refusal) => [5, refusal.number(), 0, 0],
        };
        self.fold_all(&fields)
    }

    pub(crate) fn fold_machine(self, machine: Machine) -> Digest {
        self.fold(machine.pc.0)
            .fold(machine.ir)
            .fold(machine.dr)
            .fold(machine.acc)
            .fold(machine.sr)
            .fold(machine.stage as u8)
    }
}

impl fmt::Display for Digest {
    fn fmt<W: fmt::Write>(&self, f: &mut fmt::Formatter<W>) -> fmt::Result {
        write!(f, "{:08x}", self.0)
    }
}
