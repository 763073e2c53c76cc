// Instructions by plain numbers, in range or not.
use chip_core::address::{DataAddress, ProgramAddress};
use chip_core::word::Instruction;

pub(crate) fn goto(target: u8) -> Instruction {
    Instruction::Goto {
        target: ProgramAddress(target),
    }
}

pub(crate) fn m(d: u8, mode: u8, cell: u8) -> Instruction {
    Instruction::M {
        d,
        mode,
        cell: DataAddress(cell),
    }
}

pub(crate) fn jump_if(flag: u8, target: u8) -> Instruction {
    Instruction::JumpIf {
        flag,
        target: ProgramAddress(target),
    }
}

pub(crate) fn i(mode: u8, immediate: u8) -> Instruction {
    Instruction::I { mode, immediate }
}
