// The operations of document 01's table.
use chip_core::address::DataAddress;

// A line's operation, with its label looked up: a jump has the line that it jumps to. Its fields are
// numbers, since the definition makes it of any numbers (`row_of`), also for a line that is refused, and since they go on as an instruction's.
#[derive(Clone, Copy, Debug, PartialEq, Eq)]
pub(crate) enum Operation {
    M { d: u8, mode: u8, cell: DataAddress },
    I { mode: u8, immediate: u8 },
    Goto { line: u16 },
    JumpIf { flag: u8, line: u16 },
    JumpUnless { flag: u8, line: u16 },
    Nop,
}
