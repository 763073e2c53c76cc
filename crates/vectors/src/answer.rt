// An answer of the libraries as it is printed and folded: the number of its refusal, 0 if there is none, and its value.
use chip_core::address::ProgramAddress;
use chip_core::control::ControlRow;
use chip_core::refusal::Refusal;
use chip_core::unit::Computed;
use deck::lines::LinesRun;

// What stands for the value of a refused call.
pub(crate) const NOT_COMPUTED: Computed = Computed {
    result: 0,
    flags: 0,
};

pub(crate) const NO_ROW: ControlRow = ControlRow {
    enables: 0,
    mode: 0,
    mux1: 0,
    mux2: 0,
};

pub(crate) const NO_LINES: LinesRun = LinesRun {
    lines: 0,
    clocks: 0,
    acc: 0,
    flags: 0,
    position: 0,
    pc: ProgramAddress(0),
};

// Number and value side by side, as `stdout` has both of every answer.
pub(crate) fn parts<T: Copy>(answer: Result<T, Refusal>, refused: T) -> (u8, T) {
    match answer {
        Ok(value) => (0, value),
        Err(refusal) => (refusal.number(), refused),
    }
}
