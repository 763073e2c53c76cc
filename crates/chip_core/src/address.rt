// Harvard structure: "A program address counts up to 256 entries, a data address up to 16 cells, and one is never taken for the other." So they are two
// structs, and not one with a parameter: a tuple struct each is the form that document 01 names (docs/DECISIONS.md, 11).
#[derive(Clone, Copy, Debug, PartialEq, Eq)]
pub struct ProgramAddress(pub u8);

#[derive(Clone, Copy, Debug, PartialEq, Eq)]
pub struct DataAddress(pub u8);
