// The core: what a word, the arithmetic unit, a clock, an instruction and a run mean, as document 01 says it. Everything above rests only on these
// promises.
#![tactic(auto)]

pub mod address;
pub mod clock;
pub mod control;
mod edge;
mod image;
pub mod machine;
pub mod refusal;
pub mod socket;
pub mod unit;
pub mod word;
