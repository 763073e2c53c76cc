// Decks, above the core: their check, the translator, the line runner and the listing text, as document 01 says them. They rest only on what the core
// promises.
#![tactic(auto)]

mod address;
mod bytes;
pub mod check;
mod decks;
mod label;
mod line;
pub mod lines;
pub mod listing;
mod operation;
mod text;
pub mod translate;
