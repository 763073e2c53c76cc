// The two sides of demand 3 side by side: a deck run by the line rules, and its image clocked on the machine, compared.
#![tactic(auto)]

pub mod agree;
pub mod difference;
