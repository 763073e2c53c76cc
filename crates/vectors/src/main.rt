// Document 01's numbers, 003's test programs, decks, refusals and digests of answers, each by a call of the libraries. The crate's file `stdout`
// holds what an independent model of document 01 prints.
#![tactic(auto)]

mod answer;
mod calls;
mod decks;
mod digests;
mod fold;
mod generated;
mod instructions;
mod numbers;
mod programs;
mod refusals;
mod states;
mod trace;

use std::io;

fn main(rt: HostRuntime) -> io::Result<()> {
    numbers::print_numbers(&rt)?;
    refusals::print_refusals(&rt)?;
    digests::print_digests(&rt)?;
    programs::print_programs(&rt)?;
    programs::print_traces(&rt)?;
    calls::print_rows(&rt)?;
    calls::print_calls(&rt)?;
    states::print_state_digests(&rt)?;
    decks::print_decks(&rt)
}
