// What was found, on standard output. That the two ways differ is never said of an accepted deck: it is proved that they agree. The lines for it are there so
// that a fault below what is proved, of a compiler or of a processor, would be seen.
use agreement::agree::Compared;
use agreement::difference::Difference;
use chip_core::refusal::Refusal;
use std::fmt::Display;
use std::io;

pub(crate) fn report(rt: &impl Print, found: Result<Compared, Refusal>) -> io::Result<()> {
    let compared = match found {
        Ok(compared) => compared,
        Err(refusal) => return println!(rt; "{refusal}"),
    };
    match compared.difference {
        None => println!(rt;
            "agree: lines {}, clocks {}",
            compared.lines, compared.clocks
        ),
        Some(difference) => print_difference(rt, difference),
    }
}

fn print_difference(rt: &impl Print, difference: Difference) -> io::Result<()> {
    match difference {
        Difference::Refusal { refusal } => println!(rt; "differ: the machine {refusal}"),
        Difference::Acc {
            by_lines,
            by_clocks,
        } => print_values(rt, "Acc", by_lines, by_clocks),
        Difference::Flags {
            by_lines,
            by_clocks,
        } => print_values(rt, "flags", by_lines, by_clocks),
        Difference::Pc {
            by_lines,
            by_clocks,
        } => print_values(rt, "PC", by_lines, by_clocks),
        Difference::Stage => println!(rt; "differ: the machine is not about to fetch"),
        Difference::Cell {
            place,
            by_lines,
            by_clocks,
        } => print_values(rt, format_args!("cell {place}"), by_lines, by_clocks),
    }
}

fn print_values(
    rt: &impl Print,
    place: impl Display + Drop,
    by_lines: u8,
    by_clocks: u8,
) -> io::Result<()> {
    println!(rt; "differ in {place}: {by_lines} by lines, {by_clocks} by clocks")
}
