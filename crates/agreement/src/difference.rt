// What a run of lines and a run of clocks came to, compared.
ghost use Rattle.std.specs.Prelude.{◌≡◌, ◌<◌, IfSome};
ghost use Rattle.agreement.specs.Difference.{first_differing, difference_of_cells, first_difference};

use chip_core::control::Stage;
use chip_core::machine::Machine;
use chip_core::refusal::Refusal;
use deck::lines::LinesRun;

// A thing that differs, with its value on either side. The two values have their names in each case: in a struct of both they would have the same, one level down.
#[derive(Clone, Copy, Debug, PartialEq, Eq)]
pub enum Difference {
    Refusal {
        refusal: Refusal,
    },
    Acc {
        by_lines: u8,
        by_clocks: u8,
    },
    Flags {
        by_lines: u8,
        by_clocks: u8,
    },
    Pc {
        by_lines: u8,
        by_clocks: u8,
    },
    Stage,
    Cell {
        place: u8,
        by_lines: u8,
        by_clocks: u8,
    },
}

// Here and below `cells` are those that the lines left and `others` those that the clocks left; each side keeps its own, so they come apart. The first place
// where they differ.
fn first_differing(cells: &[u8; 16], others: &[u8; 16]) -> Option<usize>
    ensures place { result ≡ first_differing cells.now others.now }
    ensures inside { IfSome result (λ place. place < 16) }
{
    // `zip` and `position` were tried, and the proof that they find what the definition does did not close.
    for (place, &cell) in cells.iter().enumerate() {
        if cell != others[place] {
            return Some(place);
        }
    }
    None
}

fn difference_of_cells(cells: &[u8; 16], others: &[u8; 16]) -> Option<Difference>
    ensures { result ≡ difference_of_cells cells.now others.now }
{
    let place = first_differing(cells, others)?;
    Some(Difference::Cell {
        place: place as u8,
        by_lines: cells[place],
        by_clocks: others[place],
    })
}

// Refusal, Acc, flags, PC and stage, then the cells in order.
#[tactic(auto, unfolding(crate::specs::Difference::first_difference))]
pub(crate) fn first_difference(
    ran: LinesRun,
    cells: &[u8; 16],
    clocked: Result<Machine, Refusal>,
    others: &[u8; 16],
) -> Option<Difference>
    ensures { result ≡ first_difference ran cells.now clocked others.now }
{
    let machine = match clocked {
        Ok(machine) => machine,
        Err(refusal) => return Some(Difference::Refusal { refusal }),
    };
    if machine.acc != ran.acc {
        return Some(Difference::Acc {
            by_lines: ran.acc,
            by_clocks: machine.acc,
        });
    }
    if machine.sr != ran.flags {
        return Some(Difference::Flags {
            by_lines: ran.flags,
            by_clocks: machine.sr,
        });
    }
    if machine.pc != ran.pc {
        return Some(Difference::Pc {
            by_lines: ran.pc.0,
            by_clocks: machine.pc.0,
        });
    }
    match machine.stage {
        Stage::Fetch => difference_of_cells(cells, others),
        _ => Some(Difference::Stage),
    }
}
