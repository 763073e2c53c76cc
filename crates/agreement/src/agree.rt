// Runs a deck both ways and compares. On an accepted deck the two always agree: that is demand 3, and what `agree` promises.
ghost use Rattle.std.specs.Prelude.{◌≡◌};
ghost use Rattle.agreement.specs.Agree.{AgreePromise};
ghost use Rattle.chip_core.specs.Clock.{RunPromise};
ghost use Rattle.chip_core.specs.Machine.{freshly_loaded};
ghost use Rattle.chip_core.specs.Refusal.{accepted};
ghost use Rattle.deck.specs.Deck.{deck_refusal};
ghost use Rattle.deck.specs.Image.{image};
ghost use Rattle.deck.specs.Operation.{program};

use super::difference::{Difference, first_difference};
use chip_core::clock::run;
use chip_core::machine::{Machine, fresh};
use chip_core::refusal::Refusal;
use deck::check::check;
use deck::lines::run_lines;
use deck::translate::translate;

// The lines run, the clocks that they cost and the first difference.
#[derive(Clone, Copy, Debug, PartialEq, Eq)]
pub struct Compared {
    pub lines: u32,
    pub clocks: u64,
    pub difference: Option<Difference>,
}

// The image of an accepted deck, clocked from a fresh load. It asks that the deck is accepted, since the type that says so is private to `deck`.
fn clock_image(deck: &[u8], cells: &mut [u8], clocks: u64) -> Result<Machine, Refusal>
    requires { deck_refusal deck.now ≡ accepted }
    ensures { RunPromise clocks freshly_loaded (image (program deck.now)) cells.old result cells.new }
{
    // The translator writes into memory that it is lent, and answers the count (`TranslatePromise`).
    let mut words = [0u16; 256];
    let count = translate(deck, &mut words).unwrap() as usize;
    run(fresh(), &words[..count], cells, clocks)
}

// Both ways, each on cells of its own that begin alike: `cells` for the lines, `others` for the clocks.
fn run_both(
    deck: &[u8],
    cells: &mut [u8; 16],
    others: &mut [u8; 16],
    asked: u32,
) -> Result<Compared, Refusal>
    requires { others.old ≡ cells.old }
    ensures { AgreePromise asked deck.now cells.old result }
{
    let ran = run_lines(deck, cells, asked)?;
    let clocked = clock_image(deck, others, ran.clocks);
    Ok(Compared {
        lines: ran.lines,
        clocks: ran.clocks,
        difference: first_difference(ran, cells, clocked, others),
    })
}

// Refuses as `run_lines` does: 1 to 8 as `check`, then 12: not exactly 16 cells. That is found out before the cells are copied, which takes sixteen. The cells
// handed in are only read, and both ways begin with them.
#[tactic(auto, using(crate::proofs::Both::deck_refused, crate::proofs::Both::cells_refused))]
pub fn agree(deck: &[u8], cells: &[u8], asked: u32) -> Result<Compared, Refusal>
    ensures { AgreePromise asked deck.now cells.now result }
{
    let Ok(sixteen) = <[u8; 16]>::try_from(cells) else {
        check(deck)?;
        return Err(Refusal::NotSixteenCells);
    };
    let mut line_cells = sixteen;
    let mut clock_cells = sixteen;
    run_both(deck, &mut line_cells, &mut clock_cells, asked)
}
