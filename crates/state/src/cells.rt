// Where the cells of a covered letter stand, and cells written.
ghost use Rattle.std.specs.Prelude.{◌≡◌, ◌+◌, ◌≤◌, ◌<◌, length};
ghost use Rattle.state.specs.Store.{written, size};
ghost use Rattle.state.specs.Lines.{place_of, line_start};
ghost use Rattle.state.specs.Patterns.{slot_start};
ghost use Rattle.state.specs.Totals.{total_start};

use crate::store::{LINE_CELLS, SLOT_CELLS, SLOTS_START, Store, TOTAL_CELLS, TOTALS_START};
use letters::covered::Covered;

// The place of its line: A to L, then R to T.
#[tactic(auto, using(crate::proofs::Places::from_a, crate::proofs::Places::covered_place, crate::proofs::Places::later_places))]
fn place_of(letter: Covered) -> usize
    ensures { (result ≡ place_of letter) × (result < 15) }
{
    let letter = letter.letter();
    if letter <= b'L' {
        usize::from(letter - b'A')
    } else {
        usize::from(letter - b'F')
    }
}

// Where its line starts.
pub fn line_start(letter: Covered) -> usize
    ensures { (result ≡ line_start letter) × (result ≤ 84) }
{
    place_of(letter) * LINE_CELLS
}

// Where its slot of an accident year starts: of ten successive years each has its own.
pub fn slot_start(letter: Covered, year: u64) -> usize
    ensures { (result ≡ slot_start letter year) × (result ≤ 1729) }
{
    SLOTS_START + (place_of(letter) * 10 + (year % 10) as usize) * SLOT_CELLS
}

// Where its totals start.
pub fn total_start(letter: Covered) -> usize
    ensures { (result ≡ total_start letter) × (result ≤ 1895) }
{
    TOTALS_START + place_of(letter) * TOTAL_CELLS
}

// The store with cells written from a place on.
#[tactic(auto, using(crate::proofs::Pieces::written_over))]
pub fn write(store: &mut Store, at: usize, cells: &[u64])
    requires { at + length cells.now ≤ size }
    ensures { store.new ≡ written store.old at cells.now }
{
    store[at..at + cells.len()].copy_from_slice(cells);
}
