// The lines of the covered letters, in the store.
ghost use Rattle.std.specs.Prelude.{◌≡◌};
ghost use Rattle.state.specs.Lines.{line_at, cells_of, with_line_of};

use crate::cells::{line_start, write};
use crate::store::{LINE_CELLS, Store};
use letters::covered::Covered;
use line_limits::limits::line_in;
use line_limits::line::Line;

// A letter's line. A letter that is not covered has an undeclared one.
#[tactic(auto, unfolding(crate::specs::Lines::line_at, crate::specs::Store::piece))]
pub fn line_of(store: &Store, letter: u8) -> Line
    ensures { result ≡ line_at store.now letter }
{
    let Some(covered) = Covered::new(letter) else {
        return Line::default();
    };
    let at = line_start(covered);
    let mut cells = [0; LINE_CELLS];
    cells.copy_from_slice(&store[at..at + LINE_CELLS]);
    line_in(letter, cells)
}

// The store with a line anew: as it was, where the letter is not covered.
pub fn keep_line(store: &mut Store, letter: u8, line: Line)
    ensures { store.new ≡ with_line_of store.old letter line }
{
    if let Some(letter) = Covered::new(letter) {
        write(store, line_start(letter), &cells_of(line));
    }
}

// The cells of a line: 0 where no year is closed.
fn cells_of(line: Line) -> [u64; LINE_CELLS]
    ensures { result ≡ cells_of line }
{
    [
        u64::from(line.declared),
        line.opening,
        line.closed.unwrap_or(0),
        line.closing,
        line.patterns.last,
        line.patterns.count,
    ]
}
