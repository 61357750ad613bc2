// The totals of the covered letters, in the store: three cells for each line, read by its last closed year.
ghost use Rattle.std.specs.Prelude.{◌≡◌};
ghost use Rattle.state.specs.Totals.{totals_at, with_totals_of};

use crate::cells::{total_start, write};
use crate::store::Store;
use letters::covered::Covered;
use line_limits::totals::{Totals, total_cells, totals_in};

// A letter's totals, by the last closed year of its line. A letter that is not covered has zeros.
#[tactic(auto, using(crate::proofs::TotalPieces::totals_read), unfolding(crate::specs::Totals::totals_at))]
pub fn totals_of(store: &Store, letter: u8, closed: Option<u64>) -> Totals
    ensures { result ≡ totals_at store.now letter closed }
{
    let Some(letter) = Covered::new(letter) else {
        return Totals::default();
    };
    let at = total_start(letter);
    totals_in(closed, [store[at], store[at + 1], store[at + 2]])
}

// The store with a letter's totals anew, by the last closed year: as it was, where the letter is not covered.
pub fn keep_totals(store: &mut Store, letter: u8, closed: Option<u64>, totals: Totals)
    ensures { store.new ≡ with_totals_of store.old letter closed totals }
{
    if let Some(letter) = Covered::new(letter) {
        write(store, total_start(letter), &total_cells(closed, totals));
    }
}
