// The half-year factor of a year's rate, kept where the rate is given. It is a hint and no part of the book: whoever takes it asks first whether it is right.
ghost use Rattle.std.specs.Prelude.{◌≡◌, ◌<◌};
ghost use Rattle.state.specs.Hints.{hint_start, hint_at, with_hint_of};

use crate::place::place_of;
use kinds::year::Year;
use state::store::{HINTS_START, Store};

// Where the hint of a year stands.
fn hint_start(year: Year) -> usize
    ensures { (result ≡ hint_start year) × (result < 1853) }
{
    HINTS_START + place_of(year)
}

// What is kept for a year. A year that is none from 1987 to 2099 has 0.
pub fn hint_of(store: &Store, year: u64) -> u64
    ensures { result ≡ hint_at store.now year }
{
    Year::new(year).map_or(0, |year| store[hint_start(year)])
}

// The store with a year's hint: as it was, where the year is none from 1987 to 2099.
#[tactic(auto, using(state::proofs::Pieces::one_cell))]
pub fn keep_hint(store: &mut Store, year: u64, hint: u64)
    ensures { store.new ≡ with_hint_of store.old year hint }
{
    if let Some(year) = Year::new(year) {
        store[hint_start(year)] = hint;
    }
}
