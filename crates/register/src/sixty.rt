// "RATE with a year alone then takes the sixty months from January five years before to December of the year before."
ghost use Rattle.std.specs.Prelude.{map, ◌≡◌, length};
ghost use Rattle.std.specs.List.{list_all};
ghost use Rattle.register.specs.Sixty.{sixty_cells, cell_given, cell_rate, has_sixty, rates_taken, given_sixty};

use crate::cell::{month_start, rate_in_cell};
use crate::date::Date;
use kinds::month::MonthLimits;
use kinds::within::Limits;
use kinds::year::Year;
use state::store::Store;

// Is each of the sixty given? Of a year that is none from 1987 to 2099, no.
#[tactic(auto, using(crate::proofs::Sixties::sixty_given))]
pub fn has_sixty(store: &Store, year: u64) -> bool
    ensures { result ≡ has_sixty store.now year }
{
    Year::new(year).is_some_and(|year| are_given(sixty_cells(store, year)))
}

// The rates of the sixty, 0 for one that is not given. Of a year that is none from 1987 to 2099, all 0.
#[tactic(auto, using(crate::proofs::Sixties::sixty_long, crate::proofs::Sixties::sixty_taken))]
pub fn sixty_rates(store: &Store, year: u64) -> [u64; 60]
    ensures { result ≡ rates_taken store.now year }
{
    match Year::new(year) {
        Some(year) => rates_in(sixty_cells(store, year)),
        None => [0; 60],
    }
}

// The rates of the sixty, or none where one of them is not given.
pub fn given_sixty(store: &Store, year: u64) -> Option<[u64; 60]>
    ensures { result ≡ given_sixty store.now year }
{
    if has_sixty(store, year) {
        Some(sixty_rates(store, year))
    } else {
        None
    }
}

// The cells of the sixty months.
#[tactic(auto, using(crate::proofs::Sixties::cells_are))]
fn sixty_cells(store: &Store, year: Year) -> &[u64]
    ensures { result.now ≡ sixty_cells store.now year }
{
    let first = Date::new(year.number() - 5, MonthLimits::LEAST).unwrap();
    let at = month_start(first);
    &store[at..at + 60]
}

// Does every cell hold a rate?
fn are_given(cells: &[u64]) -> bool
    ensures { result ≡ list_all cell_given cells.now }
{
    cells.iter().all(|&cell| rate_in_cell(cell).is_some())
}

// The number of the rate that a cell holds, or 0 where there is none.
fn number_in_cell(cell: u64) -> u64
    ensures { result ≡ cell_rate cell }
{
    rate_in_cell(cell).map_or(0, |rate| rate.number())
}

// The rates that sixty cells hold, 0 where there is none.
fn rates_in(cells: &[u64]) -> [u64; 60]
    requires { length cells.now ≡ 60 }
    ensures { result ≡ map cell_rate cells.now }
{
    let mut rates = [0; 60];
    for (i, &cell) in cells.iter().enumerate() {
        rates[i] = number_in_cell(cell);
    }
    rates
}
