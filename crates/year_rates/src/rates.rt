// The rate places, one for each year from 1987 to 2099.
ghost use Rattle.std.specs.Prelude.{◌≡◌};
ghost use Rattle.state.specs.Rates.{rates_of, with_rate_of};

use crate::place::place_of;
use kinds::rate::Rate;
use kinds::year::Year;
use state::book::Book;

// The rate of an accident year, or that none was given.
#[tactic(auto, unfolding(state::specs::Rates::rates_of))]
pub fn rate_of(book: Book, year: u64) -> Option<Rate>
    ensures { result ≡ rates_of book.rates year }
{
    let year = Year::new(year)?;
    Rate::new(u64::from(book.rates[place_of(year)]))
}

// The book with a year's rate: as it was, where the year is none from 1987 to 2099.
pub fn with_rate(mut book: Book, year: u64, rate: Rate) -> Book
    ensures { result ≡ with_rate_of book year rate }
{
    if let Some(year) = Year::new(year) {
        book.rates[place_of(year)] = rate.number() as u16;
    }
    book
}
