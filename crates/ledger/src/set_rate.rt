// "RATE, year, sixty rates"
ghost use Rattle.model.specs.Call.{set_rate};
ghost use Rattle.model.specs.Step.{as_numbers};
ghost use Rattle.ledger.specs.Does.{Settled, Does};
ghost use Rattle.ledger.specs.SetRate.{Averaged};

use crate::answer::Outcome;
use crate::give_rate::give_rate;
use crate::refuse::refuse;
use kinds::rate::Rate;
use kinds::year::Year;
use rates::rate::mean_rate;
use refusal::Refusal;
use state::book::Book;
use state::store::Store;
use year_rates::rates::rate_of;

// Questions 4 and 6, and on.
pub fn set_rate(book: Book, store: &mut Store, year: u64, months: &[u64]) -> Outcome
    ensures { Does book (as_numbers (set_rate year months.now)) store.old result store.new }
{
    match mean_rate(months) {
        Ok(rate) if Year::contains(year) => ask_given(book, store, year, rate, months),
        Ok(_) => refuse(book, Refusal::OutsideLimits),
        Err(refusal) => refuse(book, refusal),
    }
}

// "7. LINE, RATE: is that line or that year's rate still to be given?" (The months are there for the contract alone.)
fn ask_given(book: Book, store: &mut Store, year: u64, rate: Rate, months: &[u64]) -> Outcome
    requires { Averaged year rate months.now }
    ensures { Settled book (set_rate year months.now) store.old result store.new }
{
    match rate_of(book, year) {
        Some(_) => refuse(book, Refusal::AlreadyGiven),
        None => give_rate(book, store, year, rate),
    }
}
