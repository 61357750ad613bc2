// "RATE with a year alone then takes the sixty months from January five years before to December of the year before."
ghost use Rattle.std.specs.Prelude.{None, ◌≡◌};
ghost use Rattle.model.specs.Call.{set_rate_from_register};
ghost use Rattle.model.specs.Step.{as_numbers};
ghost use Rattle.ledger.specs.Does.{Settled, Does};
ghost use Rattle.state.specs.Rates.{rates_of};

use kinds::year::Year;
use ledger::answer::Outcome;
use ledger::give_rate::give_rate;
use ledger::refuse::refuse;
use rates::rate::mean_rate;
use refusal::Refusal;
use register::sixty::given_sixty;
use state::book::Book;
use state::store::Store;
use year_rates::rates::rate_of;

// Question 6, and on.
pub fn set_rate_from_register(book: Book, store: &mut Store, year: u64) -> Outcome
    ensures { Does book (as_numbers (set_rate_from_register year)) store.old result store.new }
{
    match Year::new(year) {
        Some(year) => ask_given(book, store, year),
        None => refuse(book, Refusal::OutsideLimits),
    }
}

// "7. .. is that line or that year's rate still to be given?", and on.
fn ask_given(book: Book, store: &mut Store, year: Year) -> Outcome
    ensures { Settled book (set_rate_from_register year) store.old result store.new }
{
    match rate_of(book, year.number()) {
        Some(_) => refuse(book, Refusal::AlreadyGiven),
        None => ask_months(book, store, year),
    }
}

// "14 after question 7, when the short RATE lacks any of its sixty months"; else it gives their rate, which `mean_rate` does not refuse.
#[tactic(auto, using(crate::proofs::FromRegister::is_mean))]
fn ask_months(book: Book, store: &mut Store, year: Year) -> Outcome
    requires { rates_of book.rates year ≡ None }
    ensures { Settled book (set_rate_from_register year) store.old result store.new }
{
    let year = year.number();
    let Some(months) = given_sixty(store, year) else {
        return refuse(book, Refusal::NoMonth);
    };
    let rate = mean_rate(&months).unwrap();
    give_rate(book, store, year, rate)
}
