// "A record MIDT with year (1980 to 2099), month (1 to 12) and rate stores one federal mid-term rate, once."
ghost use Rattle.std.specs.Prelude.{true, ◌≡◌};
ghost use Rattle.model.specs.Call.{register_month};
ghost use Rattle.model.specs.Step.{as_numbers};
ghost use Rattle.state.specs.Months.{is_date};
ghost use Rattle.ledger.specs.Does.{Settled, Does};

use kinds::rate::Rate;
use ledger::accept::accept;
use ledger::answer::{Answer, Outcome};
use ledger::refuse::refuse;
use refusal::Refusal;
use register::month::{is_date, keep_month, month_of};
use state::book::Book;
use state::store::Store;

// Question 6, and on.
pub fn register_month(book: Book, store: &mut Store, year: u64, month: u64, rate: u64) -> Outcome
    ensures { Does book (as_numbers (register_month year month rate)) store.old result store.new }
{
    match Rate::new(rate) {
        Some(rate) if is_date(year, month) => ask_given(book, store, year, month, rate),
        _ => refuse(book, Refusal::OutsideLimits),
    }
}

// "Question 7 also covers a month given twice."
fn ask_given(book: Book, store: &mut Store, year: u64, month: u64, rate: Rate) -> Outcome
    requires { is_date year month ≡ true }
    ensures { Settled book (register_month year month rate) store.old result store.new }
{
    match month_of(store, year, month) {
        Some(_) => refuse(book, Refusal::AlreadyGiven),
        None => {
            keep_month(store, year, month, rate);
            accept(
                book,
                Answer::MidTerm {
                    year,
                    month,
                    rate: rate.number(),
                },
            )
        }
    }
}
