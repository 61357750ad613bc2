// One record, by the bytes of its line.
ghost use Rattle.std.specs.Prelude.{suc};
ghost use Rattle.model.specs.Letter.{ages};
ghost use Rattle.model.specs.Step.{as_bytes, as_numbers};
ghost use Rattle.record.specs.Asks.{pattern_of, year_of, Low};
ghost use Rattle.ledger.specs.Does.{Does};

use crate::column::{column, payments};
use closings::close_year::close_year;
use form::request::Request;
use ledger::answer::Outcome;
use ledger::declare::declare;
use ledger::refuse::refuse;
use ledger::set_rate::set_rate;
use letters::letter::ages;
use mid_term::register_month::register_month;
use mid_term::set_rate_from_register::set_rate_from_register;
use patterns::add_pattern::add_pattern;
use record::read::read;
use state::book::Book;
use state::store::Store;
use totals::totals;

// "Questions put to a record, in this order": 1 to 5 by the reader, which leaves the line's numbers in two lists, and then those of the call that they make.
pub fn apply(book: Book, store: &mut Store, line: &[u8]) -> Outcome
    ensures { Does book (as_bytes line.now) store.old result store.new }
{
    let mut minus = [false; 62];
    let mut sizes = [0u64; 62];
    match read(line, &mut minus, &mut sizes) {
        Err(refusal) => refuse(book, refusal),
        Ok(Request::Declare(letter)) => declare(book, store, letter, sizes[2]),
        Ok(Request::SetRate(_)) => set_rate(book, store, sizes[1], &sizes[2..62]),
        Ok(Request::AddPattern(letter)) => apply_pattern(book, store, letter, &sizes),
        Ok(Request::CloseYear(letter)) => apply_year(book, store, letter, &minus, &sizes),
        Ok(Request::Totals(letter)) => totals(book, store, letter),
        Ok(Request::RegisterMonth(_)) => register_month(book, store, sizes[1], sizes[2], sizes[3]),
        Ok(Request::SetRateFromRegister(_)) => set_rate_from_register(book, store, sizes[1]),
    }
}

// "PATT, letter, year, then paid and incurred an age": by the line's ages.
fn apply_pattern(book: Book, store: &mut Store, letter: u8, sizes: &[u64; 62]) -> Outcome
    ensures { Does book (as_numbers (pattern_of letter sizes.now)) store.old result store.new }
{
    let n = ages(letter);
    let paid = column(sizes, 3, 2, n);
    let incurred = column(sizes, 4, 2, n);
    add_pattern(
        book,
        store,
        letter,
        sizes[2],
        paid.as_slice(),
        incurred.as_slice(),
    )
}

// "YEAR, letter, year, then paid, unpaid, tabular for each age, prior row last": by the line's ages, and the prior row.
fn apply_year(
    book: Book,
    store: &mut Store,
    letter: u8,
    minus: &[bool; 62],
    sizes: &[u64; 62],
) -> Outcome
    requires { Low (suc (ages letter)) sizes.now }
    ensures { Does book (as_numbers (year_of letter minus.now sizes.now)) store.old result store.new }
{
    let n = ages(letter) + 1;
    let paid = payments(minus, sizes, n);
    let unpaid = column(sizes, 4, 3, n);
    let tabular = column(sizes, 5, 3, n);
    close_year(
        book,
        store,
        letter,
        sizes[2],
        paid.as_slice(),
        unpaid.as_slice(),
        tabular.as_slice(),
    )
}
