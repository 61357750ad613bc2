// "YEAR, letter, year, then paid, unpaid, tabular for each age, prior row last"
ghost use Rattle.std.specs.Prelude.{◌≡◌};
ghost use Rattle.model.specs.Call.{close_year};
ghost use Rattle.model.specs.Question.{Sound, is_within_limits};
ghost use Rattle.model.specs.Step.{as_numbers};
ghost use Rattle.ledger.specs.Does.{Does, Settled};
ghost use Rattle.state.specs.Lines.{with_closing_of};
ghost use Rattle.closings.specs.CloseYear.{due, opening_of, Turned, Passed};

use crate::rows::{have_patterns, row_factors};
use crate::totals::add_year;
use kinds::year::Year;
use ledger::accept::accept;
use ledger::answer::{Answer, Outcome};
use ledger::refuse::refuse;
use letters::letter::is_covered;
use line_limits::line::{Line, Patterns};
use refusal::Refusal;
use reserve::year_end::year_end;
use state::book::Book;
use state::lines::{keep_line, line_of};
use state::store::Store;
use year_rows::questions::{has_lengths, has_limits};

// Questions 3, 4 and 6, and on.
pub fn close_year(
    book: Book,
    store: &mut Store,
    letter: u8,
    year: u64,
    paid: &[i64],
    unpaid: &[u64],
    tabular: &[u64],
) -> Outcome
    ensures { Does book (as_numbers (close_year letter year paid.now unpaid.now tabular.now)) store.old result store.new }
{
    if !is_covered(letter) {
        return refuse(book, Refusal::UncoveredLetter);
    }
    if !has_lengths(letter, paid, unpaid, tabular) {
        return refuse(book, Refusal::WrongCount);
    }
    if !is_within_limits(year, paid, unpaid, tabular) {
        return refuse(book, Refusal::OutsideLimits);
    }
    ask_declared(book, store, letter, year, paid, unpaid, tabular)
}

// "6. Is every number within its limits?"
fn is_within_limits(year: u64, paid: &[i64], unpaid: &[u64], tabular: &[u64]) -> bool
    ensures { result ≡ is_within_limits (close_year 0 year paid.now unpaid.now tabular.now) }
{
    Year::contains(year) && has_limits(paid, unpaid, tabular)
}

// "8. PATT, YEAR: is the line declared?" "10. .. YEAR: is it the year of the last pattern, not yet closed?", and on.
fn ask_declared(
    book: Book,
    store: &mut Store,
    letter: u8,
    year: u64,
    paid: &[i64],
    unpaid: &[u64],
    tabular: &[u64],
) -> Outcome
    requires { Sound (close_year letter year paid.now unpaid.now tabular.now) }
    ensures { Settled book (close_year letter year paid.now unpaid.now tabular.now) store.old result store.new }
{
    let line = line_of(store, letter);
    if line.declared_opening().is_none() {
        return refuse(book, Refusal::NotDeclared);
    }
    let Some(patterns) = due(line, year) else {
        return refuse(book, Refusal::OutOfTurn);
    };
    ask_patterns(
        book, store, line, patterns, letter, year, paid, unpaid, tabular,
    )
}

// "is it the year of the last pattern, not yet closed?": the patterns of a year that is.
#[tactic(auto, unfolding(crate::specs::CloseYear::due))]
fn due(line: Line, year: u64) -> Option<Patterns>
    ensures { result ≡ due line year }
{
    let patterns = line.kept_patterns()?;
    if year == patterns.last && line.closed.is_none_or(|closed| closed != year) {
        Some(patterns)
    } else {
        None
    }
}

// "13. YEAR: has every age row with gross above 0 a kept pattern?", and the year end.
fn ask_patterns(
    book: Book,
    store: &mut Store,
    line: Line,
    patterns: Patterns,
    letter: u8,
    year: u64,
    paid: &[i64],
    unpaid: &[u64],
    tabular: &[u64],
) -> Outcome
    requires { Turned store.old line patterns letter year paid.now unpaid.now tabular.now }
    ensures { Settled book (close_year letter year paid.now unpaid.now tabular.now) store.old result store.new }
{
    if !have_patterns(letter, patterns, unpaid, tabular) {
        return refuse(book, Refusal::NoPattern);
    }
    end_year(
        book, store, line, patterns, letter, year, paid, unpaid, tabular,
    )
}

// The closing and the totals kept, and the tax-basis loss.
fn end_year(
    book: Book,
    store: &mut Store,
    line: Line,
    patterns: Patterns,
    letter: u8,
    year: u64,
    paid: &[i64],
    unpaid: &[u64],
    tabular: &[u64],
) -> Outcome
    requires { Passed store.old line patterns letter year paid.now unpaid.now tabular.now }
    ensures { Settled book (close_year letter year paid.now unpaid.now tabular.now) store.old result store.new }
{
    let factors = row_factors(store, letter, patterns);
    let opening = opening_of(line);
    let end = year_end(letter, paid, unpaid, tabular, &factors, opening).unwrap();
    add_year(store, letter, line.closed, year, end);
    keep_line(store, letter, with_closing(line, year, end.closing));
    accept(
        book,
        Answer::Tax {
            letter,
            year,
            opening,
            end,
        },
    )
}

// "Opening is the last closing, or the declared opening."
fn opening_of(line: Line) -> u64
    ensures { result ≡ opening_of line }
{
    if line.closed.is_some() {
        line.closing
    } else {
        line.declared_opening().unwrap_or(0)
    }
}

// The line with one more year closed.
fn with_closing(line: Line, year: u64, closing: u64) -> Line
    ensures { result ≡ with_closing_of line year closing }
{
    Line {
        closed: Some(year),
        closing,
        ..line
    }
}
