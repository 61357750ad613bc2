// "PATT, letter, year, then paid and incurred an age"
ghost use Rattle.std.specs.Prelude.{true, [], ◌∷◌, ◌++◌, ◌≡◌};
ghost use Rattle.model.specs.Call.{add_pattern};
ghost use Rattle.model.specs.Question.{Sound, has_lengths, is_within_limits};
ghost use Rattle.model.specs.Step.{as_numbers};
ghost use Rattle.state.specs.Lines.{with_line_of, with_pattern_of};
ghost use Rattle.state.specs.Patterns.{with_slot_of};
ghost use Rattle.ledger.specs.declared.answer.Answer.TheVariants.{Fact};
ghost use Rattle.ledger.specs.Answer.{accepted_of};
ghost use Rattle.ledger.specs.Does.{Does, Settled};
ghost use Rattle.patterns.specs.AddPattern.{follows_last, Turned};

use factor::pattern::{Pattern, discount};
use kinds::rate::Rate;
use kinds::year::Year;
use ledger::accept::accept;
use ledger::answer::{Answer, Outcome};
use ledger::refuse::refuse;
use letters::letter::{ages, is_covered};
use line_limits::line::{Line, Patterns};
use money::amount::Amount;
use refusal::Refusal;
use state::book::Book;
use state::lines::{keep_line, line_of};
use state::patterns::keep_pattern;
use state::store::Store;
use year_rates::hints::hint_of;
use year_rates::rates::rate_of;

// Questions 3, 4 and 6, and on.
pub fn add_pattern(
    book: Book,
    store: &mut Store,
    letter: u8,
    year: u64,
    paid: &[u64],
    incurred: &[u64],
) -> Outcome
    ensures { Does book (as_numbers (add_pattern letter year paid.now incurred.now)) store.old result store.new }
{
    if !is_covered(letter) {
        return refuse(book, Refusal::UncoveredLetter);
    }
    if !has_lengths(letter, paid, incurred) {
        return refuse(book, Refusal::WrongCount);
    }
    if !has_limits(year, paid, incurred) {
        return refuse(book, Refusal::OutsideLimits);
    }
    ask_declared(book, store, letter, year, paid, incurred)
}

// "4. Is the count of fields right?": a number for each age in each list.
fn has_lengths(letter: u8, paid: &[u64], incurred: &[u64]) -> bool
    ensures { result ≡ has_lengths (add_pattern letter 0 paid.now incurred.now) }
{
    let ages = ages(letter);
    paid.len() == ages && incurred.len() == ages
}

// "6. Is every number within its limits?"
fn has_limits(year: u64, paid: &[u64], incurred: &[u64]) -> bool
    ensures { result ≡ is_within_limits (add_pattern 0 year paid.now incurred.now) }
{
    Year::contains(year) && Amount::all(paid) && Amount::all(incurred)
}

// "8. PATT, YEAR: is the line declared?" "9. PATT: has the year a rate?" "10. PATT: is it the line's first pattern, or the year after its last one ..", and on.
fn ask_declared(
    book: Book,
    store: &mut Store,
    letter: u8,
    year: u64,
    paid: &[u64],
    incurred: &[u64],
) -> Outcome
    requires { Sound (add_pattern letter year paid.now incurred.now) }
    ensures { Settled book (add_pattern letter year paid.now incurred.now) store.old result store.new }
{
    let line = line_of(store, letter);
    if line.declared_opening().is_none() {
        return refuse(book, Refusal::NotDeclared);
    }
    let Some(rate) = rate_of(book, year) else {
        return refuse(book, Refusal::NoRate);
    };
    if !follows_last(line, year) {
        return refuse(book, Refusal::OutOfTurn);
    }
    ask_ratios(book, store, line, letter, year, rate, paid, incurred)
}

// "is it the line's first pattern, or the year after its last one, that last one closed if any year is closed?"
#[tactic(auto, unfolding(crate::specs::AddPattern::follows_last))]
fn follows_last(line: Line, year: u64) -> bool
    ensures { result ≡ follows_last line year }
{
    line.kept_patterns().is_none_or(|Patterns { last, .. }| {
        year.checked_sub(last) == Some(1) && line.closed.is_none_or(|closed| closed == last)
    })
}

// "11. PATT: is every incurred above 0 and no paid above its incurred?" "12. PATT: does no cumulative ratio fall from one age to the next?", and the pattern.
fn ask_ratios(
    book: Book,
    store: &mut Store,
    line: Line,
    letter: u8,
    year: u64,
    rate: Rate,
    paid: &[u64],
    incurred: &[u64],
) -> Outcome
    requires { Turned book store.old line letter year rate paid.now incurred.now }
    ensures { Settled book (add_pattern letter year paid.now incurred.now) store.old result store.new }
{
    match discount(letter, rate, hint_of(store, year), paid, incurred) {
        Ok(pattern) => keep(book, store, line, letter, year, pattern),
        Err(refusal) => refuse(book, refusal),
    }
}

// The pattern kept in its slot, and in its line.
fn keep(
    book: Book,
    store: &mut Store,
    line: Line,
    letter: u8,
    year: u64,
    pattern: Pattern,
) -> Outcome
    ensures { (result ≡ accepted_of book (Fact letter year)) × (store.new ≡ with_line_of (with_slot_of store.old letter year (pattern.factors ++ (pattern.composite ∷ []))) letter (with_pattern_of letter line year)) }
{
    keep_pattern(store, letter, year, pattern);
    keep_line(store, letter, with_pattern(letter, line, year));
    accept(book, Answer::Fact { letter, year })
}

// The line with one pattern more: "A line keeps its latest ten patterns (two-year: two)."
fn with_pattern(letter: u8, line: Line, year: u64) -> Line
    ensures { result ≡ with_pattern_of letter line year }
{
    let before = line.patterns.count;
    let most = ages(letter) as u64;
    Line {
        patterns: Patterns {
            last: year,
            count: before.saturating_add(1).min(most),
        },
        ..line
    }
}
