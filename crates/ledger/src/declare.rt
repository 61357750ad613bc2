// "LINE, letter, opening"
ghost use Rattle.model.specs.Call.{declare};
ghost use Rattle.model.specs.Step.{as_numbers};
ghost use Rattle.ledger.specs.Does.{Settled, Does};

use crate::accept::accept;
use crate::answer::{Answer, Outcome};
use crate::refuse::refuse;
use letters::covered::Covered;
use line_limits::line::Line;
use money::opening::Opening;
use refusal::Refusal;
use state::book::Book;
use state::lines::{keep_line, line_of};
use state::store::Store;

// Questions 3 and 6, and on.
pub fn declare(book: Book, store: &mut Store, letter: u8, opening: u64) -> Outcome
    ensures { Does book (as_numbers (declare letter opening)) store.old result store.new }
{
    let Some(letter) = Covered::new(letter) else {
        return refuse(book, Refusal::UncoveredLetter);
    };
    let Some(opening) = Opening::new(opening) else {
        return refuse(book, Refusal::OutsideLimits);
    };
    ask_given(book, store, letter, opening)
}

// "7. LINE, RATE: is that line or that year's rate still to be given?"
fn ask_given(book: Book, store: &mut Store, letter: Covered, opening: Opening) -> Outcome
    ensures { Settled book (declare letter opening) store.old result store.new }
{
    let letter = letter.letter();
    let opening = opening.number();
    if line_of(store, letter).declared_opening().is_some() {
        return refuse(book, Refusal::AlreadyGiven);
    }
    let line = Line {
        declared: true,
        opening,
        ..Line::default()
    };
    keep_line(store, letter, line);
    accept(book, Answer::Line { letter, opening })
}
