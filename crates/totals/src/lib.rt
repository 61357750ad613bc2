// The call SUM: a line's figures since its first closing.
#![tactic(auto)]

ghost use Rattle.model.specs.Call.{totals};
ghost use Rattle.model.specs.Step.{as_numbers};
ghost use Rattle.ledger.specs.Does.{Settled, Does};

use ledger::accept::accept;
use ledger::answer::{Answer, Outcome};
use ledger::refuse::refuse;
use letters::covered::Covered;
use refusal::Refusal;
use state::book::Book;
use state::lines::line_of;
use state::store::Store;
use state::totals::totals_of;

// "3. But for RATE: is the second field a covered letter?", and on. The store is as it was.
pub fn totals(book: Book, store: &Store, letter: u8) -> Outcome
    ensures { Does book (as_numbers (totals letter)) store.now result store.now }
{
    match Covered::new(letter) {
        Some(letter) => ask_declared(book, store, letter),
        None => refuse(book, Refusal::UncoveredLetter),
    }
}

// "8. PATT, YEAR: is the line declared?", and its totals: "the count of closed years, all paid, and all tax-basis losses".
fn ask_declared(book: Book, store: &Store, letter: Covered) -> Outcome
    ensures { Settled book (totals letter) store.now result store.now }
{
    let letter = letter.letter();
    let line = line_of(store, letter);
    if line.declared_opening().is_none() {
        return refuse(book, Refusal::NotDeclared);
    }
    let totals = totals_of(store, letter, line.closed);
    accept(book, Answer::Sum { letter, totals })
}
