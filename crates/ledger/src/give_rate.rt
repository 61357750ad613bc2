// What a RATE that is accepted leaves, in either of its forms.
ghost use Rattle.ledger.specs.SetRate.{GivesRate};

use crate::accept::accept;
use crate::answer::{Answer, Outcome};
use half_year::half_year;
use kinds::rate::Rate;
use state::book::Book;
use state::store::Store;
use year_rates::hints::keep_hint;
use year_rates::rates::with_rate;

// The rate of its year, and the half-year factor at that rate as a hint.
pub fn give_rate(book: Book, store: &mut Store, year: u64, rate: Rate) -> Outcome
    ensures { GivesRate book year rate store.old result store.new }
{
    keep_hint(store, year, half_year(rate));
    let later = with_rate(book, year, rate);
    accept(
        later,
        Answer::Rate {
            year,
            rate: rate.number(),
        },
    )
}
