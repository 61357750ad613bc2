// An accepted record: what it counts.
ghost use Rattle.std.specs.Prelude.{◌≡◌};
ghost use Rattle.model.specs.Step.{one_more};
ghost use Rattle.ledger.specs.Answer.{accepted_of};

use crate::answer::{Answer, Outcome};
use state::book::Book;

// "Either count stops at 2^64 - 1."
pub fn one_more(n: u64) -> u64
    ensures { result ≡ one_more n }
{
    n.saturating_add(1)
}

// "Without a "no" the record is accepted and the accepted count is one higher."
pub fn accept(mut book: Book, answer: Answer) -> Outcome
    ensures { result ≡ accepted_of book answer }
{
    book.accepted = one_more(book.accepted);
    Outcome { book, answer }
}
