// A refused record, with its refusal.
ghost use Rattle.std.specs.Prelude.{◌≡◌};
ghost use Rattle.ledger.specs.Answer.{refused_of};

use crate::accept::one_more;
use crate::answer::{Answer, Outcome};
use refusal::Refusal;
use state::book::Book;

// "Lines, rates, patterns, closings and the accepted count are then as before, and the refused count is one higher."
pub fn refuse(mut book: Book, refusal: Refusal) -> Outcome
    ensures { result ≡ refused_of book refusal }
{
    book.refused = one_more(book.refused);
    Outcome {
        book,
        answer: Answer::No(refusal),
    }
}
