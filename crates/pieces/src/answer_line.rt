// A line that has ended: its record applied, and the answer's text put.
ghost use Rattle.std.specs.Prelude.{◌++◌};
ghost use Rattle.pieces.specs.Feed.{Answers};

use crate::line::OpenLine;
use answer::text::put_answer;
use journal::apply::apply;
use state::book::Book;
use state::store::Store;

// The book that the lines so far leave, and the place after their texts.
#[derive(Clone, Copy)]
pub struct Answered {
    pub book: Book,
    pub next: usize,
}

pub fn answer_line(last: Answered, store: &mut Store, line: &[u8], out: &mut [u8]) -> Answered
    ensures { Answers last.book store.old line.now out.old last.next result store.new out.new }
{
    let outcome = apply(last.book, store, line);
    let next = put_answer(out, last.next, outcome.answer, store);
    let book = outcome.book;
    Answered { book, next }
}

// A line of which a piece before this one held the start.
pub fn answer_joined(
    last: Answered,
    store: &mut Store,
    begun: &[u8],
    rest: &[u8],
    out: &mut [u8],
) -> Answered
    ensures { Answers last.book store.old (begun.now ++ rest.now) out.old last.next result store.new out.new }
{
    let line = OpenLine::join(begun, rest);
    answer_line(last, store, line.as_slice(), out)
}
