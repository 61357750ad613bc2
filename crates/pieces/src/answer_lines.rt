// The lines that end in a piece, answered one after the other.
ghost use Rattle.std.specs.Prelude.{◌≡◌, ◌≤◌, length};
ghost use Rattle.pieces.specs.Progress.{kept_bytes};
ghost use Rattle.pieces.specs.Feed.{AnswersLines, AnswersWholeLines, can_answer};

use crate::answer_line::{Answered, answer_joined, answer_line};
use answer::text::has_room;
use line_end::line_end;
use state::book::Book;
use state::store::Store;

// The later book; how many bytes of the line before the piece still wait for its end; the place after the last line; the place after the texts.
#[derive(Clone, Copy)]
pub struct Lines {
    pub book: Book,
    pub begun: usize,
    pub at: usize,
    pub put: usize,
}

// `begun` is the line so far. It stops where the longest text has no room.
pub fn answer_lines(
    book: Book,
    store: &mut Store,
    begun: &[u8],
    piece: &[u8],
    out: &mut [u8],
) -> Lines
    requires { length begun.now ≤ kept_bytes }
    ensures { AnswersLines book store.old begun.now piece.now out.old result store.new out.new }
{
    let first = Answered { book, next: 0 };
    if begun.is_empty() {
        return answer_whole_lines(first, store, piece, 0, out);
    }
    let end = line_end(piece, 0);
    if can_answer(piece, end, out, 0) {
        let joined = answer_joined(first, store, begun, &piece[..end], out);
        return answer_whole_lines(joined, store, piece, end + 1, out);
    }
    Lines {
        book,
        begun: begun.len(),
        at: 0,
        put: 0,
    }
}

// The lines that stand whole in the piece, from a place on: each is read where it stands.
fn answer_whole_lines(
    first: Answered,
    store: &mut Store,
    piece: &[u8],
    start: usize,
    out: &mut [u8],
) -> Lines
    requires { start ≤ length piece.now }
    ensures { AnswersWholeLines first.book store.old piece.now start out.old first.next result store.new out.new }
{
    let mut last = first;
    let mut at = start;
    let mut end = line_end(piece, at);
    while can_answer(piece, end, out, last.next) {
        last = answer_line(last, store, &piece[at..end], out);
        at = end + 1;
        end = line_end(piece, at);
    }
    Lines {
        book: last.book,
        begun: 0,
        at,
        put: last.next,
    }
}

// Does the line end in the piece, and has the longest text room?
fn can_answer(piece: &[u8], end: usize, out: &[u8], put: usize) -> bool
    ensures { result ≡ can_answer piece.now end out.now put }
{
    end < piece.len() && has_room(out, put)
}
