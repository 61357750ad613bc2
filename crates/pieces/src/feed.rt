// A piece of the input: its lines answered one after the other, and the line that it leaves open.
ghost use Rattle.pieces.specs.Feed.{IsStart, Feeds, Closes, PutsDone};

use crate::answer_line::{Answered, answer_line};
use crate::answer_lines::answer_lines;
use crate::line::OpenLine;
use answer::text::{has_room, put_done};
use state::book::{Book, empty};
use state::store::Store;

// What stands between two pieces.
#[derive(Clone, Copy)]
pub struct Run {
    pub book: Book,
    pub line: OpenLine,
}

// The run after the bytes that were taken, and how long the text is that was put.
#[derive(Clone, Copy)]
pub struct Fed {
    pub run: Run,
    pub taken: usize,
    pub put: usize,
}

// Before the first byte.
pub fn start(store: &mut Store) -> Run
    ensures { IsStart result store.new }
{
    Run {
        book: empty(store),
        line: OpenLine::empty(),
    }
}

// Takes the bytes of a piece, and puts the answers from the start of `out` on, as long as the longest text has room.
pub fn feed(run: Run, store: &mut Store, piece: &[u8], out: &mut [u8]) -> Fed
    ensures { Feeds run store.old piece.now out.old result store.new out.new }
{
    let begun = run.line.as_slice();
    let lines = answer_lines(run.book, store, begun, piece, out);
    // Where the longest text still has room, no line ends in the rest, and it is taken too.
    let taken = if has_room(out, lines.put) {
        piece.len()
    } else {
        lines.at
    };
    let line = OpenLine::join(&begun[..lines.begun], &piece[lines.at..taken]);
    let book = lines.book;
    Fed {
        run: Run { book, line },
        taken,
        put: lines.put,
    }
}

// The end of input: the last line, if one is open, is a record.
pub fn close(run: Run, store: &mut Store, out: &mut [u8; 65536]) -> Answered
    ensures { Closes run store.old out.old result store.new out.new }
{
    let book = run.book;
    let last = Answered { book, next: 0 };
    let line = run.line.as_slice();
    if line.is_empty() {
        return last;
    }
    answer_line(last, store, line, out)
}

// "DONE closes every run: accepted, refused.": the counts of the last book.
pub fn done(book: Book, out: &mut [u8; 65536]) -> usize
    ensures { PutsDone book out.old result out.new }
{
    put_done(out, 0, book.accepted, book.refused)
}
