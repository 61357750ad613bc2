// The line so far, where a piece of the input ends within a line.
ghost use Rattle.std.specs.Prelude.{◌++◌, ◌≡◌, [], length, take, drop};
ghost use Rattle.pieces.specs.Progress.{kept_bytes};

use record::read::LONGEST;

// A line that is longer than the longest record is refused by its length alone, so of its bytes one more than that is kept, and no others.
pub const KEPT: usize = LONGEST + 1;

// The first `count` of `bytes`. The functions here leave zeros after them.
#[derive(Clone, Copy)]
pub struct OpenLine {
    pub bytes: [u8; KEPT],
    pub count: usize,
}

impl OpenLine {
    ghost use Rattle.pieces.specs.Feed.{bytes_of, open_line};

    // No byte of a line.
    pub(crate) fn empty() -> OpenLine
        ensures { result ≡ open_line [] }
    {
        OpenLine {
            bytes: [0; KEPT],
            count: 0,
        }
    }

    // The line with more bytes: as many of them as are kept.
    pub(crate) fn join(begun: &[u8], more: &[u8]) -> OpenLine
        ensures { result ≡ open_line (take kept_bytes (begun.now ++ more.now)) }
    {
        let mut bytes = [0; KEPT];
        let first = put_some(&mut bytes, begun);
        let count = first + put_some(&mut bytes[first..], more);
        OpenLine { bytes, count }
    }

    // The bytes of the line.
    pub(crate) fn as_slice(&self) -> &[u8]
        ensures { result.now ≡ bytes_of self.now }
    {
        &self.bytes[..self.count.min(KEPT)]
    }
}

// As much of a text as has room, at the front: how many bytes that is.
fn put_some(to: &mut [u8], text: &[u8]) -> usize
    ensures count { result ≡ length (take (length to.old) text.now) }
    ensures after { to.new ≡ take (length to.old) text.now ++ drop result to.old }
{
    let count = text.len().min(to.len());
    to[..count].copy_from_slice(&text[..count]);
    count
}
