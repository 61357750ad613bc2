// A run: standard input is read in pieces, and what a piece is answered is written before the next one is read. A read that fails ends the input; a write that fails ends the run.
ghost use Rattle.std.specs.Prelude.{◌≡◌, true, Ok, [], ◌++◌, take, IfOk, OnOk, OnErr};
ghost use Rattle.std.specs.Io.KnownBytes.{Consumes, Appends, IsAtEnd};
ghost use Rattle.pieces.specs.Feed.{text_of};
ghost use Rattle.console.specs.Take.{IsPrefixLen, Takes, TakesPart, TakesSome, Led};
ghost use Rattle.console.specs.Through.{Through};
ghost use Rattle.console.specs.Write.{last_answer, last_counts};

use crate::write::{Asked, write_text};
use pieces::feed::{Fed, Run, close, done, feed, start};
use state::store::{CELLS, Store};
use std::io::{self, ErrorKind, Read, Write};

pub fn run(rt: HostRuntime) {
    answer_all(&mut rt.stdin(), &mut rt.stdout());
}

// Whether the input was read to its end, and whether all that it is answered was written. These are two facts: after a read that fails all is still answered and written.
#[derive(Clone, Copy)]
pub struct Ended {
    pub read: bool,
    pub written: bool,
}

// The same over any reader and writer: what is written is the model's run of what is read.
pub fn answer_all<R: Read, W: Write>(input: &mut R, output: &mut W) -> Ended
    ensures written { result.written ≡ true → Through (R.remaining input.old) (R.remaining input.new) (W.contents output.old) (W.contents output.new) }
    ensures read { result.read ≡ true → IsAtEnd (R.remaining input.new) }
{
    let mut store = [0u64; CELLS];
    let mut so_far = start(&mut store);
    let mut piece = [0u8; 65536];
    let mut out = [0u8; 65536];
    let mut read = false;
    // A proved loop has to end: no run makes so many turns.
    for _ in 0..u64::MAX {
        match read_piece(input, &mut piece) {
            Ok(0) => {
                read = true;
                break;
            }
            Ok(n) => match take_piece(so_far, &mut store, &piece[..n], &mut out, output) {
                Ok(later) => so_far = later,
                Err(_) => return Ended {
                    read,
                    written: false,
                },
            },
            Err(_) => break,
        }
    }
    let written = finish(so_far, &mut store, &mut out, output).is_ok();
    Ended { read, written }
}

// How many bytes were read, none at the end of input. A read that was only interrupted is made again.
fn read_piece<R: Read>(input: &mut R, piece: &mut [u8; 65536]) -> io::Result<usize>
    ensures count { IfOk result (λ n. IsPrefixLen n piece.new) }
    ensures bytes { IfOk result (λ n. Consumes (R.remaining input.old) (R.remaining input.new) (take n piece.new)) }
    ensures end { result ≡ Ok 0 → IsAtEnd (R.remaining input.new) }
    ensures failed { OnErr result (Consumes (R.remaining input.old) (R.remaining input.new) []) }
{
    for _ in 0..u64::MAX {
        match input.read(piece) {
            Err(e) if e.kind() == ErrorKind::Interrupted => {}
            ended => return ended,
        }
    }
    Err(ErrorKind::Interrupted.into())
}

// The whole piece, part after part: the run after it.
fn take_piece<W: Write>(
    run: Run,
    store: &mut Store,
    piece: &[u8],
    out: &mut [u8; 65536],
    output: &mut W,
) -> io::Result<Run>
    ensures takes { IfOk result (λ later. Takes run store.old piece.now later store.new) }
    ensures written { OnOk result (Appends (W.contents output.old) (W.contents output.new) (text_of run store.old piece.now)) }
    ensures failed { OnErr result (TakesSome run store.old piece.now store.new) }
{
    let mut last = run;
    let mut rest = piece;
    while !rest.is_empty() {
        let fed = take_part(last, store, rest, out, output)?;
        last = fed.run;
        rest = &rest[fed.taken..];
    }
    Ok(last)
}

// As much of a piece as its answers have room for.
fn take_part<W: Write>(
    run: Run,
    store: &mut Store,
    piece: &[u8],
    out: &mut [u8; 65536],
    output: &mut W,
) -> io::Result<Fed>
    ensures takes { IfOk result (λ fed. TakesPart run store.old piece.now fed store.new) }
    ensures written { IfOk result (λ fed. Appends (W.contents output.old) (W.contents output.new) (text_of run store.old (take fed.taken piece.now))) }
    ensures failed { OnErr result (TakesSome run store.old piece.now store.new) }
{
    let before = *store;
    let fed = feed(run, store, piece, out);
    let asked = Asked::Bytes(&piece[..fed.taken]);
    write_text(output, &out[..fed.put], asked, &run, &before)?;
    Ok(fed)
}

// The last line, if one is open, and DONE.
fn finish<W: Write>(
    run: Run,
    store: &mut Store,
    out: &mut [u8; 65536],
    output: &mut W,
) -> io::Result<()>
    requires { Led run store.old }
    ensures { OnOk result (Appends (W.contents output.old) (W.contents output.new) (last_answer run store.old ++ last_counts run store.old)) }
{
    let before = *store;
    let last = close(run, store, out);
    write_text(output, &out[..last.next], Asked::LastLine, &run, &before)?;
    let put = done(last.book, out);
    write_text(output, &out[..put], Asked::Counts, &run, &before)
}
