// The program's texts. No contract can say what reaches standard output, so a write asks that what it is handed is right; of a writer whose bytes are known it says that they grow by just that.
ghost use Rattle.std.specs.Prelude.{◌≡◌, OnOk};
ghost use Rattle.std.specs.Io.KnownBytes.{Appends};
ghost use Rattle.console.specs.Write.{text_for};

use pieces::feed::Run;
use state::store::Store;
use std::io::{self, Write};

// What a text is for: some bytes, the last line, if one is open, or the end of the run: "DONE closes every run: accepted, refused."
#[derive(Clone, Copy)]
pub enum Asked<'a> {
    Bytes(&'a [u8]),
    LastLine,
    Counts,
}

// (What is asked, the run and the store before it are there for the contract alone.)
pub fn write_text<W: Write>(
    output: &mut W,
    text: &[u8],
    asked: Asked,
    run: &Run,
    before: &Store,
) -> io::Result<()>
    requires { text.now ≡ text_for asked run.now before.now }
    ensures { OnOk result (Appends (W.contents output.old) (W.contents output.new) text.now) }
{
    output.write_all(text)
}
