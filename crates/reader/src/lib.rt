// "The reader of a line carries the line and its place."
// `number` leaves the work to `number_from`, which takes a plain slice, and every other caller calls `read_number`, whose parameters are plain too.
#![tactic(auto)]

ghost use Rattle.std.specs.Prelude.{◌≡◌, drop};
ghost use Rattle.model.specs.Field.{fields, field};
ghost use Rattle.numbers.specs.Number.{number_in};

use numbers::number::{Number, number_from};

#[derive(Clone, Copy)]
pub struct Reader<'a> {
    pub line: &'a [u8],
    pub at: usize,
}

impl<'a> Reader<'a> {
    // The reader of a line at a place.
    pub fn begin(line: &'a [u8], at: usize) -> Reader<'a>
        ensures { (result.line ≡ line.entry) × (result.at ≡ at) }
    {
        Reader { line, at }
    }

    // The number at the reader's place, where `allowed` says whether a minus sign is allowed.
    pub fn number(self, allowed: bool) -> Option<Number>
        ensures { result ≡ number_in allowed (field 0 (fields (drop self.entry.at self.entry.line.now))) }
    {
        number_from(self.line, self.at, allowed)
    }
}

// The number in the field that begins at a place, by the reader of the line.
pub fn read_number(line: &[u8], at: usize, allowed: bool) -> Option<Number>
    ensures { result ≡ number_in allowed (field 0 (fields (drop at line.now))) }
{
    Reader::begin(line, at).number(allowed)
}
