// "Questions put to a record, in this order": 1 to 5. Question 6 is asked by the call with numbers that the line makes.
ghost use Rattle.model.specs.Field.{fields};
ghost use Rattle.form.specs.Request.{kind};
ghost use Rattle.record.specs.Request.{read_of, Gives};
ghost use Rattle.record.specs.Read.{from_count, Lettered};

use crate::gather::gather;
use field::field::{count, first};
use form::request::{Request, request_of};
use form::word::word_of;
use refusal::Refusal;

// F-3: "Make 418 the limit in question 1."
pub const LONGEST: usize = 418;

// "4. Is the count of fields right?", "5. Is every number well written?"
fn ask_numbers(
    line: &[u8],
    request: Request,
    minus: &mut [bool; 62],
    sizes: &mut [u64; 62],
) -> Result<Request, Refusal>
    requires { Lettered (fields line.now) request }
    ensures { Gives (from_count (kind request) (fields line.now) minus.old sizes.old) result minus.new sizes.new }
{
    let expected = request.field_count();
    let place = request.first_number();
    if gather(line, request, place, expected, minus, sizes) {
        return Ok(request);
    }
    if count(line) == expected {
        return Err(Refusal::BadlyWritten);
    }
    Err(Refusal::WrongCount)
}

// "1. Has the line at most 1,024 bytes?" (F-3: "Make 418 the limit in question 1.")
// "2. Is the first field, byte for byte, one of the four words?" (F-2: "New records' words, here and below, join question 2's.")
// "3. But for RATE: is the second field a covered letter? (no second field is a no)", and on.
// What the line asks, or what is wrong at the first question that is answered no. The sign and the size of each number go to its field's place of the lent lists.
pub fn read(line: &[u8], minus: &mut [bool; 62], sizes: &mut [u64; 62]) -> Result<Request, Refusal>
    ensures { Gives (read_of line.now minus.old sizes.old) result minus.new sizes.new }
{
    if line.len() > LONGEST {
        return Err(Refusal::TooLong);
    }
    let word = word_of(first(line)).ok_or(Refusal::UnknownWord)?;
    let request = request_of(word, line).ok_or(Refusal::UncoveredLetter)?;
    ask_numbers(line, request, minus, sizes)
}
