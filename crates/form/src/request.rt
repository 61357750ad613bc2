// What a record asks, and its form: how many fields it has, where its numbers begin, and which of them may have a minus sign.
ghost use Rattle.std.specs.Prelude.{◌≡◌, Some, length};
ghost use Rattle.model.specs.Field.{fields, letter_in};
ghost use Rattle.model.specs.Record.{form_of, field_count, first_number, allows_minus};
ghost use Rattle.form.specs.Word.{named};
ghost use Rattle.form.specs.Request.{kind, letter, is_lettered, requested};

use crate::letter::letter_of;
use crate::word::Word;
use field::field::has_fields;
use letters::letter::{is_covered, is_ten_year};

// A call of one of the seven kinds, with the byte that the second field is, 0 where it is not one byte; RATE and MIDT need no letter there.
// The call's numbers stand in the lists that the caller of `record::read` lends.
#[derive(Clone, Copy, PartialEq, Eq)]
pub enum Request {
    Declare(u8),
    SetRate(u8),
    SetRateFromRegister(u8),
    AddPattern(u8),
    CloseYear(u8),
    Totals(u8),
    RegisterMonth(u8),
}

// The request of a record of the word in its form, whatever its letter. RATE has two forms (F-4): "RATE with a year alone" has two fields.
pub fn form_of(word: Word, line: &[u8]) -> Request
    ensures form { kind result ≡ form_of (named (Some word)) (length (fields line.now)) }
    ensures letter { letter result ≡ letter_in (fields line.now) }
{
    let letter = letter_of(line).unwrap_or(0);
    match word {
        Word::Rate if has_fields(line, 2) => Request::SetRateFromRegister(letter),
        Word::Rate => Request::SetRate(letter),
        Word::Midt => Request::RegisterMonth(letter),
        Word::Line => Request::Declare(letter),
        Word::Patt => Request::AddPattern(letter),
        Word::Year => Request::CloseYear(letter),
        Word::Sum => Request::Totals(letter),
    }
}

// What a record of the word asks, if its letter is covered where it must have one.
#[tactic(auto, using(crate::proofs::Requests::of_its_kind_and_letter))]
pub fn request_of(word: Word, line: &[u8]) -> Option<Request>
    ensures { result ≡ requested (form_of (named (Some word)) (length (fields line.now))) (letter_in (fields line.now)) }
{
    let request = form_of(word, line);
    request.is_lettered().then_some(request)
}

impl Request {
    // "But for RATE: is the second field a covered letter?" F-4: nor is one asked of MIDT.
    pub fn is_lettered(self) -> bool
        ensures { result ≡ is_lettered (kind self) (letter self) }
    {
        match self {
            Request::Declare(letter)
            | Request::AddPattern(letter)
            | Request::CloseYear(letter)
            | Request::Totals(letter) => is_covered(letter),
            _ => true,
        }
    }

    // "RATE, year, sixty rates: 62 fields." "PATT ..: 23 or 7 fields." "YEAR ..: 36 or 12 fields." F-2: "SUM has two fields". F-4: MIDT, year, month, rate; and "RATE with a year alone".
    pub fn field_count(self) -> usize
        ensures { result ≡ field_count (kind self) (letter self) }
    {
        match self {
            Request::Declare(_) => 3,
            Request::SetRate(_) => 62,
            Request::SetRateFromRegister(_) => 2,
            Request::AddPattern(letter) => if is_ten_year(letter) { 23 } else { 7 },
            Request::CloseYear(letter) => if is_ten_year(letter) { 36 } else { 12 },
            Request::Totals(_) => 2,
            Request::RegisterMonth(_) => 4,
        }
    }

    // The place of the first number: all fields but the word and the letter are numbers.
    pub fn first_number(self) -> usize
        ensures { result ≡ first_number (kind self) }
    {
        match self {
            Request::SetRate(_) | Request::SetRateFromRegister(_) | Request::RegisterMonth(_) => 1,
            _ => 2,
        }
    }

    // "a minus sign is allowed only before a nonzero paid in YEAR": paid stands at places 3, 6, 9 ..
    pub fn allows_minus(self, place: usize) -> bool
        ensures { result ≡ allows_minus (kind self) place }
    {
        matches!(self, Request::CloseYear(_)) && place % 3 == 0
    }
}
