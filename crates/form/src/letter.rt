// "But for RATE: is the second field a covered letter? (no second field is a no)": the letter that the second field is.
ghost use Rattle.std.specs.Prelude.{◌≡◌, eqb, is_some, length, unwrap_or};
ghost use Rattle.model.specs.Field.{fields, field, only_byte, letter_in};

use field::field::{first, start};

// The byte that a field is; none, for a field of another length.
fn only_byte(field: &[u8]) -> Option<u8>
    ensures byte { unwrap_or result 0 ≡ only_byte field.now }
    ensures alone { is_some result ≡ eqb (length field.now) 1 }
{
    match field {
        [byte] => Some(*byte),
        _ => None,
    }
}

// The letter of a record: the byte that its second field is, if it is one.
pub fn letter_of(line: &[u8]) -> Option<u8>
    ensures letter { unwrap_or result 0 ≡ letter_in (fields line.now) }
    ensures alone { is_some result ≡ eqb (length (field 1 (fields line.now))) 1 }
{
    let at = start(line, 1)?;
    only_byte(first(&line[at..]))
}
