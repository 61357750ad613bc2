// "A number is digits without leading zeros ("0" alone is right); a minus sign is allowed only before a nonzero paid in YEAR."
// A number is read in one pass, from the front of the rest of a line to the end of its field.
ghost use Rattle.std.specs.Prelude.{◌≡◌, ◌∷◌, true, false, length, drop};
ghost use Rattle.model.specs.Field.{fields, field};
ghost use Rattle.model.specs.Number.{is_plain, minus};
ghost use Rattle.numbers.specs.Number.{has_minus, leading, is_end, without_sign, number_in};

use crate::front::{Digits, digits_to_tab, leading_digits};

// A number that is well written: its sign, its size, which stops above every limit, and how many bytes it has.
#[derive(Clone, Copy, PartialEq, Eq)]
pub struct Number {
    pub minus: bool,
    pub size: u64,
    pub length: usize,
}

// A number without a sign.
impl From<Digits> for Number {
    ghost from_gives = { λ digits number. number ≡ without_sign digits };

    fn from(digits: Digits) -> Number {
        Number {
            minus: false,
            size: digits.size,
            length: digits.length,
        }
    }
}

// "digits without leading zeros ("0" alone is right)": are the digits at the front that, where they are so many?
fn is_unpadded(rest: &[u8], count: usize) -> bool
    requires { count ≡ length (leading rest.now) }
    ensures { result ≡ is_plain (leading rest.now) }
{
    match count {
        0 => false,
        1 => true,
        _ => rest[0] != b'0',
    }
}

// Does a field end at place `at`?
fn is_end(rest: &[u8], at: usize) -> bool
    ensures { result ≡ is_end (drop at rest.now) }
{
    at >= rest.len() || rest[at] == b'\t'
}

// The number at the front, if no minus sign is allowed.
fn unsigned(rest: &[u8]) -> Option<Number>
    ensures { result ≡ number_in false (field 0 (fields rest.now)) }
{
    let digits = leading_digits(rest);
    if is_unpadded(rest, digits.length) && is_end(rest, digits.length) {
        Some(Number::from(digits))
    } else {
        None
    }
}

// The number at the front, where a minus sign stood before it: no zero.
fn below_zero(rest: &[u8]) -> Option<Number>
    ensures { result ≡ number_in true (minus ∷ field 0 (fields rest.now)) }
{
    let number = unsigned(rest)?;
    if number.size == 0 {
        return None;
    }
    Some(Number {
        minus: true,
        length: number.length + 1,
        ..number
    })
}

// Does the field at the front begin with a minus sign?
fn has_minus(rest: &[u8]) -> bool
    ensures { result ≡ has_minus rest.now }
{
    rest.starts_with(b"-")
}

// The number at the front, where `allowed` says whether a minus sign is allowed.
fn signed(rest: &[u8], allowed: bool) -> Option<Number>
    ensures { result ≡ number_in allowed (field 0 (fields rest.now)) }
{
    if allowed && has_minus(rest) {
        below_zero(&rest[1..])
    } else {
        unsigned(rest)
    }
}

// The number in the field that begins at a place, where `allowed` says whether a minus sign is allowed; none where it is not well written, or past the line's end.
pub fn number_from(line: &[u8], at: usize, allowed: bool) -> Option<Number>
    ensures { result ≡ number_in allowed (field 0 (fields (drop at line.now))) }
{
    if at > line.len() {
        return None;
    }
    let rest = &line[at..];
    match digits_to_tab(rest) {
        Some(digits) => is_unpadded(rest, digits.length).then_some(Number::from(digits)),
        None => signed(rest, allowed),
    }
}
