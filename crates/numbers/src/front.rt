// The digits at the front of the rest of a line: their number, and how many they are.
ghost use Rattle.std.specs.Prelude.{◌≡◌, ◌+◌, ◌-◌, ◌*◌, ◌≤◌, true, min};
ghost use Rattle.model.specs.Number.{is_digit};
ghost use Rattle.numbers.specs.Number.{most, leading_digits, digits_to_tab};

// Above every limit: what a longer number is read as.
const MOST: u64 = 1000000000000;

// So many digits stay below MOST.
const FRONT: usize = 12;

#[derive(Clone, Copy)]
pub struct Digits {
    pub size: u64,
    pub length: usize,
}

// One digit more.
fn longer(n: u64, digit: u8) -> u64
    requires { (n ≤ most) × (is_digit digit ≡ true) }
    ensures { result ≡ min (n * 10 + (digit - 48)) most }
{
    (n * 10 + u64::from(digit - b'0')).min(MOST)
}

// The digits at the front: their number, or MOST.
pub fn leading_digits(rest: &[u8]) -> Digits
    ensures { result ≡ leading_digits rest.now }
{
    let mut size = 0;
    for (length, &byte) in rest.iter().enumerate() {
        if !byte.is_ascii_digit() {
            return Digits { size, length };
        }
        size = longer(size, byte);
    }
    Digits {
        size,
        length: rest.len(),
    }
}

// The same, if twelve bytes are left and a tab among these ends the digits. It is not asked at each byte whether the line goes on.
pub fn digits_to_tab(rest: &[u8]) -> Option<Digits>
    ensures { result ≡ digits_to_tab rest.now }
{
    let front = rest.first_chunk::<FRONT>()?;
    let mut size = 0;
    for (length, &byte) in front.iter().enumerate() {
        if !byte.is_ascii_digit() {
            return (byte == b'\t').then_some(Digits { size, length });
        }
        size = size * 10 + u64::from(byte - b'0');
    }
    None
}
