// A text, and what is put at its end.
ghost use Rattle.std.specs.Prelude.{◌≡◌, ◌+◌, ◌≤◌, ◌∷◌, ◌++◌, length};
ghost use Rattle.arrayvec.specs.ArrayVec.{array_vec_len};

use arrayvec::ArrayVec;
use itoa::{Buffer, Integer};

pub fn put<const N: usize>(out: &mut ArrayVec<u8, N>, text: &[u8])
    requires { array_vec_len out.old + length text.now ≤ N }
    ensures bytes { out.new.items ≡ out.old.items ++ text.now }
    ensures len { array_vec_len out.new ≡ array_vec_len out.old + length text.now }
{
    out.try_extend_from_slice(text).unwrap();
}

// A tab and a number.
pub fn put_number<I: Integer, const N: usize>(out: &mut ArrayVec<u8, N>, n: I)
    requires { array_vec_len out.old + (I.MAX_STR_LEN + 1) ≤ N }
    ensures bytes { out.new.items ≡ out.old.items ++ (9 ∷ I.text n) }
    ensures short { array_vec_len out.new ≤ array_vec_len out.old + (I.MAX_STR_LEN + 1) }
{
    out.push(b'\t');
    put(out, Buffer::new().format(n).as_bytes());
}
