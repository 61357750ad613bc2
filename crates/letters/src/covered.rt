// A letter that the book covers: "A B C D E F G H R (ten-year lines) and I J K L S T (two-year lines; T is warranty)".
ghost use Rattle.std.specs.Prelude.{◌≡◌, true, ℕ};
ghost use Rattle.model.specs.Letter.{covered};
ghost use Rattle.letters.specs.Covered.{covered_letter};

use crate::letter::is_covered;
use std::marker::Model;

// A contract sees the letter alone.
#[derive(Clone, Copy)]
pub struct Covered {
    letter: u8,
}

impl Model for Covered {
    ghost Value = { ℕ };

    ghost view = { λ c. c.letter };

    ghost invariant = { λ c. covered c.letter ≡ true };

    ghost inverse = { λ n. record { letter = n } };
}

impl Covered {
    // The letter, if the book covers it.
    pub fn new(letter: u8) -> Option<Covered>
        ensures { result ≡ covered_letter letter }
    {
        if is_covered(letter) {
            Some(Covered { letter })
        } else {
            None
        }
    }

    pub fn letter(self) -> u8
        ensures value { result ≡ self }
        ensures covered { covered result ≡ true }
    {
        self.letter
    }
}
