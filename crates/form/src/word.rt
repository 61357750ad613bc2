// "Is the first field, byte for byte, one of the four words?" F-2: "New records' words, here and below, join question 2's."
ghost use Rattle.std.specs.Prelude.{◌≡◌};
ghost use Rattle.model.specs.Record.{word_of};
ghost use Rattle.form.specs.Word.{named};

#[derive(Clone, Copy, PartialEq, Eq)]
pub enum Word {
    Line,
    Rate,
    Patt,
    Year,
    Sum,
    Midt,
}

// Which of the six words the field is, if any.
#[tactic(auto, using(crate::proofs::Words::word_spelled, crate::proofs::Words::too_short, crate::proofs::Words::too_long, crate::proofs::Words::other_three, crate::proofs::Words::other_first, crate::proofs::Words::other_year, crate::proofs::Words::other_month, crate::proofs::Words::other_middle))]
pub fn word_of(field: &[u8]) -> Option<Word>
    ensures { named result ≡ word_of field.now }
{
    match field {
        b"LINE" => Some(Word::Line),
        b"RATE" => Some(Word::Rate),
        b"PATT" => Some(Word::Patt),
        b"YEAR" => Some(Word::Year),
        b"SUM" => Some(Word::Sum),
        b"MIDT" => Some(Word::Midt),
        _ => None,
    }
}
