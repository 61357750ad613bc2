// The letters of Schedule P that the book covers, and the ages of their lines.
ghost use Rattle.std.specs.Prelude.{◌≡◌};
ghost use Rattle.model.specs.Letter.{ten_year, covered, ages};

// "A B C D E F G H R (ten-year lines)"
#[tactic(auto, using(crate::proofs::Letters::ten_year_lem))]
pub fn is_ten_year(letter: u8) -> bool
    ensures { result ≡ ten_year letter }
{
    matches!(letter, b'A'..=b'H' | b'R')
}

// "and I J K L S T (two-year lines; T is warranty)"
#[tactic(auto, using(crate::proofs::Letters::covered_lem))]
pub fn is_covered(letter: u8) -> bool
    ensures { result ≡ covered letter }
{
    matches!(letter, b'A'..=b'L' | b'R'..=b'T')
}

// The ages that a pattern and a year of the line give: ten, or two.
#[tactic(auto, unfolding(model::specs::Letter::ages))]
pub fn ages(letter: u8) -> usize
    ensures { result ≡ ages letter }
{
    if is_ten_year(letter) { 10 } else { 2 }
}
