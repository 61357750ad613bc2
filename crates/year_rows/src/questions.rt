// Questions 4 and 6, put to the lists of a year, and what question 13 asks of a row.
ghost use Rattle.std.specs.Prelude.{◌≡◌, ltb};
ghost use Rattle.model.specs.Call.{close_year};
ghost use Rattle.model.specs.Question.{has_lengths};
ghost use Rattle.model.specs.Row.{gross, stated};
ghost use Rattle.year_rows.specs.Limits.{has_limits};

use letters::letter::ages;
use money::amount::Amount;
use money::paid::Paid;

// "4. Is the count of fields right?": a number for each age, and one for the prior row, in each list.
pub fn has_lengths(letter: u8, paid: &[i64], unpaid: &[u64], tabular: &[u64]) -> bool
    ensures { result ≡ has_lengths (close_year letter 0 paid.now unpaid.now tabular.now) }
{
    let rows = ages(letter) + 1;
    paid.len() == rows && unpaid.len() == rows && tabular.len() == rows
}

// "6. Is every number within its limits?"
pub fn has_limits(paid: &[i64], unpaid: &[u64], tabular: &[u64]) -> bool
    ensures { result ≡ has_limits paid.now unpaid.now tabular.now }
{
    Paid::all(paid) && Amount::all(unpaid) && Amount::all(tabular)
}

// "gross above 0": one of the two numbers is.
pub fn has_gross(unpaid: u64, tabular: u64) -> bool
    ensures { result ≡ ltb 0 (gross (stated unpaid tabular)) }
{
    unpaid > 0 || tabular > 0
}
