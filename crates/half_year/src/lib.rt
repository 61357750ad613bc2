// The half-year factor of a rate.
#![tactic(auto)]

mod square_rule;
mod table;

ghost use Rattle.std.specs.Prelude.{◌≡◌, true};
ghost use Rattle.model.specs.HalfYear.{half_year};
ghost use Rattle.half_year.specs.SquareRule.{are_half_years};

use crate::square_rule::is_half_year;
use kinds::rate::Rate;

// The half-year factor of a rate, from the table.
pub fn half_year(rate: Rate) -> u64
    ensures { result ≡ half_year rate }
{
    let number = rate.number();
    let entries = all_entries();
    entries[number as usize]
}

// All entries, whose square rule is computed once. Whoever names a constant array builds it whole.
fn all_entries() -> [u64; 2501]
    ensures { are_half_years 0 result ≡ true }
{
    table::HALF_YEARS
}

// The same factor. The hint, any number, spares the table where it is that factor.
pub fn half_year_with_hint(rate: Rate, hint: u64) -> u64
    ensures { result ≡ half_year rate }
{
    if is_half_year(rate, hint) {
        return hint;
    }
    half_year(rate)
}
