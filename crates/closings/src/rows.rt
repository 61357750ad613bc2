// The patterns that the rows of a year take.
ghost use Rattle.std.specs.Prelude.{◌≡◌};
ghost use Rattle.model.specs.Letter.{ages};
ghost use Rattle.closings.specs.Rows.{have_patterns, row_factor_of, FactorsOf};

use letters::letter::ages;
use line_limits::line::Patterns;
use state::patterns::{COMPOSITE, factor_in};
use state::store::Store;
use year_rows::questions::has_gross;

// "13. YEAR: has every age row with gross above 0 a kept pattern?": the last pattern's year is the year, so the first rows have one.
pub fn have_patterns(letter: u8, patterns: Patterns, unpaid: &[u64], tabular: &[u64]) -> bool
    ensures { result ≡ have_patterns patterns.count (ages letter) unpaid.now tabular.now }
{
    unpaid
        .iter()
        .zip(tabular)
        .take(ages(letter))
        .skip(patterns.count as usize)
        .all(|(&stated, &disclosed)| !has_gross(stated, disclosed))
}

// "Row of age a in year Y takes the pattern of accident year Y - a + 1; the prior row takes the composite of accident year Y.": at place k, with the last pattern's year as Y.
fn row_factor(store: &Store, letter: u8, patterns: Patterns, k: usize) -> u64
    ensures { result ≡ row_factor_of store.now letter patterns k }
{
    let last = patterns.last;
    if k < ages(letter) {
        if k < patterns.count as usize {
            return factor_in(store, letter, last.saturating_sub(k as u64), k);
        }
        return 0;
    }
    factor_in(store, letter, last, COMPOSITE)
}

// The factors of all rows.
pub fn row_factors(store: &Store, letter: u8, patterns: Patterns) -> [u64; 11]
    ensures { FactorsOf store.now letter patterns result }
{
    let ages = ages(letter);
    let mut factors = [0u64; 11];
    for k in 0..=ages {
        factors[k] = row_factor(store, letter, patterns, k);
    }
    factors
}
