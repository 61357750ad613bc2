// A pattern's kept factors and composite, from the lists of a pattern record.
ghost use Rattle.std.specs.Prelude.{◌≡◌, ◌++◌, ◌-◌, ◌≤◌, take, replicate};
ghost use Rattle.model.specs.Pattern.{unpaid};
ghost use Rattle.payments.specs.Schedule.{all_ages};
ghost use Rattle.factor.specs.Pattern.{pattern_of, kept_of};

use crate::composite::composite;
use crate::walk::walk;
use half_year::half_year_with_hint;
use kinds::factor::Factor;
use kinds::rate::Rate;
use letters::letter;
use payments::schedule::{all_ages, schedule_of};
use refusal::Refusal;

// The factors are those of ages 1 to 10, or of 1 and 2 and then zeros.
#[derive(Clone, Copy)]
pub struct Pattern {
    pub factors: [u64; 10],
    pub composite: u64,
}

// The pattern that lists of paid and incurred by age give for a line at a rate, or what is wrong with them. The hint, any number, spares the table of half-year
// factors where it is the rate's.
pub fn discount(
    letter: u8,
    rate: Rate,
    hint: u64,
    paid: &[u64],
    incurred: &[u64],
) -> Result<Pattern, Refusal>
    ensures { result ≡ pattern_of letter rate paid.now incurred.now }
{
    let pay = schedule_of(letter, paid, incurred)?;
    Ok(from_payments(letter, rate, hint, pay))
}

// The pattern of the payments at all ages: the walk over them, and the composite of its factors.
fn from_payments(letter: u8, rate: Rate, hint: u64, pay: [u64; 16]) -> Pattern
    requires { unpaid pay ≤ 200000000 }
    ensures { result ≡ kept_of letter rate (take (all_ages letter) pay) }
{
    let half = Factor::new(half_year_with_hint(rate, hint)).unwrap();
    let count = all_ages(letter);
    let mut factors = [0u64; 16];
    walk(&pay[..count], 0, half, rate, &mut factors[..count]);
    Pattern {
        factors: first(factors, letter::ages(letter)),
        composite: composite(letter, &pay, &factors, half, rate),
    }
}

// The first n of the factors, and zeros.
fn first(factors: [u64; 16], n: usize) -> [u64; 10]
    requires { n ≤ 10 }
    ensures { result ≡ take n factors ++ replicate (10 - n) 0 }
{
    let mut kept = [0u64; 10];
    kept[..n].copy_from_slice(&factors[..n]);
    kept
}
