// The payments at all ages, from the lists of a pattern record.
ghost use Rattle.std.specs.Prelude.{◌≡◌, ◌-◌, ◌*◌, ◌≤◌, take};
ghost use Rattle.model.specs.Basics.{sum};
ghost use Rattle.model.specs.Letter.{ages};
ghost use Rattle.payments.specs.Schedule.{all_ages, schedule_of, listed_of, judged_of, Listed, in_places, tailed};

use crate::payment::{has_incurred, payments};
use crate::tail::{ten_year_tail, two_year_tail};
use letters::letter;
use money::amount::Amount;
use refusal::Refusal;

// How many ages a line's payments have: 16, or 4.
pub fn all_ages(letter: u8) -> usize
    ensures { result ≡ all_ages letter }
{
    if letter::is_ten_year(letter) { 16 } else { 4 }
}

// "A pattern record gives cumulative paid and incurred for each age, youngest age first.": the payments that these lists give for a line, in half units, at ages 1
// to 16, or at 1 to 4 and then zeros; or the first of questions 3, 4, 6, 11 and 12 that is answered no.
pub fn schedule_of(letter: u8, paid: &[u64], incurred: &[u64]) -> Result<[u64; 16], Refusal>
    ensures { result ≡ schedule_of letter paid.now incurred.now }
{
    if !letter::is_covered(letter) {
        return Err(Refusal::UncoveredLetter);
    }
    ask_lists(letter, paid, incurred)
}

// Questions 4 and 6, and on.
fn ask_lists(letter: u8, paid: &[u64], incurred: &[u64]) -> Result<[u64; 16], Refusal>
    ensures { result ≡ listed_of letter paid.now incurred.now }
{
    let ages = letter::ages(letter);
    if paid.len() != ages {
        return Err(Refusal::WrongCount);
    }
    if incurred.len() != ages {
        return Err(Refusal::WrongCount);
    }
    if !Amount::all(paid) {
        return Err(Refusal::OutsideLimits);
    }
    if !Amount::all(incurred) {
        return Err(Refusal::OutsideLimits);
    }
    judge(letter, paid, incurred)
}

// Questions 11 and 12.
fn judge(letter: u8, paid: &[u64], incurred: &[u64]) -> Result<[u64; 16], Refusal>
    requires { Listed letter paid.now incurred.now }
    ensures { result ≡ judged_of letter paid.now incurred.now }
{
    if !has_incurred(paid, incurred) {
        return Err(Refusal::IncurredTooSmall);
    }
    let Some(given) = payments(paid, incurred) else {
        return Err(Refusal::RatioFalls);
    };
    Ok(with_tail(letter, given.pay, given.last))
}

// The payments at all ages, and zeros.
fn with_tail(letter: u8, pay: [u64; 16], last: u64) -> [u64; 16]
    requires { (last ≤ 100000000) × (sum (take (ages letter) pay) ≤ 200000000) }
    ensures { result ≡ in_places letter (tailed letter pay (200000000 - 2 * last)) }
{
    let unpaid = 200000000 - 2 * last;
    if letter::is_ten_year(letter) {
        return ten_year_tail(pay, unpaid);
    }
    two_year_tail(pay, unpaid)
}
