// The composite of a pattern.
ghost use Rattle.std.specs.Prelude.{◌≡◌, ◌+◌, drop, take, if◌then◌else◌};
ghost use Rattle.model.specs.Letter.{ten_year};
ghost use Rattle.model.specs.Factor.{factor};
ghost use Rattle.model.specs.Composite.{mean};
ghost use Rattle.payments.specs.Schedule.{all_ages};
ghost use Rattle.factor.specs.Composite.{Averaged, Composed};

use kinds::factor::Factor;
use kinds::rate::Rate;
use letters::letter::is_ten_year;

// "The composite, for the prior row, is the unpaid-weighted mean of the factors of ages 11 to 15 .. For a two-year line it is the factor of age 3."
pub fn composite(letter: u8, pay: &[u64; 16], factors: &[u64; 16], half: Factor, rate: Rate) -> u64
    requires { Composed letter pay.now factors.now half rate }
    ensures { result ≡ (if ten_year letter then mean half (10000 + rate) 5 (drop 11 pay.now) else factor half (10000 + rate) (drop 3 (take 4 pay.now))) }
{
    if is_ten_year(letter) {
        return mean_factor(pay, factors, half, rate);
    }
    factors[2]
}

// "the unpaid-weighted mean of the factors of ages 11 to 15, rounded down (H if all unpaid are 0)": from the last age back to age 11.
fn mean_factor(pay: &[u64], factors: &[u64], half: Factor, rate: Rate) -> u64
    requires { Averaged pay.now factors.now half rate }
    ensures { result ≡ mean half (10000 + rate) 5 (drop 11 pay.now) }
{
    let half = half.number();
    let mut unpaid = 0;
    let mut weight = 0;
    let mut weighted = 0;
    for at in (11..16).rev() {
        unpaid += pay[at];
        weight += unpaid;
        weighted += unpaid * factors[at - 1];
    }
    if weight == 0 {
        return half;
    }
    weighted / weight
}
