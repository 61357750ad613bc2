// The rate of an accident year.
ghost use Rattle.std.specs.Prelude.{◌≡◌, ◌^◌, ◌<◌, sum};
ghost use Rattle.rates.specs.Rate.{mean_of};

use kinds::rate::Rate;
use refusal::Refusal;

// "An accident year's rate is the sum of sixty monthly rates plus 30, divided by 60, rounded down.": of these months; or that there are not sixty of them, or that
// one of them is no rate. The mean of rates is a rate.
pub fn mean_rate(months: &[u64]) -> Result<Rate, Refusal>
    ensures { result ≡ mean_of months.now }
{
    if months.len() != 60 {
        return Err(Refusal::WrongCount);
    }
    if !Rate::all(months) {
        return Err(Refusal::OutsideLimits);
    }
    Ok(Rate::new((total(months) + 30) / 60).unwrap())
}

fn total(months: &[u64]) -> u64
    requires { sum months.now < 2 ^ 64 }
    ensures { result ≡ sum months.now }
{
    months.iter().sum()
}
