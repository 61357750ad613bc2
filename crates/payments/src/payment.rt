// The payments by age that a pattern record gives.
ghost use Rattle.std.specs.Prelude.{◌≡◌, true};
ghost use Rattle.std.specs.List.{list_all};
ghost use Rattle.model.specs.Pattern.{ages_of};
ghost use Rattle.model.specs.Question.{is_incurred};
ghost use Rattle.payments.specs.Payment.{Payable};
ghost use Rattle.payments.specs.PaidByAge.{PaidByAge};

use crate::ratio::cumulative_ratio;

// The payments at the ages given, in half units, and zeros; and the last ratio.
#[derive(Clone, Copy)]
pub struct ByAge {
    pub pay: [u64; 16],
    pub last: u64,
}

// "is every incurred above 0 and no paid above its incurred?"
pub fn has_incurred(paid: &[u64], incurred: &[u64]) -> bool
    ensures { result ≡ list_all is_incurred (ages_of paid.now incurred.now) }
{
    paid.iter()
        .zip(incurred)
        .all(|(&paid, &incurred)| incurred > 0 && paid <= incurred)
}

// "The payment at an age is its cumulative less the one before (at age 1, the cumulative).": none where a ratio falls.
pub fn payments(paid: &[u64], incurred: &[u64]) -> Option<ByAge>
    requires { Payable paid.now incurred.now }
    ensures { PaidByAge paid.now incurred.now result }
{
    let mut pay = [0u64; 16];
    let mut last = 0;
    for i in 0..paid.len() {
        let ratio = cumulative_ratio(paid[i], incurred[i]);
        if ratio < last {
            return None;
        }
        pay[i] = 2 * ratio - 2 * last;
        last = ratio;
    }
    Some(ByAge { pay, last })
}
