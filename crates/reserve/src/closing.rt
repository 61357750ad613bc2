// "Closing is the sum of discounted rows."
ghost use Rattle.std.specs.Prelude.{◌≡◌};
ghost use Rattle.reserve.specs.Lists.{ReserveLists};
ghost use Rattle.reserve.specs.Closing.{row_of, closing_in};

use crate::row::discounted;
use kinds::factor::Factor;
use money::amount::Amount;
use money::closing::Closing;

// The closing of the rows; none where a number of them is outside its limits.
pub fn closing(unpaid: &[u64], tabular: &[u64], factors: &[u64]) -> Option<Closing>
    requires { ReserveLists unpaid.now tabular.now factors.now }
    ensures { result ≡ closing_in unpaid.now tabular.now factors.now }
{
    let mut sum: u64 = 0;
    for k in 0..unpaid.len() {
        let row = discounted_row(unpaid[k], tabular[k], factors[k])?;
        sum += row.number();
    }
    Closing::new(sum)
}

// The discounted row; none where one of its numbers is outside its limits.
fn discounted_row(unpaid: u64, tabular: u64, kept: u64) -> Option<Amount>
    ensures { result ≡ row_of unpaid tabular kept }
{
    let stated = Amount::new(unpaid)?;
    let disclosed = Amount::new(tabular)?;
    let factor = Factor::new(kept)?;
    Amount::new(discounted(stated, disclosed, factor))
}
