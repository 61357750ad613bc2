// Where a year stands among the years from 1987 to 2099.
ghost use Rattle.std.specs.Prelude.{◌≡◌, ◌-◌, ◌<◌};

use kinds::within::Limits;
use kinds::year::{Year, YearLimits};

pub fn place_of(year: Year) -> usize
    ensures { (result ≡ year - 1987) × (result < 113) }
{
    (year.number() - YearLimits::LEAST) as usize
}
