// The cells of the register: where that of a month stands, and what it holds. 0 is no rate, and another number is one more than its rate.
ghost use Rattle.std.specs.Prelude.{◌≡◌, ◌<◌};
ghost use Rattle.state.specs.Store.{size};
ghost use Rattle.state.specs.Months.{month_start, month_in};

use crate::date::Date;
use kinds::month::MonthLimits;
use kinds::rate::Rate;
use kinds::register_year::RegisterYearLimits;
use kinds::within::Limits;
use state::store::MONTHS_START;

// Where the cell of a month stands.
pub fn month_start(date: Date) -> usize
    ensures { (result ≡ month_start date.year date.month) × (result < size) }
{
    MONTHS_START
        + (date.year.number() - RegisterYearLimits::LEAST) as usize * 12
        + (date.month.number() - MonthLimits::LEAST) as usize
}

// The rate that a cell holds, or that it holds none.
pub fn rate_in_cell(cell: u64) -> Option<Rate>
    ensures { result ≡ month_in cell }
{
    Rate::new(cell.checked_sub(1)?)
}
