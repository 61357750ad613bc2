// The months of the register: "year (1980 to 2099), month (1 to 12)".
ghost use Rattle.std.specs.Prelude.{◌≡◌};
ghost use Rattle.register.specs.Date.{date_of};

use kinds::month::Month;
use kinds::register_year::RegisterYear;

// A month that has a cell.
#[derive(Clone, Copy)]
pub struct Date {
    pub year: RegisterYear,
    pub month: Month,
}

impl Date {
    // The date of a year and a month, if it is one of the register.
    pub fn new(year: u64, month: u64) -> Option<Date>
        ensures { result ≡ date_of year month }
    {
        Some(Date {
            year: RegisterYear::new(year)?,
            month: Month::new(month)?,
        })
    }
}
