// A month of the register, in the store.
ghost use Rattle.std.specs.Prelude.{◌≡◌};
ghost use Rattle.state.specs.Months.{is_date, register_of, with_month_of};

use crate::cell::{month_start, rate_in_cell};
use crate::date::Date;
use kinds::rate::Rate;
use state::store::Store;

// "year (1980 to 2099), month (1 to 12)": has the month a cell?
pub fn is_date(year: u64, month: u64) -> bool
    ensures { result ≡ is_date year month }
{
    Date::new(year, month).is_some()
}

// The federal mid-term rate of a month, or that none was given. A month that is not from January 1980 to December 2099 has none.
#[tactic(auto, unfolding(state::specs::Months::register_of))]
pub fn month_of(store: &Store, year: u64, month: u64) -> Option<Rate>
    ensures { result ≡ register_of store.now year month }
{
    let date = Date::new(year, month)?;
    rate_in_cell(store[month_start(date)])
}

// The store with a month's rate: as it was, where the month has no cell.
#[tactic(auto, using(state::proofs::Pieces::one_cell))]
pub fn keep_month(store: &mut Store, year: u64, month: u64, rate: Rate)
    ensures { store.new ≡ with_month_of store.old year month rate }
{
    if let Some(date) = Date::new(year, month) {
        store[month_start(date)] = rate.number() + 1;
    }
}
