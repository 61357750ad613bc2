// A line's totals with one more year.
ghost use Rattle.std.specs.Prelude.{◌≡◌, Some};
ghost use Rattle.line_limits.specs.Totals.{with_year_of};
ghost use Rattle.state.specs.Totals.{totals_at, with_totals_of};
ghost use Rattle.closings.specs.Totals.{OfAYear, Growing};

use line_limits::totals::Totals;
use reserve::year_end::YearEnd;
use state::store::Store;
use state::totals::{keep_totals, totals_of};

// "The figures equal the sums over the accepted YEAR records of that line": the store with one more in them; `closed` is the last closed year before it.
pub fn add_year(store: &mut Store, letter: u8, closed: Option<u64>, year: u64, end: YearEnd)
    requires { OfAYear end }
    ensures { store.new ≡ with_totals_of store.old letter (Some year) (with_year_of (totals_at store.old letter closed) end.paid end.loss) }
{
    let before = totals_of(store, letter, closed);
    keep_totals(store, letter, Some(year), with_year(before, end));
}

// The totals with one more year.
fn with_year(before: Totals, end: YearEnd) -> Totals
    requires { Growing before end }
    ensures { result ≡ with_year_of before end.paid end.loss }
{
    Totals {
        years: before.years + 1,
        paid: before.paid + end.paid,
        losses: before.losses + end.loss,
    }
}
