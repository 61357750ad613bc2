// A line's totals, and the cells that they are kept in, each read through its limit.
ghost use Rattle.std.specs.Prelude.{◌≡◌, ◌*◌, ◌≤◌};
ghost use Rattle.line_limits.specs.Totals.{years_through, most_a_year, total_in, total_cell, totals_in, total_cells};

use kinds::within::Limits;
use kinds::year::{Year, YearLimits};

// "a line's figures since its first closing": the count of closed years, all paid and all tax-basis losses.
#[derive(Clone, Copy, Default)]
pub struct Totals {
    pub years: u64,
    pub paid: i64,
    pub losses: i64,
}

// What a year can add to a total at most, either sign.
const MOST_A_YEAR: u64 = 220000000000;

// The totals in three cells, by the last closed year.
#[tactic(auto, unfolding(crate::specs::Totals::totals_in, crate::specs::Totals::total_limit))]
pub fn totals_in(closed: Option<u64>, cells: [u64; 3]) -> Totals
    ensures { result ≡ totals_in closed cells }
{
    let years = years_through(closed);
    let limit = MOST_A_YEAR * years;
    Totals {
        years: cells[0].min(years),
        paid: total_in(cells[1], limit),
        losses: total_in(cells[2], limit),
    }
}

// The cells of totals, by the last closed year.
#[tactic(auto, unfolding(crate::specs::Totals::total_cells, crate::specs::Totals::total_limit))]
pub fn total_cells(closed: Option<u64>, totals: Totals) -> [u64; 3]
    ensures { result ≡ total_cells closed totals }
{
    let limit = MOST_A_YEAR * years_through(closed);
    [
        totals.years,
        total_cell(totals.paid, limit),
        total_cell(totals.losses, limit),
    ]
}

// The years from 1987 to the last closed one: none where none is closed.
fn years_through(closed: Option<u64>) -> u64
    ensures { (result ≡ years_through closed) × (result ≤ 113) }
{
    closed
        .and_then(Year::new)
        .map_or(0, |year| year.number() - YearLimits::LEAST + 1)
}

// The total that a cell has as its distance from the least one: past the limit it is read as the limit.
#[tactic(auto, unfolding(crate::specs::Totals::total_in))]
fn total_in(cell: u64, limit: u64) -> i64
    requires { limit ≤ 113 * most_a_year }
    ensures { result ≡ total_in limit cell }
{
    cell.min(2 * limit) as i64 - limit as i64
}

// The cell of a total: past the limit it is kept as the limit.
fn total_cell(total: i64, limit: u64) -> u64
    requires { limit ≤ 113 * most_a_year }
    ensures { result ≡ total_cell limit total }
{
    let most = limit as i64;
    (total.clamp(-most, most) + most) as u64
}
