// A year end: what was paid, what the year closes with, and the tax-basis loss.
ghost use Rattle.std.specs.Prelude.{◌≡◌};
ghost use Rattle.reserve.specs.YearEnd.{year_end, rows_end};

use crate::closing::closing;
use crate::loss::loss;
use crate::paid_total::paid_total;
use letters::letter::is_covered;
use money::closing::Closing;
use money::paid::Paid;
use refusal::Refusal;
use year_rows::questions::has_lengths;

// The figures of a year end.
#[derive(Clone, Copy)]
pub struct YearEnd {
    pub paid: i64,
    pub closing: u64,
    pub loss: i64,
}

// The year end of a line from its rows, youngest age first and prior row last, the rows' kept factors and the opening; or the first of questions 3, 4 and 6 that is
// answered no.
pub fn year_end(
    letter: u8,
    paid: &[i64],
    unpaid: &[u64],
    tabular: &[u64],
    factors: &[u64; 11],
    opening: u64,
) -> Result<YearEnd, Refusal>
    ensures { result ≡ year_end letter paid.now unpaid.now tabular.now factors.now opening }
{
    if !is_covered(letter) {
        return Err(Refusal::UncoveredLetter);
    }
    end_rows(letter, paid, unpaid, tabular, factors, opening)
}

// Questions 4 and 6, and the figures.
fn end_rows(
    letter: u8,
    paid: &[i64],
    unpaid: &[u64],
    tabular: &[u64],
    factors: &[u64; 11],
    opening: u64,
) -> Result<YearEnd, Refusal>
    ensures { result ≡ rows_end letter paid.now unpaid.now tabular.now factors.now opening }
{
    if !has_lengths(letter, paid, unpaid, tabular) {
        return Err(Refusal::WrongCount);
    }
    if !Paid::all(paid) {
        return Err(Refusal::OutsideLimits);
    }
    let Some(before) = Closing::new(opening) else {
        return Err(Refusal::OutsideLimits);
    };
    let Some(after) = closing(unpaid, tabular, factors) else {
        return Err(Refusal::OutsideLimits);
    };
    let payments = paid_total(paid);
    let closed = after.number();
    let opened = before.number();
    Ok(YearEnd {
        paid: payments,
        closing: closed,
        loss: loss(payments, closed, opened),
    })
}
