// "Each factor is worked back from the one of the next age.": a recursion over the ages still to come.
ghost use Rattle.std.specs.Prelude.{◌≡◌, ◌+◌};
ghost use Rattle.model.specs.Factor.{worked_back};
ghost use Rattle.factor.specs.Walk.{Weighable, Walkable, Walked};

use kinds::factor::Factor;
use kinds::rate::Rate;

// An age that is worked back: what is unpaid there, and its factor.
#[derive(Clone, Copy)]
pub struct Back {
    pub unpaid: u64,
    pub factor: u64,
}

// The factors of the ages from place `at` on go into `factors`. Answers the age before that place.
pub fn walk(pay: &[u64], at: usize, half: Factor, rate: Rate, factors: &mut [u64]) -> Back
    requires { Walkable pay.now at factors.old }
    ensures { Walked pay.now at half rate factors.old factors.new result.unpaid result.factor }
{
    if at == pay.len() {
        return Back {
            unpaid: 0,
            factor: half.number(),
        };
    }
    let next = walk(pay, at + 1, half, rate, factors);
    let later = next.unpaid;
    let factor = next.factor;
    factors[at] = factor;
    let payment = pay[at];
    Back {
        unpaid: payment + later,
        factor: worked_back(payment, later, factor, half, rate),
    }
}

// "if U is 0 the factor is H. Otherwise let g be next factor × 10000 / (10000 + R), rounded down; the factor is (p × H + V × g) / U, rounded down."
fn worked_back(payment: u64, later: u64, next: u64, half: Factor, rate: Rate) -> u64
    requires { Weighable payment later next half }
    ensures { result ≡ worked_back half (10000 + rate) payment later next }
{
    let half = half.number();
    let rate = rate.number();
    let unpaid = payment + later;
    if unpaid == 0 {
        return half;
    }
    let year_back = next * 10000 / (10000 + rate);
    (payment * half + later * year_back) / unpaid
}
