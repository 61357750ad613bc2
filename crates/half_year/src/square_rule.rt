// "For rate R, H is the largest whole number with H × H × (10000 + R) at most 10 to the 24th.": asked of a number, in 64 bits.
ghost use Rattle.std.specs.Prelude.{◌≡◌};
ghost use Rattle.half_year.specs.SquareRule.{is_half_year};

use kinds::factor::FactorLimits;
use kinds::rate::Rate;
use kinds::within::Limits;

// 2 to the 16th: a number is high × PART + low.
const PART: u64 = 65536;

// 2 to the 32nd.
const PART_SQUARED: u64 = PART * PART;

// 10 to the 24th divided by PART_SQUARED, rounded down.
const LIMIT_HIGH: u64 = 232830643653869;

// What is left of that division: 10 to the 24th is LIMIT_HIGH × PART_SQUARED + LIMIT_LOW.
const LIMIT_LOW: u64 = 2701131776;

// Is this the half-year factor of the rate? Its square is high × high × PART_SQUARED + low × (2 × half - low). Both products with 10000 + R
// are taken off the limit in turn. What is left must be too little for the step to the next number, whose square is 2 × half + 1 larger.
pub fn is_half_year(rate: Rate, half: u64) -> bool
    ensures { result ≡ is_half_year rate half }
{
    if half > FactorLimits::MOST {
        return false;
    }
    let divisor = 10000 + rate.number();
    let high = half / PART;
    let high_product = high * high * divisor;
    if high_product > LIMIT_HIGH {
        return false;
    }
    let left_high = LIMIT_HIGH - high_product;
    // So much left is enough for the next number too.
    if left_high >= PART_SQUARED {
        return false;
    }
    let left = left_high * PART_SQUARED + LIMIT_LOW;
    let low = half % PART;
    let low_product = low * (half + half - low) * divisor;
    if low_product > left {
        return false;
    }
    let step = (half + half + 1) * divisor;
    left - low_product < step
}
