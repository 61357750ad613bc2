// "Other money is 0 to 10,000,000,000": an amount in thousands of dollars.
ghost use Rattle.model.specs.Kind.{is_amount};
ghost use Rattle.kinds.specs.Within.{at_most};

use kinds::within::{Limits, Within};

#[derive(Clone, Copy)]
pub struct AmountLimits;

impl Limits for AmountLimits {
    const LEAST: u64 = 0;

    const MOST: u64 = 10000000000;

    ghost LEAST = { 0 };

    ghost MOST = { 10000000000 };

    ghost allow = { is_amount };

    ghost limits = { at_most 10000000000 };
}

pub type Amount = Within<AmountLimits>;
