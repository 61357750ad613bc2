// "A rate is a whole number of hundredths of a percent, 0 to 2500."
ghost use Rattle.model.specs.Kind.{is_rate};
ghost use Rattle.kinds.specs.Within.{at_most};

use crate::within::{Limits, Within};

#[derive(Clone, Copy)]
pub struct RateLimits;

impl Limits for RateLimits {
    const LEAST: u64 = 0;

    const MOST: u64 = 2500;

    ghost LEAST = { 0 };

    ghost MOST = { 2500 };

    ghost allow = { is_rate };

    ghost limits = { at_most 2500 };
}

pub type Rate = Within<RateLimits>;
