// What a year closes or opens with: eleven rows of at most 10,000,000,000 each, and a declared opening is less.
ghost use Rattle.money.specs.Closing.{is_closing};
ghost use Rattle.kinds.specs.Within.{at_most};

use kinds::within::{Limits, Within};

#[derive(Clone, Copy)]
pub struct ClosingLimits;

impl Limits for ClosingLimits {
    const LEAST: u64 = 0;

    const MOST: u64 = 110000000000;

    ghost LEAST = { 0 };

    ghost MOST = { 110000000000 };

    ghost allow = { is_closing };

    ghost limits = { at_most 110000000000 };
}

pub type Closing = Within<ClosingLimits>;
