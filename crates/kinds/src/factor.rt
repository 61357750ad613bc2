// "Factors are kept in units of the tenth decimal, so 1 is 10,000,000,000.": a kept factor is at most 1.
ghost use Rattle.kinds.specs.Factor.{is_factor};
ghost use Rattle.kinds.specs.Within.{at_most};

use crate::within::{Limits, Within};

#[derive(Clone, Copy)]
pub struct FactorLimits;

impl Limits for FactorLimits {
    const LEAST: u64 = 0;

    // 1, in units of the tenth decimal.
    const MOST: u64 = 10000000000;

    ghost LEAST = { 0 };

    ghost MOST = { 10000000000 };

    ghost allow = { is_factor };

    ghost limits = { at_most 10000000000 };
}

pub type Factor = Within<FactorLimits>;
