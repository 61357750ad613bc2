// "LINE, letter, opening (0 to 100,000,000,000).": the opening that a line declares.
ghost use Rattle.model.specs.Kind.{is_opening};
ghost use Rattle.kinds.specs.Within.{at_most};

use kinds::within::{Limits, Within};

#[derive(Clone, Copy)]
pub struct OpeningLimits;

impl Limits for OpeningLimits {
    const LEAST: u64 = 0;

    const MOST: u64 = 100000000000;

    ghost LEAST = { 0 };

    ghost MOST = { 100000000000 };

    ghost allow = { is_opening };

    ghost limits = { at_most 100000000000 };
}

pub type Opening = Within<OpeningLimits>;
