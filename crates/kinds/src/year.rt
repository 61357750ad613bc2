// "Years are 1987 to 2099."
ghost use Rattle.std.specs.Prelude.{refl};
ghost use Rattle.model.specs.Kind.{is_year};

use crate::within::{Limits, Within};

#[derive(Clone, Copy)]
pub struct YearLimits;

impl Limits for YearLimits {
    const LEAST: u64 = 1987;

    const MOST: u64 = 2099;

    ghost LEAST = { 1987 };

    ghost MOST = { 2099 };

    ghost allow = { is_year };

    ghost limits = { λ n. refl };
}

pub type Year = Within<YearLimits>;
