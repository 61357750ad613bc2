// F-4: "A record MIDT with year (1980 to 2099)": a year of the register of monthly rates.
ghost use Rattle.std.specs.Prelude.{refl};
ghost use Rattle.model.specs.Kind.{is_register_year};

use crate::within::{Limits, Within};

#[derive(Clone, Copy)]
pub struct RegisterYearLimits;

impl Limits for RegisterYearLimits {
    const LEAST: u64 = 1980;

    const MOST: u64 = 2099;

    ghost LEAST = { 1980 };

    ghost MOST = { 2099 };

    ghost allow = { is_register_year };

    ghost limits = { λ n. refl };
}

pub type RegisterYear = Within<RegisterYearLimits>;
