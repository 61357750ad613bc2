// F-4: "A record MIDT with .. month (1 to 12)": a month of a year.
ghost use Rattle.std.specs.Prelude.{refl};
ghost use Rattle.model.specs.Kind.{is_month};

use crate::within::{Limits, Within};

#[derive(Clone, Copy)]
pub struct MonthLimits;

impl Limits for MonthLimits {
    const LEAST: u64 = 1;

    const MOST: u64 = 12;

    ghost LEAST = { 1 };

    ghost MOST = { 12 };

    ghost allow = { is_month };

    ghost limits = { λ n. refl };
}

pub type Month = Within<MonthLimits>;
