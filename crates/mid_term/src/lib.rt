// F-4: the calls of MIDT and of RATE with a year alone, with numbers.
#![tactic(auto)]

pub mod register_month;
pub mod set_rate_from_register;
