// An accident year's rate, of sixty monthly rates.
#![tactic(auto)]

pub mod rate;
