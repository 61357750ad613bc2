// The kinds of money of document 01, each with its limits.
#![tactic(auto)]

pub mod amount;
pub mod closing;
pub mod opening;
pub mod paid;
