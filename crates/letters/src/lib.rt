// The covered Schedule P letters, ten-year or two-year, and the ages of a line.
#![tactic(auto)]

pub mod covered;
pub mod letter;
