// What the book holds of a line, and the limits that its figures are read through.
#![tactic(auto)]

pub mod limits;
pub mod line;
pub mod totals;
