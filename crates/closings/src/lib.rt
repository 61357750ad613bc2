// YEAR with numbers: a line's year closed.
#![tactic(auto)]

pub mod close_year;
mod rows;
mod totals;
