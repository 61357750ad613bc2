// What the book holds of an accident year: its rate place, and a hint of the half-year factor at that rate.
#![tactic(auto)]

pub mod hints;
mod place;
pub mod rates;
