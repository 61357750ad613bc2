// The register of monthly rates (F-4): a month read and written, and the sixty months that a RATE with a year alone takes.
#![tactic(auto)]

mod cell;
pub mod date;
pub mod month;
pub mod sixty;
