// What the book holds: its rates and counts by value, and everything else in the store that the caller lends. The model's book that they are stands in specs/View.antt.
#![tactic(auto)]

pub mod book;
mod cells;
pub mod lines;
pub mod patterns;
pub mod store;
pub mod totals;
