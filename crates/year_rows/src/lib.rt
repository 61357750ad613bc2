// The rows of a YEAR before their figures are worked with: whether its lists have the right lengths and limits, and whether a row has a gross.
#![tactic(auto)]

pub mod questions;
