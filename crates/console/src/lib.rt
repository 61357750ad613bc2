// From standard input to standard output.
#![tactic(auto)]

mod standard;
mod write;

pub use standard::{Ended, answer_all, run};
