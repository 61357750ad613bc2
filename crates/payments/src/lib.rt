// The payments of a pattern at all its ages. `schedule` is the way in: the other modules are its steps, in document 01's order.
#![tactic(auto)]

mod payment;
mod ratio;
pub mod schedule;
mod tail;
