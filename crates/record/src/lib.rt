// A record read: what a line asks, or the first of questions 1 to 5 that is answered no. `read` is the way in.
#![tactic(auto)]

mod gather;
pub mod read;
