// The fields of a line of bytes.
#![tactic(auto)]

pub mod field;
