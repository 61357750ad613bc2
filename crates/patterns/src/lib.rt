// PATT with numbers: a pattern added to a line.
#![tactic(auto)]

pub mod add_pattern;
