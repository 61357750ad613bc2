// The input in pieces of any size: what stands between two pieces, what a piece does, the end of input, and DONE. proofs/Ran.antt has the theorem that a whole run of these is the model's.
#![tactic(auto)]

mod answer_line;
mod answer_lines;
pub mod feed;
mod line;
