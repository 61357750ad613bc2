// A record by the bytes of its line. proofs/InTurn.antt has demand 3 of any list of records and calls.
#![tactic(auto)]

pub mod apply;
mod column;
