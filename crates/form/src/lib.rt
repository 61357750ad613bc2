// The form of a record: its word, its letter, and for each request that a record makes how many fields it has, where its numbers begin and which of them may have a minus sign.
#![tactic(auto)]

pub mod letter;
pub mod request;
pub mod word;
