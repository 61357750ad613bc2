// The text of an answer, in bytes: fields parted by one tab, and byte 10. `text` is the way in.
#![tactic(auto)]

mod put;
pub mod text;
