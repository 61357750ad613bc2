// The kinds of value of documents 01 and 02, each with its limits.
#![tactic(auto)]

pub mod factor;
pub mod month;
pub mod rate;
pub mod register_year;
pub mod within;
pub mod year;
