// What every call answers and counts, and the calls of LINE and RATE with numbers; `refuse` is a record that no call is made of.
#![tactic(auto)]

pub mod accept;
pub mod answer;
pub mod declare;
pub mod give_rate;
pub mod refuse;
pub mod set_rate;
