// Document 01, "Row and year end": a row's discounted value, and a year end's paid, closing and loss.
#![tactic(auto)]

mod closing;
mod loss;
mod paid_total;
mod row;
pub mod year_end;
