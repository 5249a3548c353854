//! Lists of numbers that are kept as one number while all are equal.
#![tactic(auto)]

mod cells;
mod rows;

pub use cells::Cells;
