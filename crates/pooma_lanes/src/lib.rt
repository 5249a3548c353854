//! Rows of numbers: what is done with each number of a row, or with two or three rows place by place.
//!
//! Each kernel equals its plain loop at every length. No call takes memory.
#![tactic(auto)]

mod block;
mod choice;
mod divisor;
mod kernel;
mod orders;
mod plain;
mod quotients;
mod row;
mod sums;
mod totals;

pub use choice::select_rows;
pub use divisor::Divisor;
pub use orders::{Compare, compare_rows, max_rows, min_rows};
pub use plain::{abs_rows, and_rows, div_rows, mul_rows, neg_rows, or_rows, rem_rows};
pub use quotients::{div_rows_by, rem_rows_by};
pub use row::{Place, Row};
pub use sums::{add_rows, sub_rows};
pub use totals::sum_row;
