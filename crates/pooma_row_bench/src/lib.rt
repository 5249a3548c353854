//! Measurements of whole rows of numbers. Each call writes what was done to standard output, which is always the same, and how long
//! it took, the least time of several turns, to standard error. `pooma_bench` is their program.
#![tactic(auto)]

mod kernels;
mod rows;
mod timed;

pub use rows::report_rows;
