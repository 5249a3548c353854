//! Whole numbers of 64 bits: checked arithmetic, and totals that are exact.
//!
//! Each call answers the exact number, or names the fault that keeps it from one. No call takes memory.
#![tactic(auto)]

mod arithmetic;
mod fault;
mod total;

pub use arithmetic::{abs, add, div, mul, neg, rem, sub};
pub use fault::FaultKind;
pub use total::Total;
