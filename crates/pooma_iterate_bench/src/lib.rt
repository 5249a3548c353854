//! Measurements of patches, stores and pieces. Each call writes what was done to standard output, which is always the same, and how
//! long it took, the least time of seven turns, to standard error. `pooma_bench` is their program.
#![tactic(auto)]

mod cells;
mod lending;
mod pieces;
mod program;
mod sample;
mod splitting;

pub use cells::report_cells;
pub use lending::report_lending;
pub use pieces::report_pieces;
pub use splitting::report_splitting;
