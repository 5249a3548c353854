//! Patches: blocks of an array's numbers, each over the cells of a box.
#![tactic(auto)]

mod patch;

pub use patch::Patch;
