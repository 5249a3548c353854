//! Layouts: how a box of cells is cut into patches, which cells each patch owns, and of which it keeps copies.
#![tactic(auto)]

mod axes;
mod laws;
mod layouts;
mod patches;

pub use laws::{allocated_cells_of_patches, owners_of_cells, parts_of_axes};
pub use layouts::Layout;
