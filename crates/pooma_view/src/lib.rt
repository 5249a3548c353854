//! Views: cells of an array that are named by positions, and when two views of one array overlap.
#![tactic(auto)]

mod common;
mod laws;
mod rows;
mod slots;
mod views;

pub use laws::{cells_apart, positions_by_slots};
pub use rows::Row;
pub use slots::Slot;
pub use views::View;
