//! Cells, axes and boxes: sets of cells in an order in which the first index is fastest.
#![tactic(auto)]

mod axes;
mod boxes;
mod cells;
mod laws;
mod order;
mod strides;

pub use axes::Axis;
pub use boxes::BoxN;
pub use cells::Cell;
pub use laws::{boxes_within_boxes, coordinates_of_cells, operations_on_boxes};
pub use order::{neighbours_in_order, order_of_cells};
pub use strides::Strided;
