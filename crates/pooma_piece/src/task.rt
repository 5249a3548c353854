//! What a piece does.

use pooma_expr::Reduction;
use pooma_field::{Shape, Slab};
use pooma_view::View;

/// What a piece does at each of its positions, with the value that its code has there.
#[derive(Clone, Copy, Debug)]
pub enum Task {
    /// Sets the cells that this view names at the positions, each to the value there.
    Assign {
        target: View,
    },
    /// Makes of the values a part of a reduction, and sets no cell.
    Reduce {
        reduction: Reduction,
    },
    /// Sets cells of a slab of the array of this number, which is a field of this shape: its positions are these cells. Each
    /// gets what the slab's updater makes of the numbers at the cell's sources; the piece's code has no views.
    Fill {
        shape: Shape,
        slab: Slab,
        array: u32,
    },
    /// Copies guard cells of the array of this number: its positions are cells that the patch which is written allocates and
    /// the one patch that is read owns, and each gets the number that it has there. They are patches of two objects; the
    /// piece's code has no views.
    Guard {
        array: u32,
    },
}
