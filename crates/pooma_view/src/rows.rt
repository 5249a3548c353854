//! Rows of a view: its cells at positions that follow one another.
ghost use Rattle.std.specs.Prelude.{◌≡◌, ◌≢◌, ℕ, ◌<◌, pos, ◌*ℤ◌, length};
ghost use Rattle.pooma_domain.specs.Cells.{IsIn};
ghost use Rattle.pooma_domain.specs.Neighbours.{moved_along};
ghost use Rattle.pooma_view.specs.Rows.{IsFirstAlong};
ghost use Rattle.pooma_view.specs.Slots.{positions_of, cell_named};

use crate::views::View;
use pooma_domain::Cell;

/// Where the cells lie that a view names at a position and at those after it on the positions' first axis: in a line along one
/// axis of the array, which may be any, forwards or backwards.
#[derive(Clone, Copy, Debug)]
pub struct Row {
    /// The cell at the first of the positions.
    pub first: Cell,

    /// The axis of the array along which the cells lie, counted from 0.
    pub axis: usize,

    /// From each cell to the next one along that axis.
    pub stride: i32,
}

impl View {
    /// The row of the view from a position on. A view without axes has one position, and its row one cell.
    pub fn row(&self, p: &Cell) -> Row
        requires { IsIn (positions_of self.now.slots) p.now }
        ensures first { result.first ≡ cell_named self.now.slots p.now }
        ensures axis { result.axis < length self.now.slots }
        ensures stride { result.stride ≢ pos 0 }
        ensures cells { (k : ℕ) → 0 < length p.now
            → cell_named self.now.slots (moved_along 0 (pos k) p.now) ≡ moved_along result.axis (result.stride *ℤ pos k) result.first }
    {
        let (axis, stride) = self.first_along();
        Row {
            first: self.cell(p),
            axis,
            stride,
        }
    }
}
