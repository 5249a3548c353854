//! How far a stencil reaches, and the positions that this leaves it.
ghost use Rattle.std.specs.Prelude.{◌≡◌, ◌<◌, ◌↔◌, length, All, IsTrue, IsSome, IfSome};
ghost use Rattle.pooma_domain.specs.Cells.{IsIn, IsOrdered};
ghost use Rattle.pooma_domain.specs.Operations.{moved, reaches};
ghost use Rattle.pooma_stencil.specs.Stencils.{IsExtent, shrunk};

use pooma_domain::{Axis, BoxN, Cell, boxes_within_boxes};

/// Whether a move by this offset goes down by at most the lower extents and up by at most the upper ones.
pub(crate) fn reach(lower: &Cell, upper: &Cell, offset: &Cell) -> bool
    ensures { IsTrue result ↔ IsIn (reaches lower.now upper.now) offset.now }
{
    if lower.dims() == 0 {
        return offset.dims() == 0;
    }
    if upper.dims() == 0 {
        return offset.dims() == 0;
    }
    if offset.dims() == 0 {
        return false;
    }
    let first = i64::from(offset.at(0));
    if first < -i64::from(lower.at(0)) {
        return false;
    }
    if first > i64::from(upper.at(0)) {
        return false;
    }
    reach(&lower.rest(), &upper.rest(), &offset.rest())
}

/// The sum of the lower extents and an offset within the extents.
pub(crate) fn beginning(lower: &Cell, upper: &Cell, offset: &Cell) -> Cell
    requires low { All IsExtent lower.now }
    requires high { All IsExtent upper.now }
    requires dims { length upper.now ≡ length lower.now }
    requires within { IsIn (reaches lower.now upper.now) offset.now }
    ensures sum { result ≡ moved lower.now offset.now }
    ensures dims { length result ≡ length lower.now }
{
    if lower.dims() == 0 {
        return Cell::none();
    }
    let first = lower.at(0) + offset.at(0);
    beginning(&lower.rest(), &upper.rest(), &offset.rest()).after(first)
}

/// The box without the last numbers of each axis, as many as both extents. None where an axis has no more.
pub(crate) fn shrink(whole: &BoxN, lower: &Cell, upper: &Cell) -> Option<BoxN>
    requires low { All IsExtent lower.now }
    requires high { All IsExtent upper.now }
    requires dims { (length lower.now ≡ length whole.now) × (length upper.now ≡ length whole.now) }
    ensures found { IsSome result ↔ All IsOrdered (shrunk whole.now lower.now upper.now) }
    ensures value { IfSome result (λ left. left ≡ shrunk whole.now lower.now upper.now) }
{
    boxes_within_boxes();
    if whole.dims() == 0 {
        return Some(BoxN::point());
    }
    let axis = whole.axis(0);
    let last = axis.last - (lower.at(0) + upper.at(0));
    let Some(first) = Axis::of(axis.first, last) else {
        return None;
    };
    let Some(later) = shrink(&whole.rest(), &lower.rest(), &upper.rest()) else {
        return None;
    };
    Some(later.after(first))
}
