//! Which cells of a slab take their values from a patch.
ghost use Rattle.std.specs.Prelude.{◌≡◌, ◌↔◌, ◌⊎◌, true, false, ℤ, pos, neg_ℤ, ◌+ℤ◌, ◌-ℤ◌, ◌≤ℤ◌, ◌<◌, Some, List, length, Contains, IfSome, IsNone};
ghost use Rattle.pooma_domain.specs.Axes.{interval_of};
ghost use Rattle.pooma_domain.specs.Cells.{IsIn};
ghost use Rattle.pooma_field.specs.ShapeOf.{shape_of};
ghost use Rattle.pooma_field.specs.Slabs.{axis_at, coordinate_at, slabs_of};
ghost use Rattle.pooma_field.specs.Updaters.{IsConstant};
ghost use Rattle.pooma_fill.specs.Boxes.{IsBesideAxis, IsWithin};
ghost use Rattle.pooma_fill.specs.Filling.{number_from, source_from};

use pooma_domain::{Axis, BoxN};
use pooma_field::{Shape, Slab, Updater, slabs_in_order};

/// The cells of a part of a slab whose first source lies in this box. None exactly where there are none. The slab's updater is no
/// constant.
pub(crate) fn taken_from(shape: &Shape, slab: &Slab, part: &BoxN, from: &BoxN) -> Option<BoxN>
    requires slab { Contains (slabs_of (shape_of shape.now)) slab.now }
    requires moving { ¬ (IsConstant slab.now.updater) }
    requires inside { (c : List ℤ) → IsIn part.now c → IsIn slab.now.target c }
    requires same_dims { length from.now ≡ length part.now }
    ensures found { IfSome result (λ cells. (c : List ℤ) → IsIn cells c ↔ (IsIn part.now c × IsIn from.now (source_from (shape_of shape.now) slab.now c))) }
    ensures none { IsNone result → (c : List ℤ) → IsIn part.now c → IsIn from.now (source_from (shape_of shape.now) slab.now c) → ⊥ }
{
    let mut kept = *part;
    for axis in 0..part.dims() {
        let numbers = range_of(shape, slab, part, from, axis)?;
        kept = narrowed(&kept, axis, numbers)?;
    }
    Some(kept)
}

// The numbers of an axis that the cells of the part have whose first source is on the box's axis. None where no cell's source
// lies in the box.
fn range_of(shape: &Shape, slab: &Slab, part: &BoxN, from: &BoxN, axis: usize) -> Option<Axis>
    requires slab { Contains (slabs_of (shape_of shape.now)) slab.now }
    requires moving { ¬ (IsConstant slab.now.updater) }
    requires inside { (c : List ℤ) → IsIn part.now c → IsIn slab.now.target c }
    requires same_dims { length from.now ≡ length part.now }
    requires there { axis < length part.now }
    ensures found { IfSome result (λ numbers. (c : List ℤ) → IsIn part.now c → IsWithin numbers.first numbers.last (coordinate_at c axis)
        ↔ IsWithin (axis_at from.now axis).first (axis_at from.now axis).last (coordinate_at (source_from (shape_of shape.now) slab.now c) axis)) }
    ensures none { IsNone result → (c : List ℤ) → IsIn part.now c → IsIn from.now (source_from (shape_of shape.now) slab.now c) → ⊥ }
{
    slabs_in_order();
    // For what it promises: its axes have numbers.
    let _dims = part.dims();
    if axis == slab.axis {
        let own = shape.physical.axis(axis);
        let piece = part.axis(axis);
        let ends = ends_beside(slab.updater, own, piece, from.axis(axis));
        common(piece, ends.0, ends.1)
    } else {
        Some(from.axis(axis))
    }
}

// The cells whose coordinate on the axis is one of these numbers. None exactly where there are none.
fn narrowed(cells: &BoxN, axis: usize, numbers: Axis) -> Option<BoxN>
    requires { axis < length cells.now }
    ensures found { IfSome result (λ kept. (c : List ℤ) → IsIn kept c ↔ (IsIn cells.now c × IsWithin numbers.first numbers.last (coordinate_at c axis))) }
    ensures none { IsNone result → (c : List ℤ) → IsIn cells.now c → IsWithin numbers.first numbers.last (coordinate_at c axis) → ⊥ }
    ensures dims { IfSome result (λ kept. length kept ≡ length cells.now) }
{
    let whole = cells.axis(axis);
    if numbers.last < whole.first {
        return None;
    }
    if whole.last < numbers.first {
        return None;
    }
    let above = from_number(cells, axis, numbers.first);
    Some(up_to_number(&above, axis, numbers.last))
}

// The cells whose coordinate on the axis is not below this number, which is no greater than the axis's last.
fn from_number(cells: &BoxN, axis: usize, first: i32) -> BoxN
    requires there { axis < length cells.now }
    requires some { first ≤ℤ (axis_at cells.now axis).last }
    ensures cells { (c : List ℤ) → IsIn result c ↔ (IsIn cells.now c × (first ≤ℤ coordinate_at c axis)) }
    ensures dims { length result ≡ length cells.now }
    ensures low { ((axis_at result axis).first ≡ first) ⊎ ((axis_at result axis).first ≡ (axis_at cells.now axis).first) }
{
    if cells.axis(axis).first < first {
        cells.cut(axis, first).1
    } else {
        *cells
    }
}

// The cells whose coordinate on the axis is not above this number, which is no less than the axis's first.
fn up_to_number(cells: &BoxN, axis: usize, last: i32) -> BoxN
    requires there { axis < length cells.now }
    requires some { (axis_at cells.now axis).first ≤ℤ last }
    ensures cells { (c : List ℤ) → IsIn result c ↔ (IsIn cells.now c × (coordinate_at c axis ≤ℤ last)) }
    ensures dims { length result ≡ length cells.now }
{
    if last < cells.axis(axis).last {
        cells.cut(axis, last + 1).0
    } else {
        *cells
    }
}

// The numbers of the part that lie between these two. None exactly where there are none.
fn common(part: Axis, low: i32, high: i32) -> Option<Axis>
    ensures found { IfSome result (λ numbers. (x : ℤ) → IsWithin numbers.first numbers.last x ↔ (IsWithin part.first part.last x × IsWithin low high x)) }
    ensures none { IsNone result → (x : ℤ) → IsWithin part.first part.last x → IsWithin low high x → ⊥ }
{
    let first = low.max(part.first);
    let last = high.min(part.last);
    if first <= last {
        Some(Axis { first, last })
    } else {
        None
    }
}

// Between which numbers of a part of a slab's own axis those are whose source is one of these.
fn ends_beside(updater: Updater, axis: Axis, part: Axis, from: Axis) -> (i32, i32)
    requires near { (x : ℤ) → IsWithin part.first part.last x → IsBesideAxis false (interval_of axis) x ⊎ IsBesideAxis true (interval_of axis) x }
    requires moving { ¬ (IsConstant updater) }
    ensures { (x : ℤ) → IsWithin part.first part.last x → IsWithin result.0 result.1 x ↔ IsWithin from.first from.last (number_from updater (interval_of axis) x) }
{
    if axis.last < part.first {
        ends_above(updater, axis, part, from)
    } else {
        ends_below(updater, axis, part, from)
    }
}

fn ends_above(updater: Updater, axis: Axis, part: Axis, from: Axis) -> (i32, i32)
    requires { ¬ (IsConstant updater) }
    ensures { (x : ℤ) → IsWithin part.first part.last x → IsBesideAxis true (interval_of axis) x
        → IsWithin result.0 result.1 x ↔ IsWithin from.first from.last (number_from updater (interval_of axis) x) }
{
    match updater {
        Updater::Constant(_) => unreachable!(),
        Updater::Periodic => shifted(from, length(axis)),
        Updater::Reflect => turned(from, 2 * axis.last + 1),
        Updater::Antireflect => turned(from, 2 * axis.last + 1),
        Updater::Extrapolate => at_face(axis.last, part, from),
    }
}

fn ends_below(updater: Updater, axis: Axis, part: Axis, from: Axis) -> (i32, i32)
    requires { ¬ (IsConstant updater) }
    ensures { (x : ℤ) → IsWithin part.first part.last x → IsBesideAxis false (interval_of axis) x
        → IsWithin result.0 result.1 x ↔ IsWithin from.first from.last (number_from updater (interval_of axis) x) }
{
    match updater {
        Updater::Constant(_) => unreachable!(),
        Updater::Periodic => shifted(from, -length(axis)),
        Updater::Reflect => turned(from, 2 * axis.first - 1),
        Updater::Antireflect => turned(from, 2 * axis.first - 1),
        Updater::Extrapolate => at_face(axis.first, part, from),
    }
}

// How many numbers the axis has.
fn length(axis: Axis) -> i32
    ensures value { result ≡ (axis.last -ℤ axis.first) +ℤ pos 1 }
    ensures few { result ≤ℤ pos 8000001 }
    ensures some { pos 1 ≤ℤ result }
{
    axis.last - axis.first + 1
}

// The ends of the numbers, so far away.
fn shifted(numbers: Axis, by: i32) -> (i32, i32)
    requires { (neg_ℤ (pos 8000001) ≤ℤ by) × (by ≤ℤ pos 8000001) }
    ensures low { result.0 ≡ numbers.first +ℤ by }
    ensures high { result.1 ≡ numbers.last +ℤ by }
{
    (numbers.first + by, numbers.last + by)
}

// The ends of the numbers that come to this with these.
fn turned(numbers: Axis, sum: i32) -> (i32, i32)
    requires { (neg_ℤ (pos 8000001) ≤ℤ sum) × (sum ≤ℤ pos 8000001) }
    ensures low { result.0 ≡ sum -ℤ numbers.last }
    ensures high { result.1 ≡ sum -ℤ numbers.first }
{
    (sum - numbers.last, sum - numbers.first)
}

// The part's ends where the face is one of the numbers, and else ends between which nothing is.
fn at_face(face: i32, part: Axis, from: Axis) -> (i32, i32)
    ensures { (x : ℤ) → IsWithin part.first part.last x → IsWithin result.0 result.1 x ↔ IsWithin from.first from.last face }
{
    if face < from.first {
        return (1, 0);
    }
    if from.last < face {
        return (1, 0);
    }
    (part.first, part.last)
}
