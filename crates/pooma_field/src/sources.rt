//! The cell from which an updater takes a value.
ghost use Rattle.std.specs.Prelude.{◌≡◌, ◌≢◌, ◌↔◌, ℕ, Some, slice_get, IsTrue, IsSome};
ghost use Rattle.pooma_domain.specs.Axes.{interval_of};
ghost use Rattle.pooma_domain.specs.Cells.{IsIn};
ghost use Rattle.pooma_field.specs.Faces.{facing};
ghost use Rattle.pooma_field.specs.ShapeOf.{shape_of};
ghost use Rattle.pooma_field.specs.Shapes.{IsInSlabs, inside_from};
ghost use Rattle.pooma_field.specs.Sources.{source_number, source_of, IsNear};
ghost use Rattle.pooma_field.specs.Updaters.{wrapped, mirror, mirrored, face};

use crate::faces::Ends;
use crate::shapes::Shape;
use crate::updaters::Updater;
use pooma_domain::{Axis, Cell};

/// Whether a cell that goes by this axis takes its value from another, as `source` asks: it is one of a field, and the
/// updater of its face is no constant.
pub fn has_source(shape: &Shape, c: &Cell, axis: usize) -> bool
    requires { IsInSlabs (shape_of shape.now) axis c.now }
    ensures { IsTrue result ↔ IsSome (source_of (shape_of shape.now) axis c.now) }
{
    let Some(faces) = shape.faces else {
        return false;
    };
    let numbers = shape.physical.axis(axis);
    let x = c.at(axis);
    let updater = facing(faces.ends(axis), numbers, x);
    !updater.is_constant()
}

/// The cell from which the updater of a face takes the value of a cell that goes by this axis, counted from 0; for
/// `extrapolate` the cell at the face. A constant takes its value from none.
///
/// It is inside on the axis, and may lie outside on a lower one: its own value then goes by that axis.
pub fn source(shape: &Shape, c: &Cell, axis: usize) -> Cell
    requires goes_by { IsInSlabs (shape_of shape.now) axis c.now }
    requires has_source { IsSome (source_of (shape_of shape.now) axis c.now) }
    ensures cell { source_of (shape_of shape.now) axis c.now ≡ Some result }
    ensures inside { IsIn (inside_from axis (shape_of shape.now)) result }
    ensures total { IsIn shape.now.total result }
    ensures elsewhere { (n : ℕ) → n ≢ axis → slice_get result n ≡ slice_get c.now n }
{
    let Some(faces) = shape.faces else {
        unreachable!()
    };
    let numbers = shape.physical.axis(axis);
    let dims = c.dims();
    let x = c.at(axis);
    let updater = facing(faces.ends(axis), numbers, x);
    let mut coordinates = c.coordinates();
    coordinates[axis] = source_number(updater, numbers, x);
    Cell::front(dims, coordinates)
}

// The updater of the face on the side of a number beside the axis.
fn facing(ends: Ends, axis: Axis, x: i32) -> Updater
    ensures { result ≡ facing ends (interval_of axis) x }
{
    if x < axis.first { ends.low } else { ends.high }
}

// The number of the axis from which an updater takes the value at a number beside it.
fn source_number(updater: Updater, axis: Axis, x: i32) -> i32
    requires near { IsNear (interval_of axis) x }
    requires has_source { IsSome (source_number updater (interval_of axis) x) }
    ensures { source_number updater (interval_of axis) x ≡ Some result }
{
    match updater {
        Updater::Constant(_) => unreachable!(),
        Updater::Periodic => wrapped(axis, x),
        Updater::Reflect | Updater::Antireflect => mirrored(axis, x),
        Updater::Extrapolate => face(axis, x),
    }
}

// The number of the axis that is a whole number of the axis's lengths away.
fn wrapped(axis: Axis, x: i32) -> i32
    requires { IsNear (interval_of axis) x }
    ensures { result ≡ wrapped (interval_of axis) x }
{
    let len = axis.last - axis.first + 1;
    axis.first + (x - axis.first).rem_euclid(len)
}

// The number that lies as far inside the face as the given one lies outside.
fn mirrored(axis: Axis, x: i32) -> i32
    requires { IsNear (interval_of axis) x }
    ensures { result ≡ mirrored (interval_of axis) x }
{
    mirror(axis, x) - x
}

// What a number on this side and its mirror image come to together.
fn mirror(axis: Axis, x: i32) -> i32
    ensures { result ≡ mirror (interval_of axis) x }
{
    if x < axis.first {
        2 * axis.first - 1
    } else {
        2 * axis.last + 1
    }
}

/// The end of the axis on the number's side.
pub(crate) fn face(axis: Axis, x: i32) -> i32
    ensures { result ≡ face (interval_of axis) x }
{
    if x < axis.first {
        axis.first
    } else {
        axis.last
    }
}
