//! What a slab's cell is made of.
ghost use Rattle.std.specs.Prelude.{◌≡◌, ℤ, pos, ◌+ℤ◌, ◌-ℤ◌, ◌<◌, Some, List, length, slice_get, slice_index_or, slice_set, Contains};
ghost use Rattle.std.specs.Int.{int_max, int_min};
ghost use Rattle.pooma_domain.specs.Axes.{interval_of};
ghost use Rattle.pooma_domain.specs.Cells.{IsIn};
ghost use Rattle.pooma_field.specs.ShapeOf.{shape_of};
ghost use Rattle.pooma_field.specs.Shapes.{Shaped};
ghost use Rattle.pooma_field.specs.Slabs.{cell_sources, cell_value, slabs_of};
ghost use Rattle.pooma_field.specs.Updaters.{distance, extrapolation, face, inner};

use crate::shapes::{Shape, Slab};
use crate::sources::{face, source};
use crate::updaters::{Updater, antireflected, extrapolated};
use pooma_domain::{Axis, Cell};

impl Slab {
    /// From how many cells each of the slab's cells takes its value: from none for a constant, from two for `extrapolate`, and
    /// else from one.
    pub fn sources(&self) -> usize
        ensures { (shape : Shaped) (c : List ℤ) → length (cell_sources shape self.now c) ≡ result }
    {
        match self.updater {
            Updater::Constant(_) => 0,
            Updater::Periodic | Updater::Reflect | Updater::Antireflect => 1,
            Updater::Extrapolate => 2,
        }
    }

    /// The cell at this place, counted from 0, among those from which a cell of the slab takes its value: for `extrapolate` that
    /// at the face, and the one next to it inside.
    pub fn source_at(&self, shape: &Shape, c: &Cell, place: usize) -> Cell
        requires field { Contains (slabs_of (shape_of shape.now)) self.now }
        requires inside { IsIn self.now.target c.now }
        requires there { place < length (cell_sources (shape_of shape.now) self.now c.now) }
        ensures { slice_get (cell_sources (shape_of shape.now) self.now c.now) place ≡ Some result }
    {
        if place == 0 {
            source(shape, c, self.axis)
        } else {
            let numbers = shape.physical.axis(self.axis);
            with_coordinate(c, self.axis, inner(numbers, c.at(self.axis)))
        }
    }

    /// What the slab's updater makes for one of its cells of the values at the sources, in their order. Where there are fewer
    /// than two, the further values are not looked at.
    pub fn value_at(&self, shape: &Shape, c: &Cell, values: [i64; 2]) -> i64
        requires field { Contains (slabs_of (shape_of shape.now)) self.now }
        requires inside { IsIn self.now.target c.now }
        ensures { result ≡ cell_value (shape_of shape.now) self.now c.now values }
    {
        let steps = distance(shape.physical.axis(self.axis), c.at(self.axis));
        match self.updater {
            Updater::Constant(k) => k,
            Updater::Periodic => values[0],
            Updater::Reflect => values[0],
            Updater::Antireflect => antireflected(values[0]),
            Updater::Extrapolate => on_line(values, steps),
        }
    }
}

// The value so many steps beyond the first of two on the line through both.
fn on_line(values: [i64; 2], steps: u32) -> i64
    ensures { result ≡ extrapolation (slice_index_or values 0 (pos 0)) (slice_index_or values 1 (pos 0)) steps }
{
    extrapolated(values[0], values[1], steps)
}

// The cell with another coordinate on this axis.
fn with_coordinate(c: &Cell, axis: usize, x: i32) -> Cell
    requires { axis < length c.now }
    ensures { result ≡ slice_set c.now axis x }
{
    let dims = c.dims();
    let mut coordinates = c.coordinates();
    coordinates[axis] = x;
    Cell::front(dims, coordinates)
}

// The number next to the face inside the axis, on the number's side; the face where there is no other.
fn inner(axis: Axis, x: i32) -> i32
    ensures { result ≡ inner (interval_of axis) x }
{
    if x < axis.first {
        above_first(axis)
    } else {
        below_last(axis)
    }
}

// The second number of the axis; the only one where there is no other.
fn above_first(axis: Axis) -> i32
    ensures { result ≡ int_min (axis.first +ℤ pos 1) axis.last }
{
    (axis.first + 1).min(axis.last)
}

// The number before the axis's last one; the only one where there is no other.
fn below_last(axis: Axis) -> i32
    ensures { result ≡ int_max (axis.last -ℤ pos 1) axis.first }
{
    (axis.last - 1).max(axis.first)
}

// How far a number beside the axis lies from the face on its side.
fn distance(axis: Axis, x: i32) -> u32
    ensures { result ≡ distance (interval_of axis) x }
{
    (i64::from(x) - i64::from(face(axis, x))).unsigned_abs() as u32
}
