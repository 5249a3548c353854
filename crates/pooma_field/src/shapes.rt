//! The shape of an array: its domains, and for a field its faces.
ghost use Rattle.std.specs.Prelude.{◌≡◌, ◌↔◌, pos, ◌-ℤ◌, ◌≤ℤ◌, length, IsTrue, IsSome, IfSome, IsNone};
ghost use Rattle.std.specs.Option.{ForSome};
ghost use Rattle.pooma_domain.specs.Axes.{interval_of};
ghost use Rattle.pooma_domain.specs.Cells.{IsIn};
ghost use Rattle.pooma_field.specs.Shapes.{IsAround, IsInSlabs, IsShape};

use crate::faces::Faces;
use crate::updaters::Updater;
use pooma_domain::{Axis, BoxN, Cell};

/// The shape of an array. Its statements speak of the physical domain; its cells are those of the total domain, which has
/// further cells beside the physical one. Where there are faces the array is a field, and their updaters give the cells
/// beside the physical domain their values.
#[derive(Clone, Copy, Debug)]
pub struct Shape {
    /// The cells that statements speak of where they name no others.
    pub physical: BoxN,

    /// All cells: on either side of each axis at most as many further ones as the physical axis has numbers.
    pub total: BoxN,

    /// The updaters of a field, two for each axis. None for a plain array, all cells of which have a number of their own.
    pub faces: Option<Faces>,

    pub ghost valid: { IsShape (record { physical = physical; total = total; faces = faces }) },
}

impl Shape {
    ghost use Rattle.pooma_field.specs.ShapeOf.{shape_of};

    /// The shape of these boxes and faces. None exactly where they are of none: where some axis of the total domain does not
    /// hold that of the physical one or reaches too far beside it, where the boxes have different numbers of axes, or where
    /// the faces have another one.
    pub fn of(physical: BoxN, total: BoxN, faces: Option<Faces>) -> Option<Shape>
        ensures found { IsSome result ↔ IsShape (record { physical = physical; total = total; faces = faces }) }
        ensures value { IfSome result (λ shape. shape_of shape ≡ record { physical = physical; total = total; faces = faces }) }
    {
        let dims = physical.dims();
        if total.dims() != dims || !are_faces_of(&faces, dims) {
            return None;
        }
        for axis in 0..dims {
            if !is_around(physical.axis(axis), total.axis(axis)) {
                return None;
            }
        }
        Some(Shape {
            physical,
            total,
            faces,
        })
    }

    /// The axis by which the value of a cell of a field goes, counted from 0: the greatest on which the cell lies outside the
    /// physical domain. None exactly where the cell is physical.
    pub fn outer_axis(&self, c: &Cell) -> Option<usize>
        requires { IsIn self.now.total c.now }
        ensures outside { IfSome result (λ axis. IsInSlabs (shape_of self.now) axis c.now) }
        ensures physical { IsNone result ↔ IsIn self.now.physical c.now }
    {
        for axis in (0..self.physical.dims()).rev() {
            if !holds(self.physical.axis(axis), c.at(axis)) {
                return Some(axis);
            }
        }
        None
    }
}

// Whether the faces, if there are any, are those of so many axes.
fn are_faces_of(faces: &Option<Faces>, dims: usize) -> bool
    ensures { IsTrue result ↔ ForSome faces.now (λ given. length given ≡ dims) }
{
    match faces {
        None => true,
        Some(given) => given.dims() == dims,
    }
}

fn holds(axis: Axis, x: i32) -> bool
    ensures { IsTrue result ↔ ((axis.first ≤ℤ x) × (x ≤ℤ axis.last)) }
{
    axis.first <= x && x <= axis.last
}

// Whether the total axis holds the physical one, and has no more further numbers on either side than that one has.
fn is_around(physical: Axis, total: Axis) -> bool
    ensures { IsTrue result ↔ IsAround (interval_of physical) (interval_of total) }
{
    let most = gap(physical.first, physical.last) + 1;
    is_within(gap(total.first, physical.first), most)
        && is_within(gap(physical.last, total.last), most)
}

// How far the second number lies above the first.
fn gap(low: i32, high: i32) -> i32
    requires near { (low -ℤ high) ≤ℤ pos 8000000 }
    requires far { (high -ℤ low) ≤ℤ pos 8000000 }
    ensures { result ≡ high -ℤ low }
{
    high - low
}

fn is_within(further: i32, most: i32) -> bool
    ensures { IsTrue result ↔ ((pos 0 ≤ℤ further) × (further ≤ℤ most)) }
{
    0 <= further && further <= most
}

/// The cells that one face of a field gives values to.
///
/// A slab of an axis lies beside the physical domain on that axis. It is as wide as the total domain on the lower axes and
/// as the physical domain on the greater ones, so that the slabs, axis by axis from the lowest, take values from cells that
/// have theirs.
#[derive(Clone, Copy, Debug)]
pub struct Slab {
    /// The cells.
    pub target: BoxN,

    /// The axis, counted from 0.
    pub axis: usize,

    /// Whether the slab lies above the physical domain, and not below it.
    pub high: bool,

    /// The updater of the face.
    pub updater: Updater,
}
