//! Whether the views of a statement have the axes that they have to.
ghost use Rattle.std.specs.Prelude.{◌≡◌, ◌↔◌, length, All, IsTrue};
ghost use Rattle.pooma_field.specs.ShapeOf.{shape_of};
ghost use Rattle.pooma_model.specs.Declarations.{shape_at};
ghost use Rattle.pooma_script.specs.Known.{declared_in};
ghost use Rattle.pooma_script.specs.Tests.{HasEqualAxes, HasOwnAxes};
ghost use Rattle.pooma_check.specs.Kept.{known_of};

use crate::known::Known;
use crate::task::Task;
use pooma_domain::BoxN;
use pooma_field::Shape;
use pooma_script::conjunction::both;
use pooma_script::reading::{Reading, all_go_along, axes_read, fits_stencil};

/// The shape of an array; of one that is not there, a shape without axes.
fn shape_at(known: &Known<'_>, array: u32) -> Shape
    ensures { shape_of result ≡ shape_at (declared_in (known_of known.now)) array }
{
    if array < known.draft.arrays() {
        *known.draft.shape(array)
    } else {
        Shape::of(BoxN::point(), BoxN::point(), None).unwrap()
    }
}

/// Whether a view has a SUB for each axis of its array.
fn has_each_slot(known: &Known<'_>, reading: &Reading<'_>) -> bool
    ensures { IsTrue result ↔ (length reading.now.view.slots ≡ length (shape_at (declared_in (known_of known.now)) reading.now.view.array).physical) }
{
    reading.subs().len() == shape_at(known, reading.array()).physical.dims()
}

fn has_own_axes(known: &Known<'_>, reading: &Reading<'_>) -> bool
    ensures { IsTrue result ↔ HasOwnAxes (declared_in (known_of known.now)) reading.now }
{
    both(has_each_slot(known, reading), fits_stencil(reading))
}

fn all_have_own_axes(known: &Known<'_>, readings: &[Reading<'_>]) -> bool
    ensures { IsTrue result ↔ All (HasOwnAxes (declared_in (known_of known.now))) readings.now }
{
    readings.iter().all(|reading| has_own_axes(known, reading))
}

/// How many axes the positions of a statement have.
fn axes_of_positions(task: &Task<'_>) -> usize
    ensures { result ≡ length task.now.positions }
{
    match task.first() {
        None => 0,
        Some(first) => axes_read(first),
    }
}

/// Whether what a statement reads has as many axes as the statement, and this as many as its line asks for.
pub fn has_equal_axes(known: &Known<'_>, task: &Task<'_>) -> bool
    ensures { IsTrue result ↔ HasEqualAxes (declared_in (known_of known.now)) task.now }
{
    if !all_have_own_axes(known, task.readings()) {
        return false;
    }
    let axes = axes_of_positions(task);
    if !all_go_along(task.readings(), axes) {
        return false;
    }
    task.axes() as usize <= axes
}
