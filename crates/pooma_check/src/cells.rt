//! Whether the views of a statement stay in their arrays, and the views.
ghost use Rattle.std.specs.Prelude.{◌≡◌, ◌↔◌, ◌<◌, ◌≤◌, None, Some, All, IsTrue, length, slice_get};
ghost use Rattle.pooma_domain.specs.Cells.{IsOrdered};
ghost use Rattle.pooma_field.specs.ShapeOf.{shape_of};
ghost use Rattle.pooma_field.specs.Shapes.{own_area};
ghost use Rattle.pooma_model.specs.Declarations.{shape_at};
ghost use Rattle.pooma_model.specs.Fit.{AreFew, IsReadable, IsWritable};
ghost use Rattle.pooma_view.specs.Slots.{positions_of};
ghost use Rattle.pooma_script.specs.Known.{declared_in, is_array, named_at};
ghost use Rattle.pooma_script.specs.Tests.{HasOwnAxes, HasPositions};
ghost use Rattle.pooma_script.specs.Views.{Reading as Read, reading_of, view_of};
ghost use Rattle.pooma_check.specs.Kept.{IsKept, known_of};
ghost use Rattle.pooma_check.specs.Readings.{CanView, HasPlaces, IsShapeThere};

use crate::known::Known;
use crate::lookup::reading_at;
use pooma_domain::{BoxN, order_of_cells};
use pooma_field::Shape;
use pooma_parse::RawView;
use pooma_script::conjunction::both;
use pooma_script::reading::Reading;
use pooma_script::slot::view_in;
use pooma_view::View;

/// The shape of an array that is there.
pub fn shape_there<'a>(known: &'a Known<'_>, array: u32) -> &'a Shape
    requires { array < length (declared_in (known_of known.now)).shapes }
    ensures shape { shape_of result.now ≡ shape_at (declared_in (known_of known.now)) array }
    ensures there { IsShapeThere (shape_of result.now) }
{
    // For what they promise: what is declared has layouts, and a layout has axes near 0.
    let _arrays = known.draft.arrays();
    let _patches = known.draft.layout(array).patches();
    known.draft.shape(array)
}

/// Whether a view that takes a number of each axis names cells of its array alone.
fn is_readable(known: &Known<'_>, reading: &Reading<'_>) -> bool
    requires slots { length reading.now.view.slots ≡ length (shape_at (declared_in (known_of known.now)) reading.now.view.array).physical }
    requires taking { All IsOrdered reading.now.positions }
    ensures { IsTrue result ↔ IsReadable (declared_in (known_of known.now)) reading.now.view }
{
    if reading.array() >= known.draft.arrays() {
        return false;
    }
    let shape = shape_there(known, reading.array());
    view_in(&shape.total, reading.array(), reading.subs()).is_some()
}

/// The cells of an array that have a number of their own.
fn own_area(shape: &Shape) -> BoxN
    ensures { result ≡ own_area (shape_of shape.now) }
{
    match shape.faces {
        Some(_) => shape.physical,
        None => shape.total,
    }
}

/// Whether a view that takes a number of each axis names cells alone that have a number of their own.
fn is_writable(known: &Known<'_>, reading: &Reading<'_>) -> bool
    requires slots { length reading.now.view.slots ≡ length (shape_at (declared_in (known_of known.now)) reading.now.view.array).physical }
    requires taking { All IsOrdered reading.now.positions }
    ensures { IsTrue result ↔ IsWritable (declared_in (known_of known.now)) reading.now.view }
{
    if reading.array() >= known.draft.arrays() {
        return false;
    }
    let area = own_area(shape_there(known, reading.array()));
    view_in(&area, reading.array(), reading.subs()).is_some()
}

/// Whether the first view names cells alone that have a number of their own.
pub fn first_is_writable(known: &Known<'_>, readings: &[Reading<'_>]) -> bool
    requires some { 1 ≤ length readings.now }
    requires own { All (HasOwnAxes (declared_in (known_of known.now))) readings.now }
    requires taking { All HasPositions readings.now }
    ensures { (first : Read) → slice_get readings.now 0 ≡ Some first → IsTrue result ↔ IsWritable (declared_in (known_of known.now)) first.view }
{
    is_writable(known, &readings[0])
}

/// Whether each view names cells of its array alone.
pub fn all_are_readable(known: &Known<'_>, readings: &[Reading<'_>]) -> bool
    requires own { All (HasOwnAxes (declared_in (known_of known.now))) readings.now }
    requires taking { All HasPositions readings.now }
    ensures { IsTrue result ↔ All (λ reading. IsReadable (declared_in (known_of known.now)) reading.view) readings.now }
{
    match readings {
        [] => true,
        [reading, others @ ..] => both(
            is_readable(known, reading),
            all_are_readable(known, others),
        ),
    }
}

/// The view of what is read.
pub fn view_read(known: &Known<'_>, reading: &Reading<'_>) -> View
    requires { CanView (declared_in (known_of known.now)) reading.now }
    ensures view { result ≡ reading.now.view }
    ensures places { HasPlaces reading.now }
    ensures few { AreFew (positions_of result.slots) }
{
    order_of_cells();
    let shape = shape_there(known, reading.array());
    let Some(view) = view_in(&shape.total, reading.array(), reading.subs()) else {
        unreachable!();
    };
    view
}

/// The view of a line, which names an array's cells alone.
pub fn view_at(known: &Known<'_>, text: &[u8], seen: &RawView) -> View
    requires kept { IsKept known.now }
    requires array { IsTrue (is_array (named_at (known_of known.now) text.now seen.now.name)) }
    requires can { CanView (declared_in (known_of known.now)) (reading_of (known_of known.now) text.now None seen.now) }
    ensures view { result ≡ view_of (known_of known.now) text.now seen.now }
    ensures places { HasPlaces (reading_of (known_of known.now) text.now None seen.now) }
    ensures few { AreFew (positions_of result.slots) }
{
    view_read(known, &reading_at(known, text, None, seen))
}
