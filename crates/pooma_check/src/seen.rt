//! What is known of the views that a sound statement reads.
ghost use Rattle.std.specs.Prelude.{◌≡◌, length, All};
ghost use Rattle.pooma_domain.specs.Cells.{IsOrdered};
ghost use Rattle.pooma_expr.specs.Trees.{views_of};
ghost use Rattle.pooma_model.specs.Fit.{AreFew};
ghost use Rattle.pooma_stencil.specs.Expansions.{IsPartOf, expansion, positions_on};
ghost use Rattle.pooma_view.specs.Slots.{positions_of};
ghost use Rattle.pooma_script.specs.Known.{declared_in};
ghost use Rattle.pooma_check.specs.Kept.{known_of};
ghost use Rattle.pooma_check.specs.Readings.{IsSoundReading};
ghost use Rattle.pooma_check.specs.Seen.{CanSee, LiesOnly};

use crate::cells::{shape_there, view_read};
use crate::known::Known;
use pooma_domain::{BoxN, order_of_cells};
use pooma_script::reading::Reading;
use pooma_stencil::{Stencil, values_of_expansions};
use pooma_view::View;

/// What a stencil reads of a view in this area: parts of it, at positions that are few where the view's are.
fn see_applied(area: &BoxN, view: &View, stencil: &Stencil)
    requires inside { LiesOnly area.now view.now }
    requires few { AreFew (positions_of view.now.slots) }
    requires dims { length stencil.now.lower ≡ length (positions_of view.now.slots) }
    requires room { All IsOrdered (positions_on stencil.now view.now) }
    ensures parts { All (IsPartOf view.now (positions_on stencil.now view.now)) (views_of (expansion stencil.now view.now)) }
    ensures few { AreFew (positions_on stencil.now view.now) }
{
    // All for what they promise.
    order_of_cells();
    values_of_expansions();
    let _dims = stencil.dims();
    let _area = area.dims();
    let left = stencil.result(&view.positions()).unwrap();
    let _left = left.dims();
}

/// What is read can be seen at its positions.
fn see(known: &Known<'_>, reading: &Reading<'_>)
    requires { IsSoundReading (declared_in (known_of known.now)) reading.now }
    ensures { CanSee (declared_in (known_of known.now)) reading.now }
{
    let view = view_read(known, reading);
    let shape = shape_there(known, reading.array());
    let Some(stencil) = reading.stencil() else {
        return;
    };
    see_applied(&shape.total, &view, stencil);
}

/// All that is read can be seen at its positions.
pub fn all_seen(known: &Known<'_>, readings: &[Reading<'_>])
    requires { All (IsSoundReading (declared_in (known_of known.now))) readings.now }
    ensures { All (CanSee (declared_in (known_of known.now))) readings.now }
{
    match readings {
        [] => {}
        [reading, others @ ..] => {
            see(known, reading);
            all_seen(known, others);
        }
    }
}
