//! Whether a statement reads at its positions, and no cell that it writes at another one.
ghost use Rattle.std.specs.Prelude.{◌≡◌, ◌↔◌, ◌≤◌, List, ◌∷◌, length, flat_map, All, IsTrue};
ghost use Rattle.pooma_domain.specs.Cells.{IsBox};
ghost use Rattle.pooma_view.specs.Overlap.{IsOverlap};
ghost use Rattle.pooma_view.specs.Slots.{positions_of};
ghost use Rattle.pooma_script.specs.Known.{declared_in};
ghost use Rattle.pooma_script.specs.Tests.{HasEqualLengths};
ghost use Rattle.pooma_script.specs.Views.{Reading as Read, positions_read};
ghost use Rattle.pooma_check.specs.Kept.{known_of};
ghost use Rattle.pooma_check.specs.Readings.{HasPlaces, IsSoundReading, views_of_reading};

use crate::cells::view_read;
use crate::known::Known;
use crate::task::Task;
use pooma_domain::BoxN;
use pooma_script::conjunction::both;
use pooma_script::reading::Reading;
use pooma_view::View;

/// The positions of what is read.
fn positions_read(known: &Known<'_>, reading: &Reading<'_>) -> BoxN
    requires { IsSoundReading (declared_in (known_of known.now)) reading.now }
    ensures value { result ≡ positions_read reading.now }
    ensures places { HasPlaces reading.now }
{
    let positions = view_read(known, reading).positions();
    match reading.stencil() {
        None => positions,
        Some(stencil) => stencil.result(&positions).unwrap(),
    }
}

/// The positions of a statement.
pub fn positions_of_task(known: &Known<'_>, task: &Task<'_>) -> BoxN
    requires { All (IsSoundReading (declared_in (known_of known.now))) task.now.readings }
    ensures { result ≡ task.now.positions }
{
    match task.first() {
        None => BoxN::point(),
        Some(first) => positions_read(known, first),
    }
}

fn all_have(known: &Known<'_>, readings: &[Reading<'_>], positions: &BoxN) -> bool
    requires { All (IsSoundReading (declared_in (known_of known.now))) readings.now }
    ensures same { IsTrue result ↔ All (λ reading. positions_read reading ≡ positions.now) readings.now }
    ensures places { All HasPlaces readings.now }
{
    match readings {
        [] => true,
        [reading, others @ ..] => both(
            positions_read(known, reading) == *positions,
            all_have(known, others, positions),
        ),
    }
}

/// Whether all that a statement reads has its positions.
pub fn has_equal_lengths(known: &Known<'_>, task: &Task<'_>) -> bool
    requires { All (IsSoundReading (declared_in (known_of known.now))) task.now.readings }
    ensures same { IsTrue result ↔ HasEqualLengths task.now }
    ensures places { All HasPlaces task.now.readings }
{
    all_have(known, task.readings(), &positions_of_task(known, task))
}

/// Whether no view that is read names a cell of a target at another position.
fn is_apart(known: &Known<'_>, reading: &Reading<'_>, target: &View) -> bool
    requires sound { IsSoundReading (declared_in (known_of known.now)) reading.now }
    requires target { IsBox (positions_of target.now.slots) }
    ensures { IsTrue result ↔ All (λ view. IsOverlap view target.now → ⊥) (views_of_reading reading.now) }
{
    let view = view_read(known, reading);
    match reading.stencil() {
        None => !view.overlaps(target),
        Some(stencil) => stencil.reads_apart(&view, target),
    }
}

/// The same of all that is read.
fn all_are_apart(known: &Known<'_>, readings: &[Reading<'_>], target: &View) -> bool
    requires sound { All (IsSoundReading (declared_in (known_of known.now))) readings.now }
    requires target { IsBox (positions_of target.now.slots) }
    ensures { IsTrue result ↔ All (λ view. IsOverlap view target.now → ⊥) (flat_map views_of_reading readings.now) }
{
    match readings {
        [] => true,
        [reading, others @ ..] => both(
            is_apart(known, reading, target),
            all_are_apart(known, others, target),
        ),
    }
}

/// Whether what is read behind the first view names no cell of this at another position.
pub fn others_are_apart(known: &Known<'_>, readings: &[Reading<'_>]) -> bool
    requires some { 1 ≤ length readings.now }
    requires sound { All (IsSoundReading (declared_in (known_of known.now))) readings.now }
    ensures { (first : Read) (others : List Read) → readings.now ≡ first ∷ others
        → IsTrue result ↔ All (λ view. IsOverlap view first.view → ⊥) (flat_map views_of_reading others) }
{
    match readings {
        [] => unreachable!(),
        [first, others @ ..] => {
            let target = view_read(known, first);
            all_are_apart(known, others, &target)
        }
    }
}
