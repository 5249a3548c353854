//! Whether the views of a statement have positions, and equal ones.
ghost use Rattle.std.specs.Prelude.{◌≡◌, ◌↔◌, ◌<◌, ◌+ℤ◌, ◌-ℤ◌, pos, min, length, slice_index_or, All, IfNone, IfSome, IsTrue};
ghost use Rattle.pooma_domain.specs.Cells.{IsOrdered, interval};
ghost use Rattle.pooma_stencil.specs.Stencils.{shrunk};
ghost use Rattle.pooma_script.specs.Tests.{HasPositions};
ghost use Rattle.pooma_script.specs.Views.{positions_in, positions_read};

use crate::conjunction::both;
use crate::reading::Reading;
use crate::view::{all_take_some, count_to};
use pooma_domain::Cell;
use pooma_parse::RawSub;

/// Whether so many numbers are more than these extents together.
fn leaves_one(count: u64, extents: i64) -> bool
    ensures { IsTrue result ↔ IsOrdered (interval (pos 0) ((pos count -ℤ pos 1) -ℤ extents)) }
{
    if extents < 0 {
        return true;
    }
    (extents as u64) < count
}

/// The extents on the first axis together. None where there are none.
fn first_extents(lower: &Cell, upper: &Cell) -> Option<i64>
    ensures none { IfNone result (min (length lower.now) (length upper.now) ≡ 0) }
    ensures some { IfSome result (λ by. (0 < length lower.now) × (0 < length upper.now)
        × (by ≡ slice_index_or lower.now 0 (pos 0) +ℤ slice_index_or upper.now 0 (pos 0))) }
{
    if lower.dims() == 0 {
        return None;
    }
    if upper.dims() == 0 {
        return None;
    }
    Some(i64::from(lower.at(0)) + i64::from(upper.at(0)))
}

/// Whether a stencil with these extents leaves a position on each axis.
fn has_room(subs: &[RawSub], lower: &Cell, upper: &Cell) -> bool
    ensures { IsTrue result ↔ All IsOrdered (shrunk (positions_in subs.now) lower.now upper.now) }
{
    match subs {
        [] => true,
        [sub, others @ ..] => match *sub {
            RawSub::At(_) => has_room(others, lower, upper),
            RawSub::Range(first, last, stride) => match first_extents(lower, upper) {
                None => true,
                Some(extents) => both(
                    leaves_one(count_to(first, last, stride), extents),
                    has_room(others, &lower.rest(), &upper.rest()),
                ),
            },
        },
    }
}

/// Whether what is read has a position: the view, and what the stencil on it leaves.
fn leaves_some(reading: &Reading<'_>) -> bool
    ensures { IsTrue result ↔ All IsOrdered (positions_read reading.now) }
{
    match reading.stencil() {
        None => all_take_some(reading.subs()),
        Some(stencil) => has_room(reading.subs(), stencil.lower(), stencil.upper()),
    }
}

fn has_positions(reading: &Reading<'_>) -> bool
    ensures { IsTrue result ↔ HasPositions reading.now }
{
    both(all_take_some(reading.subs()), leaves_some(reading))
}

/// Whether each view takes a number of each axis, and each stencil leaves a position.
pub fn all_have_positions(readings: &[Reading<'_>]) -> bool
    ensures { IsTrue result ↔ All HasPositions readings.now }
{
    match readings {
        [] => true,
        [reading, others @ ..] => both(has_positions(reading), all_have_positions(others)),
    }
}
