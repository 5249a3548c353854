//! The places at which views come to another part of their arrays' layouts.
ghost use Rattle.std.specs.Prelude.{◌≡◌, ◌↔◌, ◌⊎◌, ◌<◌, ◌≤◌, ℤ, None, Some, Any, Contains, length, drop, slice_get, IfOk, IfSome, OnOk};
ghost use Rattle.pooma_domain.specs.Axes.{interval_of};
ghost use Rattle.pooma_model.specs.Parts.{parts_along};
ghost use Rattle.pooma_part.specs.Crossing.{ChangesAt, borders_at, part_at};

use crate::borders::add_crossings;
use crate::seen::Seen;
use pooma_domain::{Axis, Strided};
use pooma_view::Slot;
use std::alloc::{AllocError, Global};

// The axis of the array, from this one on, along which the view goes on its n-th axis of positions from there on, and the
// coordinates that it names there.
fn along_from(seen: &Seen<'_>, from: usize, n: usize) -> Option<(usize, Strided)>
    ensures there { IfSome result (λ at. at.0 < length seen.now.layout) }
    ensures found { IfSome result (λ at. slice_get (parts_along (drop from seen.now.layout) (drop from seen.now.view.slots)) n ≡ Some (part_at (borders_at seen.now.layout at.0) at.1)) }
    ensures none { result ≡ None → slice_get (parts_along (drop from seen.now.layout) (drop from seen.now.view.slots)) n ≡ None }
{
    if from >= seen.view.dims() {
        return None;
    }
    if from >= seen.layout.physical().dims() {
        return None;
    }
    match seen.view.slot(from) {
        Slot::Fixed(_) => along_from(seen, from + 1, n),
        Slot::Along(numbers) => {
            if n == 0 {
                Some((from, numbers))
            } else {
                along_from(seen, from + 1, n - 1)
            }
        }
    }
}

// Adds the places of the n-th axis of positions at which the view comes to another part.
fn add_view(
    alloc: Global,
    places: &mut Vec<i32>,
    seen: &Seen<'_>,
    n: usize,
    axis: Axis,
) -> Result<(), AllocError>
    ensures { OnOk result ((j : ℤ) → Contains places.new.items j ↔ (Contains places.old.items j ⊎ ChangesAt (slice_get (parts_along seen.now.layout seen.now.view.slots) n) (interval_of axis) j)) }
{
    // For what it promises: the borders of each axis ascend.
    let _patches = seen.layout.patches();
    match along_from(seen, 0, n) {
        None => Ok(()),
        Some((on, numbers)) => add_crossings(
            alloc,
            places,
            &numbers,
            seen.layout.borders(on),
            axis,
        ),
    }
}

/// The places of the n-th axis of positions at which some view comes to another part, in any order.
pub(crate) fn places_on(
    alloc: Global,
    seen: &[Seen<'_>],
    n: usize,
    axis: Axis,
) -> Result<Vec<i32>, AllocError>
    ensures { IfOk result (λ places. (j : ℤ) → Contains places.items j ↔ Any (λ v. ChangesAt (slice_get (parts_along v.layout v.view.slots) n) (interval_of axis) j) seen.now) }
{
    let mut places = Vec::new(alloc);
    for view in seen {
        add_view(alloc, &mut places, view, n, axis)?;
    }
    Ok(places)
}
