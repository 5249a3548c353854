//! Where numbers at equal steps come past borders.
ghost use Rattle.std.specs.Prelude.{◌≡◌, ◌↔◌, ◌⊎◌, ℤ, pos, neg_ℤ, ◌+ℤ◌, ◌*ℤ◌, ◌≤ℤ◌, ◌<ℤ◌, Any, Contains, OnOk};
ghost use Rattle.pooma_domain.specs.Axes.{interval_of};
ghost use Rattle.pooma_part.specs.Crossing.{IsCrossing, IsInner};

use pooma_domain::{Axis, Strided};
use std::alloc::{AllocError, Global};

// The greatest number of whole steps that do not go past the way.
fn whole_steps(way: i64, step: i64) -> i64
    requires some { pos 0 <ℤ step }
    requires near { (neg_ℤ (pos 4294967296) ≤ℤ way) × (way ≤ℤ pos 4294967296) }
    ensures within { (step *ℤ result) ≤ℤ way }
    ensures most { way <ℤ ((step *ℤ result) +ℤ step) }
    ensures near { (neg_ℤ (pos 4294967297) ≤ℤ result) × (result ≤ℤ pos 4294967296) }
{
    way.div_euclid(step)
}

/// The one place at which the numbers, where they go on at both ends, come past the border.
pub(crate) fn crossing(numbers: &Strided, border: i32) -> i64
    ensures { IsCrossing numbers.now border result }
{
    let ahead = i64::from(border) - i64::from(numbers.first);
    let stride = i64::from(numbers.stride);
    if stride > 0 {
        whole_steps(ahead - 1, stride) + 1
    } else {
        whole_steps(-ahead, -stride) + 1
    }
}

// Adds the place, where it lies on the axis and is not the first.
fn add_place(_alloc: Global, places: &mut Vec<i32>, k: i64, axis: Axis) -> Result<(), AllocError>
    ensures { OnOk result ((j : ℤ) → Contains places.new.items j ↔ (Contains places.old.items j ⊎ (IsInner (interval_of axis) k × (k ≡ j)))) }
{
    if k <= i64::from(axis.first) {
        return Ok(());
    }
    if k > i64::from(axis.last) {
        return Ok(());
    }
    places.push(k as i32)?;
    Ok(())
}

/// Adds the places of the axis, but for the first, at which the numbers come past one of the borders.
pub(crate) fn add_crossings(
    alloc: Global,
    places: &mut Vec<i32>,
    numbers: &Strided,
    borders: &[i32],
    axis: Axis,
) -> Result<(), AllocError>
    ensures { OnOk result ((j : ℤ) → Contains places.new.items j ↔ (Contains places.old.items j ⊎ (IsInner (interval_of axis) j × Any (λ border. IsCrossing numbers.now border j) borders.now))) }
{
    for border in borders {
        add_place(alloc, places, crossing(numbers, *border), axis)?;
    }
    Ok(())
}
