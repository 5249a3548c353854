//! The slabs of cells beside the physical domain, in the order in which a field takes their values.
ghost use Rattle.std.specs.Prelude.{◌≡◌, ◌++◌, true, false, ◌<◌, nat_lt, [], ◌∷◌, length, filter, IsSome, IfOk, OnOk};
ghost use Rattle.pooma_domain.specs.Axes.{interval_of};
ghost use Rattle.pooma_domain.specs.Cells.{axis_length, IsAxis, IsBox};
ghost use Rattle.pooma_field.specs.ShapeOf.{shape_of};
ghost use Rattle.pooma_field.specs.Shapes.{beyond, slab_axes};
ghost use Rattle.pooma_field.specs.Slabs.{axis_at, is_deep, slab_at, slabs_of};

use crate::shapes::{Shape, Slab};
use crate::updaters::Updater;
use pooma_domain::{Axis, BoxN, boxes_within_boxes, order_of_cells};
use std::alloc::{AllocError, Global};

/// The slabs of a field, in the order in which they take their values: of each axis from the lowest the low one and then the
/// high one, where the total domain reaches beyond the face. Only want of memory refuses it.
pub fn slabs(alloc: Global, shape: &Shape) -> Result<Vec<Slab>, AllocError>
    requires { IsSome shape.now.faces }
    ensures { IfOk result (λ list. list.items ≡ slabs_of (shape_of shape.now)) }
{
    let mut list = Vec::new(alloc);
    let Some(faces) = shape.faces else {
        return Ok(list);
    };
    for axis in 0..faces.dims() {
        let ends = faces.ends(axis);
        add(alloc, &mut list, shape, axis, false, ends.low)?;
        add(alloc, &mut list, shape, axis, true, ends.high)?;
    }
    Ok(list)
}

// The slab of this face more, where the total domain reaches beyond it.
fn add(
    _alloc: Global,
    list: &mut Vec<Slab>,
    shape: &Shape,
    axis: usize,
    high: bool,
    updater: Updater,
) -> Result<(), AllocError>
    requires { axis < length shape.now.physical }
    ensures { OnOk result (list.new.items ≡ list.old.items ++ filter is_deep (slab_at (shape_of shape.now) axis high updater ∷ [])) }
{
    if reaches(high, shape.physical.axis(axis), shape.total.axis(axis)) {
        list.push(slab(shape, axis, high, updater))?;
    }
    Ok(())
}

// The slab of this face, beyond which the total domain reaches.
fn slab(shape: &Shape, axis: usize, high: bool, updater: Updater) -> Slab
    requires there { axis < length shape.now.physical }
    requires deep { 0 < axis_length (beyond high (axis_at shape.now.physical axis) (axis_at shape.now.total axis)) }
    ensures { result ≡ slab_at (shape_of shape.now) axis high updater }
{
    boxes_within_boxes();
    // For what they promise: both are boxes.
    let _dims = (shape.physical.dims(), shape.total.dims());
    Slab {
        target: target(high, axis, &shape.physical, &shape.total),
        axis,
        high,
        updater,
    }
}

// The cells of the slab of a face.
fn target(high: bool, axis: usize, physical: &BoxN, total: &BoxN) -> BoxN
    requires there { axis < length physical.now }
    requires same_dims { length total.now ≡ length physical.now }
    requires valid { IsBox (slab_axes high axis physical.now total.now) }
    ensures { result ≡ slab_axes high axis physical.now total.now }
{
    order_of_cells();
    if axis == 0 {
        let numbers = beyond(high, physical.axis(0), total.axis(0));
        physical.rest().after(numbers)
    } else {
        let later = target(high, axis - 1, &physical.rest(), &total.rest());
        later.after(total.axis(0))
    }
}

// Whether the total axis reaches beyond this end of the physical one.
fn reaches(high: bool, physical: Axis, total: Axis) -> bool
    ensures { result ≡ nat_lt 0 (axis_length (beyond high (interval_of physical) (interval_of total))) }
{
    if high {
        physical.last < total.last
    } else {
        total.first < physical.first
    }
}

// The numbers of the total axis beyond this end of the physical one.
fn beyond(high: bool, physical: Axis, total: Axis) -> Axis
    requires { IsAxis (beyond high (interval_of physical) (interval_of total)) }
    ensures { interval_of result ≡ beyond high (interval_of physical) (interval_of total) }
{
    if high {
        above(physical, total)
    } else {
        below(physical, total)
    }
}

fn below(physical: Axis, total: Axis) -> Axis
    requires { IsAxis (beyond false (interval_of physical) (interval_of total)) }
    ensures { interval_of result ≡ beyond false (interval_of physical) (interval_of total) }
{
    Axis {
        first: total.first,
        last: physical.first - 1,
    }
}

fn above(physical: Axis, total: Axis) -> Axis
    requires { IsAxis (beyond true (interval_of physical) (interval_of total)) }
    ensures { interval_of result ≡ beyond true (interval_of physical) (interval_of total) }
{
    Axis {
        first: physical.last + 1,
        last: total.last,
    }
}
