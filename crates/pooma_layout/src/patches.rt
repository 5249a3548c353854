ghost use Rattle.std.specs.Prelude.{◌≡◌, ◌^◌, ◌<◌, ◌≤◌, Some, length, slice_get, All};
ghost use Rattle.pooma_domain.specs.Cells.{IsIn};
ghost use Rattle.pooma_layout.specs.Axes.{IsCutAxis};
ghost use Rattle.pooma_layout.specs.Patches.{physical_of, total_of, owned_boxes, allocated_boxes, allocated_count, owner_of};

use crate::axes::AxisParts;
use pooma_domain::{BoxN, Cell};

/// The box of the axes without guards.
pub(crate) fn physical(axes: &[AxisParts]) -> BoxN
    requires valid { All IsCutAxis axes.now }
    requires few { length axes.now ≤ 3 }
    ensures { result ≡ physical_of axes.now }
{
    match axes {
        [] => BoxN::point(),
        [first, later @ ..] => physical(later).after(first.physical()),
    }
}

/// The box of the axes with their external guards.
pub(crate) fn total(axes: &[AxisParts]) -> BoxN
    requires valid { All IsCutAxis axes.now }
    requires few { length axes.now ≤ 3 }
    ensures { result ≡ total_of axes.now }
{
    match axes {
        [] => BoxN::point(),
        [first, later @ ..] => total(later).after(first.total()),
    }
}

/// How many patches there are.
pub(crate) fn count(axes: &[AxisParts]) -> usize
    requires { length (owned_boxes axes.now) ≤ 256 }
    ensures { result ≡ length (owned_boxes axes.now) }
{
    match axes {
        [] => 1,
        [first, later @ ..] => first.parts() * count(later),
    }
}

/// The box that a patch owns.
pub(crate) fn owned(axes: &[AxisParts], p: usize) -> BoxN
    requires valid { All IsCutAxis axes.now }
    requires few { length axes.now ≤ 3 }
    requires there { p < length (owned_boxes axes.now) }
    ensures { slice_get (owned_boxes axes.now) p ≡ Some result }
{
    match axes {
        [] => BoxN::point(),
        [first, later @ ..] => {
            let parts = first.parts();
            owned(later, p / parts).after(first.part(p % parts))
        }
    }
}

/// The box that a patch allocates.
pub(crate) fn allocated(axes: &[AxisParts], p: usize) -> BoxN
    requires valid { All IsCutAxis axes.now }
    requires few { length axes.now ≤ 3 }
    requires there { p < length (owned_boxes axes.now) }
    ensures { slice_get (allocated_boxes axes.now) p ≡ Some result }
{
    match axes {
        [] => BoxN::point(),
        [first, later @ ..] => {
            let parts = first.parts();
            allocated(later, p / parts).after(first.allocated(p % parts))
        }
    }
}

/// The number of the patch that owns a cell.
pub(crate) fn owner(axes: &[AxisParts], c: &Cell) -> usize
    requires inside { IsIn (total_of axes.now) c.now }
    requires few { length (owned_boxes axes.now) ≤ 256 }
    ensures { result ≡ owner_of axes.now c.now }
{
    match axes {
        [] => 0,
        [first, later @ ..] => first.part_of(c.at(0)) + first.parts() * owner(later, &c.rest()),
    }
}

/// How many cells all patches allocate together.
pub(crate) fn allocated_cells(axes: &[AxisParts]) -> u64
    requires few_axes { length axes.now ≤ 3 }
    requires few_patches { length (owned_boxes axes.now) ≤ 256 }
    ensures value { result ≡ allocated_count axes.now }
    ensures few { result ≤ 2097151 ^ length axes.now }
{
    match axes {
        [] => 1,
        [first, later @ ..] => first.allocated_len() * allocated_cells(later),
    }
}
