//! Layouts of what their lines say.
ghost use Rattle.std.specs.Prelude.{◌≡◌, ◌⊎◌, ◌+◌, ◌≤◌, ◌<◌, [], length, map, All, IfOk};
ghost use Rattle.std.specs.List.{AllZip};
ghost use Rattle.std.specs.Option.{ForSome};
ghost use Rattle.pooma_domain.specs.Axes.{interval_of};
ghost use Rattle.pooma_domain.specs.Cells.{IsOrdered, count_of, interval};
ghost use Rattle.pooma_field.specs.Faces.{by_axis};
ghost use Rattle.pooma_field.specs.ShapeOf.{shape_of};
ghost use Rattle.pooma_layout.specs.Axes.{AreBorders, IsAscending, IsCovering, IsDepth, IsNear};
ghost use Rattle.pooma_layout.specs.Blocks.{IsPartCount, product};
ghost use Rattle.pooma_layout.specs.Patches.{physical_of};
ghost use Rattle.pooma_script.specs.Layouts.{axes_of, block_borders, brick_of, cut_axes, layers, layout_of, shape_on};
ghost use Rattle.pooma_script.specs.Operators.{updater_of};
ghost use Rattle.pooma_script.specs.Tests.{AreAxes, AreFew, CutsInside, HasParts, IsNearZero, cut_count, parts_by};

use crate::cause::LimitName;
use crate::operators::updater_of;
use pooma_domain::{Axis, BoxN, Cell, order_of_cells};
use pooma_field::{Faces, Shape, Updater};
use pooma_layout::Layout;
use pooma_parse::{RawCutting, RawList, Updater4};
use std::alloc::{AllocError, Global};

/// A list of at most three numbers as a cell.
pub fn cell_of(list: &[i32]) -> Cell
    requires { length list.now ≤ 3 }
    ensures { result ≡ list.now }
{
    match list {
        [] => Cell::none(),
        [first, rest @ ..] => cell_of(rest).after(*first),
    }
}

/// The guard layers of each of at most three axes: none on all of them where the line leaves them out.
fn layers_of(domain: &[(i32, i32)], list: &[i32]) -> Cell
    requires few { length domain.now ≤ 3 }
    requires each { length (layers (axes_of domain.now) list.now) ≡ length domain.now }
    ensures { result ≡ layers (axes_of domain.now) list.now }
{
    if list.is_empty() {
        no_layers(domain)
    } else {
        cell_of(list)
    }
}

/// No guard layer on any of at most three axes.
fn no_layers(domain: &[(i32, i32)]) -> Cell
    requires { length domain.now ≤ 3 }
    ensures { result ≡ layers (axes_of domain.now) [] }
{
    match domain {
        [] => Cell::none(),
        [_, axes @ ..] => no_layers(axes).after(0),
    }
}

fn axis_of(bounds: (i32, i32)) -> Axis
    requires { IsNear (interval bounds.0 bounds.1) }
    ensures { interval_of result ≡ interval bounds.0 bounds.1 }
{
    Axis {
        first: bounds.0,
        last: bounds.1,
    }
}

/// A domain of at most three axes near 0 as a box.
fn box_of(domain: &[(i32, i32)]) -> BoxN
    requires few { length domain.now ≤ 3 }
    requires near { All IsNear (axes_of domain.now) }
    ensures { result ≡ axes_of domain.now }
{
    order_of_cells();
    match domain {
        [] => BoxN::point(),
        [bounds, axes @ ..] => box_of(axes).after(axis_of(*bounds)),
    }
}

/// The layout of a domain of one to three axes, cut into so many blocks on each. Its only error is want of memory.
fn grid_of(
    alloc: Global,
    domain: &[(i32, i32)],
    blocks: &[i32],
    internal: &[i32],
    external: &[i32],
) -> Result<Layout, AllocError>
    requires some { 0 < length domain.now }
    requires few { length domain.now ≤ 3 }
    requires near { All IsNear (axes_of domain.now) }
    requires blocks { AllZip IsPartCount (axes_of domain.now) blocks.now }
    requires few_blocks { length blocks.now ≤ 3 }
    requires patches { product (map count_of blocks.now) ≤ 256 }
    requires internal { length (layers (axes_of domain.now) internal.now) ≡ length domain.now }
    requires external { length (layers (axes_of domain.now) external.now) ≡ length domain.now }
    requires depths { All IsDepth (layers (axes_of domain.now) internal.now) × All IsDepth (layers (axes_of domain.now) external.now) }
    requires covering { AllZip IsCovering (axes_of domain.now) (layers (axes_of domain.now) external.now) }
    ensures { IfOk result (λ made. made ≡ cut_axes (axes_of domain.now) (block_borders (axes_of domain.now) blocks.now)
        (layers (axes_of domain.now) internal.now) (layers (axes_of domain.now) external.now)) }
{
    let inside = layers_of(domain, internal);
    let outside = layers_of(domain, external);
    let layout = Layout::grid(alloc, box_of(domain), &cell_of(blocks), &inside, &outside)?;
    // For what it promises: the axes of a layout are cut in order.
    let _patches = layout.patches();
    Ok(layout)
}

/// The lists with memory of their own. Its only error is want of memory.
fn copied(alloc: Global, cuts: &[RawList<i32>]) -> Result<Vec<Vec<i32>>, AllocError>
    ensures { IfOk result (λ made. map (λ list. list.items) made.items ≡ cuts.now) }
{
    let mut lists = Vec::with_capacity(alloc, cuts.len())?;
    for list in cuts {
        lists.push(Vec::from_slice(alloc, list.as_slice())?)?;
    }
    Ok(lists)
}

/// The layout of a domain of one to three axes, cut at these numbers on each. Its only error is want of memory.
fn cuts_of(
    alloc: Global,
    domain: &[(i32, i32)],
    cuts: &[RawList<i32>],
    internal: &[i32],
    external: &[i32],
) -> Result<Layout, AllocError>
    requires some { 0 < length domain.now }
    requires few { length domain.now ≤ 3 }
    requires near { All IsNear (axes_of domain.now) }
    requires ascending { All IsAscending cuts.now }
    requires inside { AllZip AreBorders (axes_of domain.now) cuts.now }
    requires patches { product (map (λ list. length list + 1) cuts.now) ≤ 256 }
    requires internal { length (layers (axes_of domain.now) internal.now) ≡ length domain.now }
    requires external { length (layers (axes_of domain.now) external.now) ≡ length domain.now }
    requires depths { All IsDepth (layers (axes_of domain.now) internal.now) × All IsDepth (layers (axes_of domain.now) external.now) }
    requires covering { AllZip IsCovering (axes_of domain.now) (layers (axes_of domain.now) external.now) }
    ensures { IfOk result (λ made. made ≡ cut_axes (axes_of domain.now) cuts.now
        (layers (axes_of domain.now) internal.now) (layers (axes_of domain.now) external.now)) }
{
    let lists = copied(alloc, cuts)?;
    let inside = layers_of(domain, internal);
    let outside = layers_of(domain, external);
    let layout = Layout::cuts(alloc, box_of(domain), &lists, &inside, &outside)?;
    Ok(layout)
}

/// The layout that a line says, of which all tests are passed. Its only error is want of memory.
pub fn said(
    alloc: Global,
    domain: &[(i32, i32)],
    cutting: &RawCutting,
    internal: &[i32],
    external: &[i32],
) -> Result<Layout, AllocError>
    requires axes { AreAxes (length domain.now) }
    requires cut { cut_count cutting.now ≡ length domain.now }
    requires layers { (length (layers (axes_of domain.now) internal.now) ≡ length domain.now)
        × (length (layers (axes_of domain.now) external.now) ≡ length domain.now) }
    requires ordered { All IsOrdered (axes_of domain.now) }
    requires parts { HasParts (axes_of domain.now) cutting.now }
    requires cuts { CutsInside (axes_of domain.now) cutting.now }
    requires near { All IsNearZero domain.now }
    requires patches { product (parts_by cutting.now) ≤ 256 }
    requires guards { AreFew LimitName.Guards (layers (axes_of domain.now) internal.now) × AreFew LimitName.Guards (layers (axes_of domain.now) external.now)
        × AllZip IsCovering (axes_of domain.now) (layers (axes_of domain.now) external.now) }
    ensures { IfOk result (λ made. made ≡ layout_of (axes_of domain.now) cutting.now internal.now external.now) }
{
    match cutting {
        RawCutting::Blocks(blocks) => grid_of(alloc, domain, blocks.as_slice(), internal, external),
        RawCutting::Cuts(cuts) => cuts_of(alloc, domain, cuts.as_slice(), internal, external),
    }
}

/// The layout of a brick: one patch without guards. Its only error is want of memory.
pub fn brick(alloc: Global, domain: &[(i32, i32)]) -> Result<Layout, AllocError>
    requires axes { AreAxes (length domain.now) }
    requires ordered { All IsOrdered (axes_of domain.now) }
    requires near { All IsNearZero domain.now }
    ensures { IfOk result (λ made. made ≡ brick_of (axes_of domain.now)) }
{
    let ones = [1, 1, 1];
    grid_of(alloc, domain, &ones[..domain.len()], &[], &[])
}

/// An array over a layout, as a shape; with faces, two for each axis, a field's.
pub fn shape_over(layout: &Layout, faces: Option<Faces>) -> Shape
    requires { ForSome faces (λ given. length given ≡ length (physical_of layout.now)) }
    ensures { shape_of result ≡ shape_on layout.now faces }
{
    // For what it promises: the axes of a layout are valid.
    let _patches = layout.patches();
    Shape::of(layout.physical(), layout.total(), faces).unwrap()
}

/// The updaters of two to six faces, two for each axis.
pub fn faces_of(list: &[Updater4]) -> Faces
    requires { (length list.now ≡ 2) ⊎ (length list.now ≡ 4) ⊎ (length list.now ≡ 6) }
    ensures { result ≡ by_axis (map updater_of list.now) }
{
    let mut updaters = [Updater::Constant(0); 6];
    for (n, updater) in list.iter().enumerate() {
        updaters[n] = updater_of(*updater);
    }
    Faces::new(&updaters[..list.len()])
}
