//! The fills of a field.
ghost use Rattle.std.specs.Prelude.{◌≡◌, ◌++◌, ◌<◌, ℕ, ℤ, Some, None, List, [], ◌∷◌, length, map, slice_get, option_map, Contains, IfOk, OnOk, IsSome, ◌↔◌};
ghost use Rattle.std.specs.List.{cons_option};
ghost use Rattle.pooma_domain.specs.Cells.{IsIn};
ghost use Rattle.pooma_field.specs.ShapeOf.{shape_of};
ghost use Rattle.pooma_field.specs.Slabs.{cell_sources, slabs_of};
ghost use Rattle.pooma_layout.specs.Patches.{owner_of, Owns};
ghost use Rattle.pooma_field.specs.Updaters.{IsConstant};
ghost use Rattle.pooma_fill.specs.Boxes.{box_of};
ghost use Rattle.pooma_store.specs.Numbering.{layout_at, object_of, patch_count};
ghost use Rattle.pooma_store.specs.Standing.{shape_at};
ghost use Rattle.pooma_fill.specs.Filling.{cells_filled, fill_of_box, fills_of_field, fills_of_patch, fills_of_slab};

use crate::boxes::taken_from;
use pooma_domain::{BoxN, Cell, order_of_cells};
use pooma_expr::{Code, Expr};
use pooma_field::{Shape, Slab, slabs, slabs_in_order};
use pooma_layout::owners_of_cells;
use pooma_piece::{Piece, Task};
use pooma_store::Store;
use std::alloc::{AllocError, Global};

/// Puts the fills of a field at the end of the list: slab by slab, by the patch whose cells they set, and then by the patch from
/// which the values are taken.
pub(crate) fn add_fills(
    alloc: Global,
    list: &mut Vec<Piece>,
    number: u32,
    store: &Store,
    shape: &Shape,
    array: u32,
) -> Result<(), AllocError>
    requires field { IsSome shape.now.faces }
    requires array { array < length store.now.layouts }
    requires shape { shape_at store.now.shapes array ≡ shape_of shape.now }
    ensures { OnOk result (list.new.items ≡ list.old.items ++ fills_of_field store.now.layouts number shape.now array) }
{
    let order = slabs(alloc, shape)?;
    for k in 0..order.len() {
        add_of_slab(alloc, list, number, store, shape, array, &order[k])?;
    }
    Ok(())
}

// Those of one slab.
fn add_of_slab(
    alloc: Global,
    list: &mut Vec<Piece>,
    number: u32,
    store: &Store,
    shape: &Shape,
    array: u32,
    slab: &Slab,
) -> Result<(), AllocError>
    requires array { array < length store.now.layouts }
    requires shape { shape_at store.now.shapes array ≡ shape_of shape.now }
    requires slab { Contains (slabs_of (shape_of shape.now)) slab.now }
    ensures { OnOk result (list.new.items ≡ list.old.items ++ fills_of_slab store.now.layouts number shape.now array slab.now) }
{
    for target in 0..store.layout(array).patches() {
        add_of_patch(alloc, list, number, store, shape, array, slab, target)?;
    }
    Ok(())
}

// Those that set cells that this patch owns.
fn add_of_patch(
    alloc: Global,
    list: &mut Vec<Piece>,
    number: u32,
    store: &Store,
    shape: &Shape,
    array: u32,
    slab: &Slab,
    target: usize,
) -> Result<(), AllocError>
    requires array { array < length store.now.layouts }
    requires shape { shape_at store.now.shapes array ≡ shape_of shape.now }
    requires slab { Contains (slabs_of (shape_of shape.now)) slab.now }
    requires patch { target < patch_count (layout_at store.now.layouts array) }
    ensures { OnOk result (list.new.items ≡ list.old.items ++ fills_of_patch store.now.layouts number shape.now array slab.now target) }
{
    slabs_in_order();
    order_of_cells();
    owners_of_cells();
    // For what it promises: the arrays have shapes and layouts that fit.
    let _count = store.objects();
    let layout = store.layout(array);
    let owned = layout.owned(target);
    let _target_dims = slab.target.dims();
    let _owned_dims = owned.dims();
    let Some(part) = slab.target.meet(&owned) else {
        return Ok(());
    };
    let _part_dims = part.dims();
    if slab.updater.is_constant() {
        let fill = fill_over(alloc, number, store, shape, array, slab, target, part)?;
        list.push(fill)?;
        return Ok(());
    }
    for source in 0..layout.patches() {
        add_from(
            alloc, list, number, store, shape, array, slab, target, source, &part,
        )?;
    }
    Ok(())
}

// That of the cells of a part whose values are taken from this patch, where there are any. The part are the slab's cells that the
// target patch owns.
fn add_from(
    alloc: Global,
    list: &mut Vec<Piece>,
    number: u32,
    store: &Store,
    shape: &Shape,
    array: u32,
    slab: &Slab,
    target: usize,
    source: usize,
    part: &BoxN,
) -> Result<(), AllocError>
    requires array { array < length store.now.layouts }
    requires shape { shape_at store.now.shapes array ≡ shape_of shape.now }
    requires slab { Contains (slabs_of (shape_of shape.now)) slab.now }
    requires target { target < patch_count (layout_at store.now.layouts array) }
    requires source { source < patch_count (layout_at store.now.layouts array) }
    requires moving { ¬ (IsConstant slab.now.updater) }
    requires part { (c : List ℤ) → IsIn part.now c ↔ (IsIn slab.now.target c × Owns (layout_at store.now.layouts array) target c) }
    ensures { OnOk result (list.new.items ≡ list.old.items ++ cons_option (option_map (fill_of_box store.now.layouts number shape.now array slab.now target) (box_of (cells_filled (layout_at store.now.layouts array) (shape_of shape.now) slab.now target (Some source)))) []) }
{
    slabs_in_order();
    order_of_cells();
    owners_of_cells();
    // For what they promise: the arrays have shapes and layouts that fit, and these are boxes.
    let _count = store.objects();
    let from = store.layout(array).owned(source);
    let _part_dims = part.dims();
    let _from_dims = from.dims();
    let Some(cells) = taken_from(shape, slab, part, &from) else {
        return Ok(());
    };
    let _dims = cells.dims();
    let fill = fill_over(alloc, number, store, shape, array, slab, target, cells)?;
    list.push(fill)?;
    Ok(())
}

// The fill of these cells, which one patch owns; for each of their sources there is one patch too.
fn fill_over(
    alloc: Global,
    number: u32,
    store: &Store,
    shape: &Shape,
    array: u32,
    slab: &Slab,
    target: usize,
    cells: BoxN,
) -> Result<Piece, AllocError>
    requires array { array < length store.now.layouts }
    requires shape { shape_at store.now.shapes array ≡ shape_of shape.now }
    requires slab { Contains (slabs_of (shape_of shape.now)) slab.now }
    requires patch { target < patch_count (layout_at store.now.layouts array) }
    requires inside { (c : List ℤ) → IsIn cells c → IsIn slab.now.target c }
    ensures { IfOk result (λ fill. fill ≡ fill_of_box store.now.layouts number shape.now array slab.now target cells) }
{
    slabs_in_order();
    order_of_cells();
    // For what they promise: the array has few cells, and the cells are a box.
    let _count = store.objects();
    let _cells_dims = cells.dims();
    let _total_dims = shape.total.dims();
    let reads = objects_read(alloc, store, shape, array, slab, &cells.least())?;
    let code = Code::of(alloc, &Expr::Literal(0), &[])?;
    let task = Task::Fill {
        shape: *shape,
        slab: *slab,
        array,
    };
    let write = Some(store.object(array, target));
    Piece::new(alloc, number, cells, task, code, write, reads.as_slice())
}

// The objects of the patches that own a cell's sources, in order.
fn objects_read(
    alloc: Global,
    store: &Store,
    shape: &Shape,
    array: u32,
    slab: &Slab,
    c: &Cell,
) -> Result<Vec<u32>, AllocError>
    requires array { array < length store.now.layouts }
    requires shape { shape_at store.now.shapes array ≡ shape_of shape.now }
    requires slab { Contains (slabs_of (shape_of shape.now)) slab.now }
    requires inside { IsIn slab.now.target c.now }
    ensures { IfOk result (λ objects. objects.items ≡ map (λ s. object_of store.now.layouts array (owner_of (layout_at store.now.layouts array) s)) (cell_sources (shape_of shape.now) slab.now c.now)) }
{
    slabs_in_order();
    // For what it promises: the arrays have shapes and layouts that fit.
    let _count = store.objects();
    let layout = store.layout(array);
    let mut objects = Vec::new(alloc);
    for place in 0..slab.sources() {
        let s = slab.source_at(shape, c, place);
        objects.push(store.object(array, layout.owner(&s)))?;
    }
    Ok(objects)
}
