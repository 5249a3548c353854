//! Stores: what is read after patches were lent, written and taken back.
ghost use Rattle.std.specs.Prelude.{◌≡◌, map};
ghost use Rattle.std.specs.Arc.{arc_value};
ghost use Rattle.pooma_store.specs.Stored.{contents_of};

use pooma_domain::{Axis, BoxN, Cell};
use pooma_field::Shape;
use pooma_layout::Layout;
use pooma_patch::Patch;
use pooma_store::{Store, patches_in_place};
use std::alloc::{AllocError, Global};
use std::sync::Arc;

// Declares a plain array on this layout, where the store may have one more. Whether it did.
fn declare(alloc: Global, store: &mut Store, layout: Layout) -> Result<bool, AllocError> {
    let total = layout.total();
    let Some(shape) = Shape::of(layout.physical(), total, None) else {
        return Ok(false);
    };
    if store.lent() || store.arrays() >= 512 || total.count() > 4_194_304 {
        return Ok(false);
    }
    store.declare(alloc, shape, layout)?;
    Ok(true)
}

// The number at the cell, where the array has it and nothing is lent.
fn number(store: &Store, array: u32, c: Cell) -> Option<i64> {
    if store.lent() || array >= store.arrays() || !store.layout(array).total().contains(&c) {
        return None;
    }
    Some(store.get(array, &c))
}

// The number of the object of a patch, where it is there.
fn object(store: &Store, array: u32, patch: usize) -> Option<u32> {
    if array >= store.arrays() || patch >= store.layout(array).patches() {
        return None;
    }
    Some(store.object(array, patch))
}

// Makes the patch writable and sets the cell, where the patch has it.
fn put(alloc: Global, patch: &mut Patch, c: Cell, v: i64) -> Result<(), AllocError>
    ensures { patch.new.content.area ≡ patch.old.content.area }
{
    patch.writable(alloc)?;
    if patch.area().contains(&c) {
        patch.set(&c, v);
    }
    Ok(())
}

// The same, where the patch has no other owner.
fn put_alone(alloc: Global, patch: &mut Arc<Patch>, c: Cell, v: i64) -> Result<(), AllocError>
    ensures { (arc_value patch.new).content.area ≡ (arc_value patch.old).content.area }
{
    match Arc::get_mut(patch) {
        Some(sole) => put(alloc, sole, c, v),
        None => Ok(()),
    }
}

// The same of the object of this number, where it is there.
fn put_at(
    alloc: Global,
    patches: &mut [Arc<Patch>],
    object: usize,
    c: Cell,
    v: i64,
) -> Result<(), AllocError>
    ensures { map (λ object. object.area) (contents_of patches.new) ≡ map (λ object. object.area) (contents_of patches.old) }
{
    patches_in_place();
    if object >= patches.len() {
        return Ok(());
    }
    put_alone(alloc, &mut patches[object], c, v)
}

// Lends the patches, sets a cell of one of them and takes them back, where they are not lent.
fn change(
    alloc: Global,
    store: &mut Store,
    object: usize,
    c: Cell,
    v: i64,
) -> Result<(), AllocError> {
    if store.lent() {
        return Ok(());
    }
    let mut patches = store.lend();
    let done = put_at(alloc, &mut patches, object, c, v);
    store.settle(patches);
    done
}

// The numbers 0 to 9 cut before 4 and 7.
fn parts(alloc: Global) -> Result<Layout, AllocError> {
    let none = Cell::of1(0);
    let domain = BoxN::of1(Axis { first: 0, last: 9 });
    let cuts = [[4, 7].to_vec(alloc)?];
    Layout::cuts(alloc, domain, &cuts, &none, &none)
}

// A store of one array of these ten cells.
fn row(alloc: Global) -> Result<Store, AllocError> {
    let mut store = Store::new(alloc);
    declare(alloc, &mut store, parts(alloc)?)?;
    Ok(store)
}

// The first cell of 0 to 9 that does not have its number: 9 at 5, if that was set, and else 0.
fn first_other(store: &Store, is_set: bool) -> Option<i32> {
    for x in 0..10 {
        let v = if is_set && x == 5 { 9 } else { 0 };
        if number(store, 0, Cell::of1(x)) != Some(v) {
            return Some(x);
        }
    }
    None
}

// The arrays, the objects, and the first cells that do not have their numbers before and after the cell 5 is set, with
// the cell behind the last.
fn with_one_set(alloc: Global) -> Result<(u32, u32, [Option<i32>; 2], Option<i64>), AllocError> {
    let mut store = row(alloc)?;
    let before = first_other(&store, false);
    change(alloc, &mut store, 1, Cell::of1(5), 9)?;
    let others = [before, first_other(&store, true)];
    let behind = number(&store, 0, Cell::of1(10));
    Ok((store.arrays(), store.objects(), others, behind))
}

#[test]
fn one_cell_of_a_row_is_set(rt: HostRuntime) {
    assert!(rt; with_one_set(rt.alloc()) == Ok((1, 3, [None, None], None)));
}

// A square of four patches with a guard layer on each side.
fn square(alloc: Global) -> Result<Layout, AllocError> {
    let axis = Axis { first: 0, last: 3 };
    let one = Cell::of2(1, 1);
    Layout::grid(alloc, BoxN::of2(axis, axis), &Cell::of2(2, 2), &one, &one)
}

// A store of the row and of that square.
fn row_and_square(alloc: Global) -> Result<Store, AllocError> {
    let mut store = row(alloc)?;
    declare(alloc, &mut store, square(alloc)?)?;
    Ok(store)
}

// An array, a patch, and the object that it is.
const OBJECTS: &[(u32, usize, Option<u32>)] = &[
    (0, 0, Some(0)),
    (0, 2, Some(2)),
    (0, 3, None),
    (1, 0, Some(3)),
    (1, 3, Some(6)),
    (1, 4, None),
    (2, 0, None),
];

// How many objects there are, and the first patch of the table that is another one.
fn objects(alloc: Global) -> Result<(u32, Option<(u32, usize)>), AllocError> {
    let store = row_and_square(alloc)?;
    for (array, patch, at) in OBJECTS {
        if object(&store, *array, *patch) != *at {
            return Ok((store.objects(), Some((*array, *patch))));
        }
    }
    Ok((store.objects(), None))
}

#[test]
fn objects_go_by_arrays(rt: HostRuntime) {
    assert!(rt; objects(rt.alloc()) == Ok((7, None)));
}

// Of each change the object, the cell and the number, and what is read there then.
const CHANGES: &[(usize, i32, i32, i64, Option<i64>)] = &[
    (3, 1, 1, 5, Some(5)),
    (3, 2, 1, 6, Some(0)),
    (4, 2, 1, 7, Some(7)),
    (3, -1, -1, 3, Some(3)),
    (6, 1, 1, 8, Some(5)),
    (6, 4, 4, 2, Some(2)),
    (5, 1, 3, 4, Some(4)),
    (5, 5, 3, 1, None),
];

// Makes these changes, and answers the first behind which another number is read.
fn first_otherwise(alloc: Global, store: &mut Store) -> Result<Option<i64>, AllocError> {
    for (object, x, y, v, read) in CHANGES {
        change(alloc, store, *object, Cell::of2(*x, *y), *v)?;
        if number(store, 1, Cell::of2(*x, *y)) != *read {
            return Ok(Some(*v));
        }
    }
    Ok(None)
}

// That change, and the numbers of two cells that were not set.
fn changed(alloc: Global) -> Result<(Option<i64>, [Option<i64>; 2]), AllocError> {
    let mut store = row_and_square(alloc)?;
    let otherwise = first_otherwise(alloc, &mut store)?;
    let square = number(&store, 1, Cell::of2(0, 0));
    Ok((otherwise, [square, number(&store, 0, Cell::of1(5))]))
}

#[test]
fn copies_in_guards_are_not_read(rt: HostRuntime) {
    assert!(rt; changed(rt.alloc()) == Ok((None, [Some(0), Some(0)])));
}

// Which of the three patches of a row are kept as one number. They are lent for it and taken back.
fn ones(store: &mut Store) -> Option<[bool; 3]> {
    if store.lent() {
        return None;
    }
    let patches = store.lend();
    let ones = match patches.as_slice() {
        [low, middle, high] => Some([low.is_one(), middle.is_one(), high.is_one()]),
        _ => None,
    };
    store.settle(patches);
    ones
}

// Which are so in a new row, after the cell 5 is set, after all cells of its patch are equal again, and after one of these is set
// to what it was.
fn kept_as_one(alloc: Global) -> Result<[Option<[bool; 3]>; 4], AllocError> {
    let mut store = row(alloc)?;
    let new = ones(&mut store);
    change(alloc, &mut store, 1, Cell::of1(5), 9)?;
    let one_set = ones(&mut store);
    change(alloc, &mut store, 1, Cell::of1(4), 9)?;
    change(alloc, &mut store, 1, Cell::of1(6), 9)?;
    let all_set = ones(&mut store);
    change(alloc, &mut store, 1, Cell::of1(6), 9)?;
    Ok([new, one_set, all_set, ones(&mut store)])
}

#[test]
fn equal_numbers_are_kept_as_one(rt: HostRuntime) {
    let all = Some([true, true, true]);
    let kept = [all, Some([true, false, true]), all, all];
    assert!(rt; kept_as_one(rt.alloc()) == Ok(kept));
}
