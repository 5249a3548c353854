//! Patches: what is read after sets, copies and changes of form.

use pooma_domain::{Axis, BoxN, Cell};
use pooma_patch::Patch;
use std::alloc::{AllocError, Global};

// The number at the cell, where the patch has it.
fn number(patch: &Patch, c: Cell) -> Option<i64> {
    if patch.area().contains(&c) {
        Some(patch.get(&c))
    } else {
        None
    }
}

// Sets the cell, where the patch is writable and has it.
fn put(patch: &mut Patch, c: Cell, v: i64) {
    if patch.area().contains(&c) && !patch.is_one() {
        patch.set(&c, v);
    }
}

// The numbers at the cells 0 to 4, where the patch has them, and whether it is kept as one.
fn seen(patch: &Patch) -> ([Option<i64>; 5], bool) {
    let numbers = [
        number(patch, Cell::of1(0)),
        number(patch, Cell::of1(1)),
        number(patch, Cell::of1(2)),
        number(patch, Cell::of1(3)),
        number(patch, Cell::of1(4)),
    ];
    (numbers, patch.is_one())
}

// A patch over the cells 1 to 3.
fn three() -> Patch {
    Patch::zeros(BoxN::of1(Axis { first: 1, last: 3 }))
}

// The same, of which the second cell is set to 5, then copied, and then the first to 9: the patch when it can be written, the
// copy, and the patch at the end.
fn set_and_copied(alloc: Global) -> Result<[([Option<i64>; 5], bool); 3], AllocError> {
    let mut patch = three();
    patch.writable(alloc)?;
    let at_first = seen(&patch);
    put(&mut patch, Cell::of1(2), 5);
    let copy = patch.copied(alloc)?;
    put(&mut patch, Cell::of1(1), 9);
    Ok([at_first, seen(&copy), seen(&patch)])
}

#[test]
fn a_copy_has_the_same_numbers(rt: HostRuntime) {
    let zeros = [None, Some(0), Some(0), Some(0), None];
    let copy = [None, Some(0), Some(5), Some(0), None];
    let changed = [None, Some(9), Some(5), Some(0), None];
    assert!(rt; seen(&three()) == (zeros, true));
    assert!(rt;
        set_and_copied(rt.alloc()) == Ok([(zeros, false), (copy, false), (changed, false)])
    );
}

// A patch over the cells 0 to 3, all of which are set to 7.
fn sevens(alloc: Global) -> Result<Patch, AllocError> {
    let mut patch = Patch::zeros(BoxN::of1(Axis { first: 0, last: 3 }));
    patch.writable(alloc)?;
    for x in 0..4 {
        put(&mut patch, Cell::of1(x), 7);
    }
    Ok(patch)
}

// The same: as it is set, compressed, and compressed again after the last was set to 8.
fn compressed(alloc: Global) -> Result<[([Option<i64>; 5], bool); 3], AllocError> {
    let mut patch = sevens(alloc)?;
    let whole = seen(&patch);
    patch.compress();
    let one = seen(&patch);
    patch.writable(alloc)?;
    put(&mut patch, Cell::of1(3), 8);
    patch.compress();
    Ok([whole, one, seen(&patch)])
}

#[test]
fn equal_numbers_become_one(rt: HostRuntime) {
    let sevens = [Some(7), Some(7), Some(7), Some(7), None];
    let apart = [Some(7), Some(7), Some(7), Some(8), None];
    assert!(rt; compressed(rt.alloc()) == Ok([(sevens, false), (sevens, true), (apart, false)]));
}

// Copies the cells that both patches have, where the first is writable.
fn copy_common(to: &mut Patch, from: &Patch) {
    if to.is_one() || to.area().dims() != from.area().dims() {
        return;
    }
    if let Some(both) = to.area().meet(&from.area()) {
        to.copy_box(from, &both);
    }
}

// The cells and numbers of a patch over `0:2, 0:1`.
const FROM: &[(i32, i32, i64)] = &[
    (0, 0, 1),
    (1, 0, 2),
    (2, 0, 3),
    (0, 1, 4),
    (1, 1, 5),
    (2, 1, 6),
];

fn from(alloc: Global) -> Result<Patch, AllocError> {
    let area = BoxN::of2(Axis { first: 0, last: 2 }, Axis { first: 0, last: 1 });
    let mut patch = Patch::zeros(area);
    patch.writable(alloc)?;
    for (x, y, v) in FROM {
        put(&mut patch, Cell::of2(*x, *y), *v);
    }
    Ok(patch)
}

// The cells and numbers of a patch over `-1:1, -1:2` after what it has in common with the other was copied.
const TO: &[(i32, i32, i64)] = &[
    (-1, 0, 0),
    (0, 0, 1),
    (1, 0, 2),
    (-1, 1, 0),
    (0, 1, 4),
    (1, 1, 5),
    (0, -1, 0),
    (0, 2, 0),
];

fn to(alloc: Global) -> Result<Patch, AllocError> {
    let area = BoxN::of2(Axis { first: -1, last: 1 }, Axis { first: -1, last: 2 });
    let mut patch = Patch::zeros(area);
    patch.writable(alloc)?;
    copy_common(&mut patch, &from(alloc)?);
    Ok(patch)
}

// The first of these cells that has another number in the patch.
fn first_other(
    patch: Result<Patch, AllocError>,
    cells: &[(i32, i32, i64)],
) -> Result<Option<(i32, i32)>, AllocError> {
    let patch = patch?;
    for (x, y, v) in cells {
        if number(&patch, Cell::of2(*x, *y)) != Some(*v) {
            return Ok(Some((*x, *y)));
        }
    }
    Ok(None)
}

#[test]
fn a_box_is_copied_whole(rt: HostRuntime) {
    assert!(rt; first_other(from(rt.alloc()), FROM) == Ok(None));
    assert!(rt; first_other(to(rt.alloc()), TO) == Ok(None));
}

// A patch over `0:2, 0:1`, first as it is kept as one, then with a row written backwards along the first axis: the row at
// each number of the first axis along the second, backwards and forwards.
fn rows(alloc: Global) -> Result<[[i64; 2]; 3], AllocError> {
    let area = BoxN::of2(Axis { first: 0, last: 2 }, Axis { first: 0, last: 1 });
    let mut patch = Patch::zeros(area);
    let mut zeros = [9; 2];
    patch.read_row(&Cell::of2(0, 1), 0, 2, &mut zeros);
    patch.writable(alloc)?;
    patch.write_row(&Cell::of2(2, 1), 0, -1, &[3, 4, 5]);
    let mut last = [9; 2];
    patch.read_row(&Cell::of2(2, 1), 1, -1, &mut last);
    let mut first = [9; 2];
    patch.read_row(&Cell::of2(0, 0), 1, 1, &mut first);
    Ok([zeros, last, first])
}

#[test]
fn rows_go_either_way_along_each_axis(rt: HostRuntime) {
    assert!(rt; rows(rt.alloc()) == Ok([[0, 0], [3, 0], [0, 5]]));
}
