//! Slabs of fields: which cells each face gives values to, in which order, and by which slab a cell goes that lies outside on
//! several axes.

use pooma_domain::{Axis, BoxN, Cell};
use pooma_field::Updater::{Antireflect, Constant, Extrapolate, Periodic, Reflect};
use pooma_field::{Faces, Shape, Slab, Updater, slabs};
use std::alloc::{AllocError, Global};

// An axis of a field: the first number of the total one, the first and the last number of the physical one, and the last number
// of the total one.
type Reach = [i8; 4];

// The numbers of the first and of the last cell of a slab, with 0 for the axes that there are not, its axis, whether it is the
// high one, and its updater.
type Row = ([i32; 3], [i32; 3], usize, bool, Updater);

// The axes of a field, its faces, and its slabs.
const FIELDS: &[(&[Reach], &[Updater], &[Row])] = &[
    // The worked row: a square of two numbers on a side, with one more all around.
    (
        &[[-1, 0, 1, 2], [-1, 0, 1, 2]],
        &[Constant(5), Periodic, Antireflect, Antireflect],
        &[
            ([-1, 0, 0], [-1, 1, 0], 0, false, Constant(5)),
            ([2, 0, 0], [2, 1, 0], 0, true, Periodic),
            ([-1, -1, 0], [2, -1, 0], 1, false, Antireflect),
            ([-1, 2, 0], [2, 2, 0], 1, true, Antireflect),
        ],
    ),
    // Rows, by each updater. The total one may reach further on one side than on the other, and only on one or on none.
    (
        &[[-2, 0, 3, 5]],
        &[Constant(7), Constant(-8)],
        &[
            ([-2, 0, 0], [-1, 0, 0], 0, false, Constant(7)),
            ([4, 0, 0], [5, 0, 0], 0, true, Constant(-8)),
        ],
    ),
    (
        &[[-4, 0, 3, 4]],
        &[Periodic, Periodic],
        &[
            ([-4, 0, 0], [-1, 0, 0], 0, false, Periodic),
            ([4, 0, 0], [4, 0, 0], 0, true, Periodic),
        ],
    ),
    (
        &[[-9, -9, -8, -6]],
        &[Extrapolate, Reflect],
        &[([-7, 0, 0], [-6, 0, 0], 0, true, Reflect)],
    ),
    (
        &[[4, 5, 5, 5]],
        &[Extrapolate, Reflect],
        &[([4, 0, 0], [4, 0, 0], 0, false, Extrapolate)],
    ),
    (
        &[[1, 2, 9, 10]],
        &[Antireflect, Extrapolate],
        &[
            ([1, 0, 0], [1, 0, 0], 0, false, Antireflect),
            ([10, 0, 0], [10, 0, 0], 0, true, Extrapolate),
        ],
    ),
    (&[[0, 0, 3, 3]], &[Reflect, Periodic], &[]),
    // Squares: slabs of the second axis are as wide as the total one on the first, those of the first only as the physical one on
    // the second. An axis on which the total one reaches nowhere beyond has none.
    (
        &[[-2, 0, 3, 5], [-1, 0, 5, 6]],
        &[Extrapolate, Constant(0), Reflect, Periodic],
        &[
            ([-2, 0, 0], [-1, 5, 0], 0, false, Extrapolate),
            ([4, 0, 0], [5, 5, 0], 0, true, Constant(0)),
            ([-2, -1, 0], [5, -1, 0], 1, false, Reflect),
            ([-2, 6, 0], [5, 6, 0], 1, true, Periodic),
        ],
    ),
    (
        &[[0, 0, 2, 2], [-3, 0, 2, 5]],
        &[Periodic, Periodic, Extrapolate, Antireflect],
        &[
            ([0, -3, 0], [2, -1, 0], 1, false, Extrapolate),
            ([0, 3, 0], [2, 5, 0], 1, true, Antireflect),
        ],
    ),
    (
        &[[-1, 0, 0, 1], [3, 3, 4, 4]],
        &[Antireflect, Reflect, Constant(1), Constant(2)],
        &[
            ([-1, 3, 0], [-1, 4, 0], 0, false, Antireflect),
            ([1, 3, 0], [1, 4, 0], 0, true, Reflect),
        ],
    ),
    (
        &[[-1, 0, 1, 1], [0, 0, 1, 2]],
        &[Reflect, Periodic, Constant(3), Constant(4)],
        &[
            ([-1, 0, 0], [-1, 1, 0], 0, false, Reflect),
            ([-1, 2, 0], [1, 2, 0], 1, true, Constant(4)),
        ],
    ),
    // Cubes.
    (
        &[[-1, 0, 1, 2], [-1, 0, 1, 2], [-1, 0, 1, 2]],
        &[
            Constant(5),
            Periodic,
            Reflect,
            Antireflect,
            Extrapolate,
            Constant(6),
        ],
        &[
            ([-1, 0, 0], [-1, 1, 1], 0, false, Constant(5)),
            ([2, 0, 0], [2, 1, 1], 0, true, Periodic),
            ([-1, -1, 0], [2, -1, 1], 1, false, Reflect),
            ([-1, 2, 0], [2, 2, 1], 1, true, Antireflect),
            ([-1, -1, -1], [2, 2, -1], 2, false, Extrapolate),
            ([-1, -1, 2], [2, 2, 2], 2, true, Constant(6)),
        ],
    ),
    (
        &[[-2, 0, 3, 5], [0, 0, 3, 4], [-1, 0, 3, 3]],
        &[
            Periodic,
            Extrapolate,
            Periodic,
            Constant(1),
            Reflect,
            Antireflect,
        ],
        &[
            ([-2, 0, 0], [-1, 3, 3], 0, false, Periodic),
            ([4, 0, 0], [5, 3, 3], 0, true, Extrapolate),
            ([-2, 4, 0], [5, 4, 3], 1, true, Constant(1)),
            ([-2, 0, -1], [5, 4, -1], 2, false, Reflect),
        ],
    ),
    (
        &[[0, 0, 1, 1], [0, 0, 1, 1], [-2, 0, 1, 3]],
        &[
            Reflect,
            Reflect,
            Extrapolate,
            Extrapolate,
            Periodic,
            Periodic,
        ],
        &[
            ([0, 0, -2], [1, 1, -1], 2, false, Periodic),
            ([0, 0, 2], [1, 1, 3], 2, true, Periodic),
        ],
    ),
];

// The numbers from one to another, where these are an axis.
fn axis(first: i8, last: i8) -> Option<Axis> {
    Axis::of(i32::from(first), i32::from(last))
}

// The box of these axes, where there are one to three.
fn boxed(axes: &[Axis]) -> Option<BoxN> {
    match axes {
        [a] => Some(BoxN::of1(*a)),
        [a, b] => Some(BoxN::of2(*a, *b)),
        [a, b, c] => BoxN::of3(*a, *b, *c),
        _ => None,
    }
}

// The physical domain of these axes, and the total one.
fn domains(alloc: Global, reaches: &[Reach]) -> Option<(BoxN, BoxN)> {
    let mut physical = Vec::new(alloc);
    let mut total = Vec::new(alloc);
    for reach in reaches {
        let [before, first, last, behind] = *reach;
        physical.push(axis(first, last)?).ok()?;
        total.push(axis(before, behind)?).ok()?;
    }
    Some((boxed(&physical)?, boxed(&total)?))
}

// The slabs of the field with these axes and faces, where it is one.
fn slabs_of(alloc: Global, reaches: &[Reach], updaters: &[Updater]) -> Option<Vec<Slab>> {
    let (physical, total) = domains(alloc, reaches)?;
    let count = updaters.len();
    if count != 2 && count != 4 && count != 6 {
        return None;
    }
    let shape = Shape::of(physical, total, Some(Faces::new(updaters)))?;
    slabs(alloc, &shape).ok()
}

fn row_of(slab: &Slab) -> Row {
    let least = slab.target.least().coordinates();
    let greatest = slab.target.greatest().coordinates();
    (least, greatest, slab.axis, slab.high, slab.updater)
}

// Whether the slabs are these, in this order.
fn are_rows(slabs: &[Slab], rows: &[Row]) -> bool {
    for (slab, row) in slabs.iter().zip(rows) {
        if row_of(slab) != *row {
            return false;
        }
    }
    slabs.len() == rows.len()
}

// The first field that has other slabs.
fn first_otherwise(alloc: Global) -> Option<usize> {
    for (k, (reaches, updaters, rows)) in FIELDS.iter().enumerate() {
        match slabs_of(alloc, reaches, updaters) {
            Some(slabs) if are_rows(&slabs, rows) => {}
            _ => return Some(k),
        }
    }
    None
}

#[test]
fn slabs_of_fields(rt: HostRuntime) {
    assert_eq!(rt; first_otherwise(rt.alloc()), None);
}

// Of cells around a cube of two numbers on a side, with one more all around: the place of the one slab that has the cell. A
// corner goes by the greatest axis on which it lies outside.
const CELLS: &[([i8; 3], Option<usize>)] = &[
    ([-1, 0, 1], Some(0)),
    ([2, 1, 0], Some(1)),
    ([0, -1, 1], Some(2)),
    ([-1, -1, 0], Some(2)),
    ([2, -1, 1], Some(2)),
    ([1, 2, 0], Some(3)),
    ([-1, 2, 1], Some(3)),
    ([2, 2, 0], Some(3)),
    ([0, 1, -1], Some(4)),
    ([-1, 0, -1], Some(4)),
    ([2, 2, -1], Some(4)),
    ([-1, -1, -1], Some(4)),
    ([1, 0, 2], Some(5)),
    ([0, -1, 2], Some(5)),
    ([2, -1, 2], Some(5)),
    ([2, 2, 2], Some(5)),
    ([0, 0, 0], None),
    ([1, 1, 1], None),
    ([3, 0, 0], None),
    ([-1, -1, 3], None),
];

// The place of the slab that has the cell, where one alone has it.
fn place_of(slabs: &[Slab], c: &Cell) -> Option<usize> {
    let mut found = None;
    for (k, slab) in slabs.iter().enumerate() {
        if slab.target.contains(c) {
            if found.is_some() {
                return None;
            }
            found = Some(k);
        }
    }
    found
}

// The first cell of the table that goes by another slab. All of them, where the cube has no slabs.
fn first_cell_otherwise(alloc: Global) -> Option<[i8; 3]> {
    let side = [-1, 0, 1, 2];
    let slabs = slabs_of(alloc, &[side; 3], &[Periodic; 6]).unwrap_or(Vec::new(alloc));
    for (c, place) in CELLS {
        let [x, y, z] = *c;
        let cell = Cell::of3(i32::from(x), i32::from(y), i32::from(z));
        if place_of(&slabs, &cell) != *place {
            return Some(*c);
        }
    }
    None
}

#[test]
fn a_corner_goes_by_the_slab_of_the_greatest_axis(rt: HostRuntime) {
    assert_eq!(rt; first_cell_otherwise(rt.alloc()), None);
}
