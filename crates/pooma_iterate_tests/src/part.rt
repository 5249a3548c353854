//! Where the positions of statements are cut: the worked rows, and statements whose parts were counted by hand.
ghost use Rattle.std.specs.Prelude.{◌≡◌, pos};

use pooma_domain::{Axis, BoxN, Cell, Strided};
use pooma_layout::Layout;
use pooma_part::{Cutting, Seen, cut};
use pooma_view::{Slot, View};
use std::alloc::{AllocError, Global};

// The first and the last number of a slot and its step, which is 0 where the slot has the first number alone.
type Numbers = (i8, i8, i8);

fn slot(numbers: &Numbers) -> Slot {
    let (first, last, step) = *numbers;
    match Strided::of(i32::from(first), i32::from(last), i32::from(step)) {
        Some(along) => Slot::Along(along),
        None => Slot::Fixed(i32::from(first)),
    }
}

// The numbers from 0 to such a last one.
fn up_to(last: u8) -> Axis
    ensures first { result.first ≡ pos 0 }
    ensures last { result.last ≡ pos last }
{
    Axis {
        first: 0,
        last: i32::from(last),
    }
}

// The positions of views, which are all in one layout, as they are cut.
fn cutting(
    alloc: Global,
    layout: &Layout,
    views: &[View],
    positions: &BoxN,
) -> Result<Cutting, AllocError> {
    let mut seen = Vec::new(alloc);
    for view in views {
        seen.push(Seen { view, layout })?;
    }
    cut(alloc, &seen, positions)
}

// Whether boxes of one axis have these first and last numbers.
fn go(boxes: &[BoxN], parts: &[(i32, i32)]) -> bool {
    if boxes.len() != parts.len() {
        return false;
    }
    for n in 0..boxes.len() {
        let (first, last) = parts[n];
        if boxes[n].least() != Cell::of1(first) || boxes[n].greatest() != Cell::of1(last) {
            return false;
        }
    }
    true
}

// The numbers 0 to 9 in four blocks: 0 to 2, 3 to 5, 6 and 7, 8 and 9.
fn blocks(alloc: Global) -> Result<Layout, AllocError> {
    let none = Cell::of1(0);
    Layout::grid(alloc, BoxN::of1(up_to(9)), &Cell::of1(4), &none, &none)
}

// The numbers 0 to 3 in two blocks, with one outside on each side.
fn halves(alloc: Global) -> Result<Layout, AllocError> {
    let one = Cell::of1(1);
    Layout::grid(alloc, BoxN::of1(up_to(3)), &Cell::of1(2), &one, &one)
}

// The views of arrays of one axis, the last of their positions, and the parts of these.
type OfLine = (&'static [Numbers], u8, &'static [(i32, i32)]);

// A line turned around beside itself is the first; then one view; and then views beside each other, of a fixed number, and none.
const OF_BLOCKS: &[OfLine] = &[
    (
        &[(0, 9, 1), (9, 0, -1)],
        9,
        &[(0, 1), (2, 2), (3, 3), (4, 5), (6, 6), (7, 7), (8, 9)],
    ),
    (&[(0, 9, 1)], 9, &[(0, 2), (3, 5), (6, 7), (8, 9)]),
    (&[(9, 0, -1)], 9, &[(0, 1), (2, 3), (4, 6), (7, 9)]),
    (&[(1, 9, 1)], 8, &[(0, 1), (2, 4), (5, 6), (7, 8)]),
    (&[(0, 9, 2)], 4, &[(0, 1), (2, 2), (3, 3), (4, 4)]),
    (&[(1, 9, 2)], 4, &[(0, 0), (1, 2), (3, 3), (4, 4)]),
    (&[(8, 0, -2)], 4, &[(0, 0), (1, 1), (2, 2), (3, 4)]),
    (&[(0, 9, 9)], 1, &[(0, 0), (1, 1)]),
    (&[(3, 5, 1)], 2, &[(0, 2)]),
    (&[(2, 3, 1)], 1, &[(0, 0), (1, 1)]),
    (
        &[(0, 8, 1), (1, 9, 1)],
        8,
        &[(0, 1), (2, 2), (3, 4), (5, 5), (6, 6), (7, 7), (8, 8)],
    ),
    (
        &[(0, 9, 2), (1, 9, 2)],
        4,
        &[(0, 0), (1, 1), (2, 2), (3, 3), (4, 4)],
    ),
    (&[(5, 5, 0)], 9, &[(0, 9)]),
    (&[], 9, &[(0, 9)]),
];

// A line beside the next one, and one with the numbers outside.
const OF_HALVES: &[OfLine] = &[
    (&[(0, 2, 1), (1, 3, 1)], 2, &[(0, 0), (1, 1), (2, 2)]),
    (&[(-1, 4, 1)], 5, &[(0, 2), (3, 5)]),
];

// Whether positions 0 to `last` of these views are cut into these parts.
fn is_cut(
    alloc: Global,
    layout: &Layout,
    views: &[Numbers],
    last: u8,
    parts: &[(i32, i32)],
) -> Result<bool, AllocError> {
    let mut seen = Vec::new(alloc);
    for numbers in views {
        seen.push(View::new(0, &[slot(numbers)]))?;
    }
    let cutting = cutting(alloc, layout, &seen, &BoxN::of1(up_to(last)))?;
    let boxes = cutting.boxes(alloc)?;
    Ok(cutting.count() == parts.len() as u64 && go(&boxes, parts))
}

// The first row whose views are cut into other parts.
fn first_otherwise(
    alloc: Global,
    layout: Result<Layout, AllocError>,
    rows: &[OfLine],
) -> Result<Option<usize>, AllocError> {
    let layout = layout?;
    for (k, (views, last, parts)) in rows.iter().enumerate() {
        if !is_cut(alloc, &layout, views, *last, parts)? {
            return Ok(Some(k));
        }
    }
    Ok(None)
}

#[test]
fn lines_are_cut_where_a_view_comes_to_another_block(rt: HostRuntime) {
    let alloc = rt.alloc();
    assert!(rt; first_otherwise(alloc, blocks(alloc), OF_BLOCKS) == Ok(None));
    assert!(rt; first_otherwise(alloc, halves(alloc), OF_HALVES) == Ok(None));
}

// A square of four blocks.
fn squares(alloc: Global) -> Result<Layout, AllocError> {
    let none = Cell::of2(0, 0);
    let domain = BoxN::of2(up_to(3), up_to(3));
    Layout::grid(alloc, domain, &Cell::of2(2, 2), &none, &none)
}

// The views of arrays of two axes, the last of their positions, and how many parts these have: the whole square; it and its
// columns turned around; columns beside each other; the middle and all four beside it.
const OF_SQUARES: &[(&[(Numbers, Numbers)], u8, u8, u64)] = &[
    (&[((0, 3, 1), (0, 3, 1))], 3, 3, 4),
    (&[((0, 3, 1), (0, 3, 1)), ((3, 0, -1), (0, 3, 1))], 3, 3, 4),
    (&[((0, 2, 1), (0, 2, 1)), ((1, 3, 1), (0, 2, 1))], 2, 2, 6),
    (
        &[
            ((1, 2, 1), (1, 2, 1)),
            ((0, 1, 1), (1, 2, 1)),
            ((2, 3, 1), (1, 2, 1)),
            ((1, 2, 1), (0, 1, 1)),
            ((1, 2, 1), (2, 3, 1)),
        ],
        1,
        1,
        4,
    ),
];

// How many parts these positions have in the square.
fn count_of_square(
    alloc: Global,
    layout: &Layout,
    views: &[(Numbers, Numbers)],
    positions: &BoxN,
) -> Result<u64, AllocError> {
    let mut seen = Vec::new(alloc);
    for (along, across) in views {
        seen.push(View::new(0, &[slot(along), slot(across)]))?;
    }
    Ok(cutting(alloc, layout, &seen, positions)?.count())
}

// The first row whose positions have another number of parts.
fn first_count_otherwise(alloc: Global) -> Result<Option<usize>, AllocError> {
    let layout = squares(alloc)?;
    for (k, (views, a, b, count)) in OF_SQUARES.iter().enumerate() {
        let positions = BoxN::of2(up_to(*a), up_to(*b));
        if count_of_square(alloc, &layout, views, &positions)? != *count {
            return Ok(Some(k));
        }
    }
    Ok(None)
}

#[test]
fn parts_of_a_square(rt: HostRuntime) {
    assert!(rt; first_count_otherwise(rt.alloc()) == Ok(None));
}

// A row of the square, and a column of it, on four positions.
fn counts_of_rows(alloc: Global) -> Result<[u64; 2], AllocError> {
    let layout = squares(alloc)?;
    let positions = BoxN::of1(up_to(3));
    let row = &[((0, 3, 1), (1, 1, 0))];
    let column = &[((1, 1, 0), (0, 3, 1))];
    Ok([
        count_of_square(alloc, &layout, row, &positions)?,
        count_of_square(alloc, &layout, column, &positions)?,
    ])
}

#[test]
fn parts_of_a_row_and_a_column(rt: HostRuntime) {
    assert!(rt; counts_of_rows(rt.alloc()) == Ok([2, 2]));
}

// A cube of four numbers on a side, in two blocks by one by two.
fn cubes(alloc: Global) -> Result<Option<Layout>, AllocError> {
    let none = Cell::of3(0, 0, 0);
    match BoxN::of3(up_to(3), up_to(3), up_to(3)) {
        Some(domain) => Ok(Some(Layout::grid(alloc, domain, &Cell::of3(2, 1, 2), &none, &none)?)),
        None => Ok(None),
    }
}

// The view of the cube's first two axes, and of these numbers of the last.
fn cube(last: &Numbers) -> View {
    let four = slot(&(0, 3, 1));
    View::new(0, &[four, four, slot(last)])
}

// How many parts of the cube: whole, and of two that are beside each other along the last axis.
fn counts_of_cube(alloc: Global) -> Result<Option<[u64; 2]>, AllocError> {
    let Some(layout) = cubes(alloc)? else {
        return Ok(None);
    };
    let axis = up_to(3);
    let (Some(whole), Some(less)) = (BoxN::of3(axis, axis, axis), BoxN::of3(axis, axis, up_to(2)))
    else {
        return Ok(None);
    };
    let next = &[cube(&(0, 2, 1)), cube(&(1, 3, 1))];
    Ok(Some([
        cutting(alloc, &layout, &[cube(&(0, 3, 1))], &whole)?.count(),
        cutting(alloc, &layout, next, &less)?.count(),
    ]))
}

#[test]
fn parts_of_a_cube(rt: HostRuntime) {
    assert!(rt; counts_of_cube(rt.alloc()) == Ok(Some([4, 6])));
}
