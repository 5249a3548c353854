//! Fields: the cells that give their value to others, and what updaters make of values.

use pooma_domain::{Axis, BoxN, Cell};
use pooma_field::Updater::{Antireflect, Constant, Extrapolate, Periodic, Reflect};
use pooma_field::{Faces, Shape, Updater, antireflected, extrapolated, has_source, source};

const LEAST: i64 = i64::MIN;

const MOST: i64 = i64::MAX;

// The number of a face, of the inner neighbour, how far away it is, and the number that comes of these.
const EXTRAPOLATED: &[(i64, i64, u32, i64)] = &[
    (0, 1, 1, -1),
    (4, 1, 2, 10),
    (6, 6, 9, 6),
    (MOST, 0, 1, MOST),
    (LEAST, MOST, u32::MAX, LEAST),
    (MOST, LEAST, u32::MAX, MOST),
    (LEAST, 0, 0, LEAST),
];

#[test]
fn values_stay_within_64_bits(rt: HostRuntime) {
    let negated = [antireflected(LEAST), antireflected(MOST), antireflected(0)];
    assert!(rt; negated == [MOST, -MOST, 0]);
    for (face, inner, distance, value) in EXTRAPOLATED {
        assert_eq!(rt;
            (face, inner, extrapolated(*face, *inner, *distance)),
            (face, inner, *value)
        );
    }
}

fn row(first: i32, last: i32) -> Option<BoxN> {
    Some(BoxN::of1(Axis::of(first, last)?))
}

fn square(first: i32, last: i32) -> Option<BoxN> {
    let axis = Axis::of(first, last)?;
    Some(BoxN::of2(axis, axis))
}

// The axis by which a cell beside the domain goes. None for a cell of it, and one that is not there.
fn axis_of(shape: &Shape, c: &Cell) -> Option<usize> {
    if !shape.total.contains(c) {
        return None;
    }
    shape.outer_axis(c)
}

// The cell from which the updater of its face takes the value of this one, if it takes one.
fn source_of(shape: &Shape, c: &Cell) -> Option<Cell> {
    if !shape.total.contains(c) {
        return None;
    }
    let along = shape.outer_axis(c)?;
    if !has_source(shape, c, along) {
        return None;
    }
    Some(source(shape, c, along))
}

// Of a cell beside the row 0 to 2, which has three cells on either side and these faces: the axis by which it goes, and the
// number of its source.
fn in_row(faces: Faces, x: i32) -> Option<(usize, Option<i32>)> {
    let shape = Shape::of(row(0, 2)?, row(-3, 5)?, Some(faces))?;
    let c = Cell::of1(x);
    let axis = axis_of(&shape, &c)?;
    let Some(found) = source_of(&shape, &c) else {
        return Some((axis, None));
    };
    let [x, ..] = found.coordinates();
    Some((axis, Some(x)))
}

const SOURCES: &[(Updater, i32, Option<i32>)] = &[
    (Periodic, -1, Some(2)),
    (Periodic, -3, Some(0)),
    (Periodic, 3, Some(0)),
    (Periodic, 5, Some(2)),
    (Reflect, -1, Some(0)),
    (Reflect, -3, Some(2)),
    (Antireflect, 3, Some(2)),
    (Antireflect, 5, Some(0)),
    (Extrapolate, -3, Some(0)),
    (Extrapolate, 4, Some(2)),
    (Constant(7), -1, None),
];

#[test]
fn sources_in_a_row(rt: HostRuntime) {
    for (updater, x, found) in SOURCES {
        let faces = Faces::new(&[*updater, *updater]);
        assert_eq!(rt; in_row(faces, *x), Some((0, *found)));
    }
}

// The four faces of a square.
fn four() -> Faces {
    Faces::new(&[Constant(5), Periodic, Antireflect, Reflect])
}

// Their updaters, by axes, and first the one of the low face.
fn updaters(faces: &Faces) -> Option<[Updater; 4]> {
    if faces.dims() != 2 {
        return None;
    }
    Some([faces.low(0), faces.high(0), faces.low(1), faces.high(1)])
}

#[test]
fn faces_go_by_axes(rt: HostRuntime) {
    assert!(rt; updaters(&four()) == Some([Constant(5), Periodic, Antireflect, Reflect]));
}

// The axes by which two cells beside a square go, which has a cell more on each side and these faces, and the source of the
// first.
fn around(
    faces: Faces,
    corner: &Cell,
    beside: &Cell,
) -> Option<([Option<usize>; 2], Option<Cell>)> {
    let shape = Shape::of(square(0, 1)?, square(-1, 2)?, Some(faces))?;
    let axes = [axis_of(&shape, corner), axis_of(&shape, beside)];
    Some((axes, source_of(&shape, corner)))
}

#[test]
fn a_corner_goes_by_the_greatest_axis(rt: HostRuntime) {
    let corner = Cell::of2(2, -1);
    let beside = Cell::of2(2, 0);
    let found = Some(([Some(1), Some(0)], Some(beside)));
    assert!(rt; around(four(), &corner, &beside) == found);
}

// Whether these make a shape.
fn is_shape(physical: BoxN, total: BoxN, faces: Option<Faces>) -> bool {
    Shape::of(physical, total, faces).is_some()
}

// Of a row of two numbers: as far as it is long to both sides, further, more to one side, another row, and a square; and a
// square with the faces of a row.
fn shapes() -> Option<[bool; 6]> {
    let pair = Some(Faces::new(&[Reflect, Reflect]));
    let inside = row(0, 1)?;
    let square = square(0, 1)?;
    Some([
        is_shape(inside, row(-2, 3)?, pair),
        is_shape(inside, row(-3, 3)?, None),
        is_shape(inside, row(-2, 4)?, None),
        is_shape(inside, row(1, 1)?, None),
        is_shape(inside, square, None),
        is_shape(square, square, pair),
    ])
}

#[test]
fn a_shape_reaches_as_far_as_it_is_long(rt: HostRuntime) {
    assert!(rt; shapes() == Some([true, false, false, false, false, false]));
}
