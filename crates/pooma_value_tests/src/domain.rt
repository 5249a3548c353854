use pooma_domain::{Axis, BoxN, Cell, Strided};

// How many numbers there are, the last of them, and its place.
fn last_of(first: i8, last: i8, stride: i8) -> Option<(u32, i32, Option<u32>)> {
    let numbers = Strided::of(i32::from(first), i32::from(last), i32::from(stride))?;
    let end = numbers.at(numbers.count - 1);
    Some((numbers.count, end, numbers.place_of(end)))
}

const STRIDES: &[((i8, i8, i8), Option<(u32, i32, Option<u32>)>)] = &[
    ((5, 0, -2), Some((3, 1, Some(2)))),
    ((0, 6, 2), Some((4, 6, Some(3)))),
    ((1, 7, 4), Some((2, 5, Some(1)))),
    ((3, 3, -1), Some((1, 3, Some(0)))),
    ((0, 5, -1), None),
    ((0, 5, 0), None),
];

#[test]
fn strides_count_to_the_last_number(rt: HostRuntime) {
    for ((first, last, stride), found) in STRIDES {
        assert_eq!(rt; last_of(*first, *last, *stride), *found);
    }
}

fn block() -> Option<BoxN> {
    BoxN::of3(Axis::of(-1, 1)?, Axis::of(0, 3)?, Axis::of(5, 6)?)
}

// The place of a cell of the box, and whether it is the cell at that place. None for another cell.
fn place_of(c: &Cell) -> Option<(u64, bool)> {
    let block = block()?;
    if !block.contains(c) {
        return None;
    }
    let place = block.place_of(c);
    Some((place, block.cell_at(place) == *c))
}

const CORNERS: &[((i32, i32, i32), Option<(u64, bool)>)] = &[
    ((-1, 0, 5), Some((0, true))),
    ((1, 0, 5), Some((2, true))),
    ((-1, 3, 5), Some((9, true))),
    ((-1, 0, 6), Some((12, true))),
    ((1, 3, 6), Some((23, true))),
    ((2, 0, 5), None),
];

#[test]
fn corners_have_their_places(rt: HostRuntime) {
    for ((a, b, c), place) in CORNERS {
        assert_eq!(rt; place_of(&Cell::of3(*a, *b, *c)), *place);
    }
}

#[test]
fn cells_of_fewer_axes_are_not_in_a_box(rt: HostRuntime) {
    assert!(rt; place_of(&Cell::of2(0, 0)) == None);
}

// How many cells the box has, and whether a row of 0 to 3 is a point, a longer row, and the same row.
fn counted_and_compared() -> Option<(u64, [bool; 3])> {
    let row = BoxN::of1(Axis::of(0, 3)?);
    let same = BoxN::of1(Axis::of(0, 3)?);
    let longer = BoxN::of1(Axis::of(0, 4)?);
    Some((
        block()?.count(),
        [row == BoxN::point(), row == longer, row == same],
    ))
}

#[test]
fn boxes_are_the_same_where_their_axes_are(rt: HostRuntime) {
    assert!(rt; counted_and_compared() == Some((24, [false, false, true])));
    assert!(rt; block() == block());
}
