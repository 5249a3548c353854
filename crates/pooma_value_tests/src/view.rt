ghost use Rattle.std.specs.Prelude.{◌≡◌, ◌^◌, ◌<◌};

use pooma_domain::{Axis, BoxN, Strided};
use pooma_view::{Slot, View};

// The numbers 5, 3 and 1 along an axis.
fn odd() -> Slot {
    Slot::Along(Strided {
        first: 5,
        stride: -2,
        count: 3,
    })
}

// Whether a view of the row 2 lies in `0:9, 0:last`, with its array and its axes.
fn is_within(last: i32) -> Option<(u32, usize, bool)> {
    let view = View::new(4, &[Slot::Fixed(2), odd()]);
    let area = BoxN::of2(Axis::of(0, 9)?, Axis::of(0, last)?);
    Some((view.array(), view.dims(), view.within(&area)))
}

#[test]
fn a_view_names_its_cells(rt: HostRuntime) {
    assert!(rt; is_within(9) == Some((4, 2, true)));
    assert!(rt; is_within(4) == Some((4, 2, false)));
}

#[test]
fn views_are_the_same_where_array_and_slots_are(rt: HostRuntime) {
    let slots = [Slot::Fixed(2), odd()];
    let view = View::new(4, &slots);
    let same = [
        view == View::new(4, &slots),
        view == View::new(3, &slots),
        view == View::new(4, &[view.slot(1), view.slot(0)]),
    ];
    assert!(rt; same == [true, false, false]);
}

// So many numbers from 0 on.
fn up_to(count: u32) -> Strided
    requires { (0 < count) × (count < 2 ^ 31) }
    ensures { result.count ≡ count }
{
    Strided {
        first: 0,
        stride: 1,
        count,
    }
}

// Whether a column that is read overlaps a row that is written, over so many places. None where the positions make no box.
fn column_overlaps_row(column: i32, row: i32, count: u32) -> Option<bool>
    requires { (0 < count) × (count < 2 ^ 31) }
{
    let places = up_to(count);
    let read = View::new(0, &[Slot::Along(places), Slot::Fixed(column)]);
    let target = View::new(0, &[Slot::Fixed(row), Slot::Along(places)]);
    if read.has_positions() && target.has_positions() {
        Some(read.overlaps(&target))
    } else {
        None
    }
}

#[test]
fn a_column_overlaps_a_row_off_the_diagonal(rt: HostRuntime) {
    let overlaps = [
        column_overlaps_row(3, 3, 8),
        column_overlaps_row(3, 2, 4),
        column_overlaps_row(3, 2, 3),
        column_overlaps_row(0, 0, 1),
    ];
    assert!(rt; overlaps == [Some(false), Some(true), Some(false), Some(false)]);
}

// Whether three slots of so many places make a box of positions. A slot of one place is a number.
fn are_positions(counts: [u32; 3]) -> Option<bool> {
    let [a, b, c] = counts;
    if a == 0 || b == 0 || c == 0 || a > 5_000_000 || b > 5_000_000 || c > 5_000_000 {
        return None;
    }
    let slots = [
        Slot::Along(up_to(a)),
        Slot::Along(up_to(b)),
        Slot::Along(up_to(c)),
    ];
    Some(View::new(0, &slots).has_positions())
}

// So many places on each axis, and whether they make a box.
const PLACES: &[([u32; 3], bool)] = &[
    ([8, 1, 4_000_000], true),
    ([4_000_000, 4_000_000, 1], true),
    ([4_000_000, 4_000_000, 4_000_000], false),
    // Three slots of 2^21 places have 2^63 positions, one more than fit.
    ([1 << 21, 1 << 21, 1 << 21], false),
    ([1 << 21, (1 << 21) - 1, 1 << 21], true),
    // An axis ends at 4,000,000.
    ([4_000_001, 1, 1], true),
    ([4_000_002, 1, 1], false),
];

#[test]
fn positions_make_a_box_where_they_can_be_counted(rt: HostRuntime) {
    for (counts, is_box) in PLACES {
        assert_eq!(rt; (counts, are_positions(*counts)), (counts, Some(*is_box)));
    }
}

// Views of one axis, and of two axes beside a number.
#[test]
fn slots_with_a_number_are_no_axes(rt: HostRuntime) {
    let row = Slot::Along(up_to(8));
    let long = Slot::Along(up_to(4_000_000));
    let are_boxes = [
        View::new(0, &[row, Slot::Fixed(3), long]).has_positions(),
        View::new(0, &[long, long]).has_positions(),
        View::new(0, &[Slot::Along(up_to(4_000_001))]).has_positions(),
        View::new(0, &[Slot::Along(up_to(4_000_002))]).has_positions(),
    ];
    assert!(rt; are_boxes == [true, true, true, false]);
}
