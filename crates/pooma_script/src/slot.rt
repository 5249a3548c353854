//! The slots of a view that stays in a box.
ghost use Rattle.std.specs.Prelude.{◌≡◌, ◌↔◌, ◌-◌, ◌<◌, ◌≤◌, pos, ◌+ℤ◌, ◌*ℤ◌, FitsSigned, length, map, All, IsSome, IfSome, IsTrue};
ghost use Rattle.std.specs.Int.{w64};
ghost use Rattle.std.specs.Option.{ForSome};
ghost use Rattle.pooma_view.specs.Restricted.{IsStrided};
ghost use Rattle.pooma_view.specs.Slots.{positions_of};
ghost use Rattle.pooma_domain.specs.Axes.{interval_of};
ghost use Rattle.pooma_domain.specs.Cells.{IsOrdered};
ghost use Rattle.pooma_script.specs.Ends.{EndsOn, IsOn, IsShort, IsWithin};
ghost use Rattle.pooma_script.specs.Views.{along, count_to, places_of, positions_in, slot_of};

use crate::conjunction::both;
use crate::view::count_to;
use pooma_domain::{Axis, BoxN, Strided, coordinates_of_cells};
use pooma_parse::RawSub;
use pooma_view::{Slot, View};

/// More numbers than an axis can have.
const TOO_MANY: u64 = 8_000_002;

fn is_on(axis: Axis, x: i64) -> bool
    ensures { IsTrue result ↔ IsOn (interval_of axis) x }
{
    if x < i64::from(axis.first) {
        return false;
    }
    x <= i64::from(axis.last)
}

fn product(a: i64, b: i64) -> i64
    requires { FitsSigned w64 (a *ℤ b) }
    ensures { result ≡ a *ℤ b }
{
    a * b
}

fn one_less(count: u64) -> i64
    requires { (0 < count) × (count < TOO_MANY) }
    ensures { result ≡ pos (count - 1) }
{
    (count - 1) as i64
}

/// The last number of a range that has so many.
fn end_of(first: i32, last: i32, stride: i32, count: u64) -> i64
    requires some { 0 < count }
    requires counted { count ≡ count_to first last stride }
    requires few { count < TOO_MANY }
    ensures { result ≡ first +ℤ stride *ℤ pos (count - 1) }
{
    i64::from(first) + product(i64::from(stride), one_less(count))
}

/// So many numbers from a first one on, at a stride.
fn along(first: i32, stride: i32, count: u32) -> Slot
    requires { IsStrided first stride count }
    ensures { result ≡ along first stride count }
{
    Slot::Along(Strided {
        first,
        stride,
        count,
    })
}

/// The slot of a range that takes a number, where its first and its last number are numbers of the axis.
fn along_on(axis: Axis, first: i32, last: i32, stride: i32) -> Option<Slot>
    requires { 0 < count_to first last stride }
    ensures found { IsSome result ↔ EndsOn (interval_of axis) (slot_of (RawSub.Range first last stride)) }
    ensures value { IfSome result (λ slot. slot ≡ slot_of (RawSub.Range first last stride)) }
{
    let count = count_to(first, last, stride);
    if count >= TOO_MANY {
        return None;
    }
    let end = end_of(first, last, stride, count);
    let inside = both(is_on(axis, i64::from(first)), is_on(axis, end));
    if !inside {
        return None;
    }
    Some(along(first, stride, count as u32))
}

/// The slot of one number, where it is one of the axis.
fn fixed_on(axis: Axis, n: i32) -> Option<Slot>
    ensures found { IsSome result ↔ EndsOn (interval_of axis) (slot_of (RawSub.At n)) }
    ensures value { IfSome result (λ slot. slot ≡ slot_of (RawSub.At n)) }
{
    if !is_on(axis, i64::from(n)) {
        return None;
    }
    Some(Slot::Fixed(n))
}

/// What a SUB that takes a number takes of an axis. None where its first or its last number is not one of the axis.
fn slot_on(axis: Axis, sub: RawSub) -> Option<Slot>
    requires { ForSome (places_of sub) IsOrdered }
    ensures found { IsSome result ↔ EndsOn (interval_of axis) (slot_of sub) }
    ensures value { IfSome result (λ slot. slot ≡ slot_of sub) }
    ensures short { IsShort sub }
{
    match sub {
        RawSub::At(n) => fixed_on(axis, n),
        RawSub::Range(first, last, stride) => along_on(axis, first, last, stride),
    }
}

/// The view by these SUBs, one for each axis of the box, of which each range has a number. None where it names a cell outside
/// of the box.
pub fn view_in(b: &BoxN, array: u32, subs: &[RawSub]) -> Option<View>
    requires some { 1 ≤ length subs.now }
    requires few { length subs.now ≤ 3 }
    requires same { length subs.now ≡ length b.now }
    requires taking { All IsOrdered (positions_in subs.now) }
    ensures found { IsSome result ↔ IsWithin b.now (map slot_of subs.now) }
    ensures value { IfSome result (λ view. view ≡ record { array = array; slots = map slot_of subs.now }) }
    ensures places { IfSome result (λ view. positions_of view.slots ≡ positions_in subs.now) }
{
    coordinates_of_cells();
    let mut slots = [Slot::Fixed(0); 3];
    for (n, sub) in subs.iter().enumerate() {
        let Some(slot) = slot_on(b.axis(n), *sub) else {
            return None;
        };
        slots[n] = slot;
    }
    let view = View::new(array, &slots[..subs.len()]);
    if !view.within(b) {
        return None;
    }
    Some(view)
}
