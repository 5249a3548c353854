//! The ranges of a view: how many numbers they take, and whether they take any.
ghost use Rattle.std.specs.Prelude.{◌≡◌, ◌↔◌, ◌≤◌, ◌<◌, ◌-ℤ◌, length, All, IfSome, IsTrue};
ghost use Rattle.std.specs.List.{filter_map};
ghost use Rattle.pooma_domain.specs.Cells.{IsOrdered};
ghost use Rattle.pooma_script.specs.Views.{count_to, places_of, places_on};

use crate::conjunction::both;
use pooma_parse::RawSub;

/// How many places there are at a step on the way from a low number up to a high one, with the low one's.
fn places_on(low: i32, high: i32, step: u32) -> u64
    requires { 0 < step }
    ensures { result ≡ places_on (high -ℤ low) step }
{
    let way = i64::from(high) - i64::from(low) + i64::from(step);
    if way < 0 {
        return 0;
    }
    way as u64 / u64::from(step)
}

/// How many numbers there are, from a first one on at a stride, that do not pass a last one. 0 where the stride is 0.
pub fn count_to(first: i32, last: i32, stride: i32) -> u64
    ensures { result ≡ count_to first last stride }
{
    if stride == 0 {
        return 0;
    }
    if stride > 0 {
        places_on(first, last, stride.unsigned_abs())
    } else {
        places_on(last, first, stride.unsigned_abs())
    }
}

/// Whether a range takes a number. What takes one number of an axis is no range.
fn takes_some(sub: RawSub) -> bool
    ensures { IsTrue result ↔ IfSome (places_of sub) IsOrdered }
{
    match sub {
        RawSub::At(_) => true,
        RawSub::Range(first, last, stride) => count_to(first, last, stride) > 0,
    }
}

/// Whether each range takes a number.
pub fn all_take_some(subs: &[RawSub]) -> bool
    ensures { IsTrue result ↔ All IsOrdered (filter_map places_of subs.now) }
{
    match subs {
        [] => true,
        [sub, others @ ..] => both(takes_some(*sub), all_take_some(others)),
    }
}

/// How many ranges there are.
pub fn ranges_in(subs: &[RawSub]) -> usize
    ensures value { result ≡ length (filter_map places_of subs.now) }
    ensures few { result ≤ length subs.now }
{
    match subs {
        [] => 0,
        [RawSub::At(_), others @ ..] => ranges_in(others),
        [RawSub::Range(..), others @ ..] => ranges_in(others) + 1,
    }
}
