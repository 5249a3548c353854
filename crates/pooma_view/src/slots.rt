ghost use Rattle.std.specs.Prelude.{◌≡◌, ◌≢◌, ◌<◌, ℤ, pos, Some, List, length, ◌↔◌, ◌≤ℤ◌, IsSome, IfSome, IsSomeAnd};
ghost use Rattle.pooma_domain.specs.Axes.{interval_of};
ghost use Rattle.pooma_domain.specs.Cells.{IsAxis, IsBox};

use crate::common::common_ends;
use pooma_domain::{Axis, BoxN, Cell, Strided};

/// What a view says of one axis of its array.
#[derive(Clone, Copy, Debug, PartialEq, Eq)]
pub enum Slot {
    /// Each cell of the view has this coordinate.
    Fixed(i32),

    /// The cells of the view have these coordinates, one for each place on an axis of positions.
    Along(Strided),
}

impl Slot {
    ghost use Rattle.pooma_view.specs.Common.{NamesNumber};
    ghost use Rattle.pooma_view.specs.Rows.{stride_of};
    ghost use Rattle.pooma_view.specs.Steps.{IsStriding};
    ghost use Rattle.pooma_view.specs.Slots.{places_of, with_places, coordinate, left_over, first_named, last_named, Accepts, HasPlaces, IsWithinPlaces, IsRestricted};

    /// The places as an axis: a fixed slot has one place. None where they are more than an axis
    /// may have.
    pub(crate) fn places(self) -> Option<Axis>
        ensures found { IsSome result ↔ IsAxis (places_of self) }
        ensures value { IfSome result (λ axis. interval_of axis ≡ places_of self) }
    {
        match self {
            Slot::Fixed(_) => Axis::of(0, 0),
            Slot::Along(numbers) => {
                let last = i32::try_from(numbers.count - 1).ok()?;
                Axis::of(0, last)
            }
        }
    }

    /// The box of positions, where that of the later slots is known.
    pub(crate) fn with_places(self, later: &BoxN) -> BoxN
        requires { IsBox (with_places self later.now) }
        ensures { result ≡ with_places self later.now }
    {
        match self {
            Slot::Fixed(_) => *later,
            Slot::Along(numbers) => later.after(Axis {
                first: 0,
                last: (numbers.count - 1) as i32,
            }),
        }
    }

    /// The coordinate at a position, of which these numbers are left.
    pub(crate) fn coordinate(self, position: &Cell) -> i32
        requires { Accepts self position.now }
        ensures { result ≡ coordinate self position.now }
    {
        match self {
            Slot::Fixed(x) => x,
            Slot::Along(numbers) => numbers.at(position.at(0) as u32),
        }
    }

    /// The numbers of the position that are left for the later slots.
    pub(crate) fn left_over(self, position: &Cell) -> Cell
        requires { Accepts self position.now }
        ensures { result ≡ left_over self position.now }
    {
        match self {
            Slot::Fixed(_) => *position,
            Slot::Along(_) => position.rest(),
        }
    }

    /// The numbers of the one position that names this coordinate, where those of the later slots
    /// are known.
    pub(crate) fn place_of(self, x: i32, later: &Cell) -> Option<Cell>
        requires few { length later.now < 3 }
        requires fits { HasPlaces self }
        ensures found { IfSome result (λ p. Accepts self p × (coordinate self p ≡ x) × (left_over self p ≡ later.now)) }
        ensures only_one { (p : List ℤ) → Accepts self p → coordinate self p ≡ x → left_over self p ≡ later.now → result ≡ Some p }
    {
        match self {
            Slot::Fixed(here) => { if here == x { Some(*later) } else { None } }
            Slot::Along(numbers) => {
                let place = numbers.place_of(x)?;
                Some(later.after(place as i32))
            }
        }
    }

    /// The coordinates at the first and at the last place.
    pub(crate) fn ends(self) -> (i32, i32)
        ensures first { result.0 ≡ first_named self }
        ensures last { result.1 ≡ last_named self }
    {
        match self {
            Slot::Fixed(x) => (x, x),
            Slot::Along(numbers) => (numbers.first, numbers.at(numbers.count - 1)),
        }
    }

    /// From each of the numbers to the next. None where the slot is fixed.
    pub(crate) fn stride(self) -> Option<i32>
        ensures value { result ≡ stride_of self }
        ensures moves { IfSome result (λ stride. stride ≢ pos 0) }
    {
        match self {
            Slot::Fixed(_) => None,
            Slot::Along(numbers) => Some(numbers.stride),
        }
    }

    /// The slot at the places of the first axis of this box of positions, counted from 0 again.
    pub(crate) fn restrict(self, places: &BoxN) -> Slot
        requires { IsWithinPlaces self places.now }
        ensures { IsRestricted self result places.now }
    {
        match self {
            Slot::Fixed(_) => self,
            Slot::Along(numbers) => {
                let axis = places.axis(0);
                let count = (axis.last - axis.first + 1) as u32;
                Slot::Along(numbers.part(axis.first as u32, count))
            }
        }
    }

    /// The axes of a box of positions that are left for the later slots.
    pub(crate) fn later_places(self, places: &BoxN) -> BoxN
        requires { IsWithinPlaces self places.now }
        ensures { result ≡ left_over self places.now }
    {
        match self {
            Slot::Fixed(_) => *places,
            Slot::Along(_) => places.rest(),
        }
    }

    // The coordinates that the slot names. A fixed slot's is one number, at any stride.
    fn numbers(self) -> Strided
        ensures { (z : ℤ) → IsStriding result.first result.stride result.count z ↔ NamesNumber self z }
    {
        match self {
            Slot::Fixed(x) => Strided {
                first: x,
                stride: 1,
                count: 1,
            },
            Slot::Along(numbers) => numbers,
        }
    }

    /// The least and the greatest coordinate that both slots name.
    pub(crate) fn common_ends(self, other: Slot) -> Option<(i32, i32)>
        ensures least { IfSome result (λ ends. NamesNumber self ends.0 × NamesNumber other ends.0) }
        ensures greatest { IfSome result (λ ends. NamesNumber self ends.1 × NamesNumber other ends.1) }
        ensures between { (z : ℤ) → NamesNumber self z → NamesNumber other z → IsSomeAnd result (λ ends. (ends.0 ≤ℤ z) × (z ≤ℤ ends.1)) }
    {
        common_ends(self.numbers(), other.numbers())
    }
}
