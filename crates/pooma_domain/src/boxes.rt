ghost use Rattle.std.specs.Prelude.{◌≡◌, ◌↔◌, ℕ, ◌*◌, ◌+◌, ◌^◌, ◌<◌, ◌≤◌, ℤ, pos, ◌+ℤ◌, ◌-ℤ◌, ◌≤ℤ◌, ◌<ℤ◌, Option, Some, List, [], ◌∷◌, length, map, drop, slice_get, slice_set, All, IsTrue, IsSome, IfSome};
ghost use Rattle.std.specs.Int.{int_max, int_min};
ghost use Rattle.std.specs.Option.{ForSome};
ghost use Rattle.pooma_domain.specs.Axes.{interval_of};
ghost use Rattle.pooma_domain.specs.Cells.{interval, axis_length, cells_of, IsAxis, IsBox, IsIn};
ghost use Rattle.pooma_domain.specs.Neighbours.{axis_stride};
ghost use Rattle.pooma_domain.specs.Operations.{common_axes, shifted, shifted_axis, reach, reaches, grown, grown_axis, HaveCommonCell, IsMeeting, IsShifted, IsGrown, IsPart};

use crate::axes::Axis;
use crate::cells::Cell;
use std::marker::Model;

/// An axis as a box keeps it.
#[derive(Clone, Copy, Debug)]
struct Span {
    first: i32,
    last: i32,
}

impl Span {
    // What stands for an axis that the box does not have: it has one number, as a factor 1.
    const NONE: Span = Span { first: 0, last: 0 };

    fn of(axis: Axis) -> Span
        ensures first { result.first ≡ axis.first }
        ensures last { result.last ≡ axis.last }
        ensures valid { IsAxis (interval_of axis) }
    {
        Span {
            first: axis.first,
            last: axis.last,
        }
    }

    fn axis(self) -> Axis
        requires { IsAxis (interval self.first self.last) }
        ensures { interval_of result ≡ interval self.first self.last }
    {
        Axis {
            first: self.first,
            last: self.last,
        }
    }

    fn len(self) -> u64
        requires { IsAxis (interval self.first self.last) }
        ensures value { result ≡ axis_length (interval self.first self.last) }
        ensures some { 0 < result }
        ensures few { result ≤ 8000001 }
    {
        (i64::from(self.last) - i64::from(self.first) + 1) as u64
    }

    // The number that stands so many places after the first one.
    fn at(self, k: u64) -> i32
        requires valid { IsAxis (interval self.first self.last) }
        requires within { k < axis_length (interval self.first self.last) }
        ensures { result ≡ self.first +ℤ pos k }
    {
        (i64::from(self.first) + k as i64) as i32
    }

    // How many places after the first one the number stands.
    fn offset(self, x: i32) -> u64
        requires { (self.first ≤ℤ x) × (x ≤ℤ self.last) }
        ensures { pos result ≡ x -ℤ self.first }
    {
        (i64::from(x) - i64::from(self.first)) as u64
    }

    // The numbers that are on both.
    fn meet(self, other: Span) -> Option<Span>
        ensures found { IsSome result ↔ (int_max self.first other.first ≤ℤ int_min self.last other.last) }
        ensures first { IfSome result (λ both. both.first ≡ int_max self.first other.first) }
        ensures last { IfSome result (λ both. both.last ≡ int_min self.last other.last) }
    {
        let first = self.first.max(other.first);
        let last = self.last.min(other.last);
        if first <= last {
            Some(Span { first, last })
        } else {
            None
        }
    }

    fn shift(self, by: i32) -> Span
        requires { IsAxis (shifted_axis (interval self.first self.last) by) }
        ensures first { result.first ≡ self.first +ℤ by }
        ensures last { result.last ≡ self.last +ℤ by }
    {
        Span {
            first: self.first + by,
            last: self.last + by,
        }
    }

    fn grow(self, low: i32, high: i32) -> Span
        requires { IsAxis (grown_axis (interval self.first self.last) (reach low high)) }
        ensures first { result.first ≡ self.first -ℤ low }
        ensures last { result.last ≡ self.last +ℤ high }
    {
        Span {
            first: self.first - low,
            last: self.last + high,
        }
    }

    fn holds(self, x: i32) -> bool
        ensures { IsTrue result ↔ ((self.first ≤ℤ x) × (x ≤ℤ self.last)) }
    {
        self.first <= x && x <= self.last
    }
}

/// A box of 0 to 3 axes: the set of the cells that have a coordinate of each axis. Their number
/// fits `i64`. A box of no axes has one cell, that of no coordinates.
///
/// The cells are in an order in which the first coordinate changes fastest.
#[derive(Clone, Copy, Debug)]
pub struct BoxN {
    x: Span,
    y: Span,
    z: Span,
    dims: usize,
}

impl Model for BoxN {
    ghost use Rattle.std.specs.Prelude.{List, [], ◌∷◌, length, take, slice_index_or};
    ghost use Rattle.pooma_domain.specs.Cells.{Interval, interval};

    ghost Value = { List Interval };

    ghost use Rattle.pooma_domain.specs.Padding.{no_axis, IsPaddedBox, length-padded, first-padded, second-padded, third-padded};

    ghost view = { λ b. take b.dims (interval b.x.first b.x.last ∷ interval b.y.first b.y.last ∷ interval b.z.first b.z.last ∷ []) };

    // Axes past the box's dims are 0:0.
    ghost invariant = { λ b. IsPaddedBox b.dims (interval b.x.first b.x.last) (interval b.y.first b.y.last) (interval b.z.first b.z.last) };

    ghost inverse = { λ axes. record {
      dims = length axes;
      x = record { first = (slice_index_or axes 0 no_axis).first; last = (slice_index_or axes 0 no_axis).last };
      y = record { first = (slice_index_or axes 1 no_axis).first; last = (slice_index_or axes 1 no_axis).last };
      z = record { first = (slice_index_or axes 2 no_axis).first; last = (slice_index_or axes 2 no_axis).last };
    } };

    ghost inverse_ok = { λ b h. let x : Interval = interval b.x.first b.x.last in
        let y : Interval = interval b.y.first b.y.last in
        let z : Interval = interval b.z.first b.z.last in
        Prim.rw (
          length-padded b.dims x y z h.few,
          first-padded b.dims x y z no_axis h.few h.no_x,
          second-padded b.dims x y z no_axis h.few h.no_y,
          third-padded b.dims x y z no_axis h.few h.no_z,
        ) };
}

impl PartialEq for BoxN {
    ghost use Rattle.std.specs.Cmp.Lexicographic.{pointwise};
    ghost use Rattle.std.specs.Cmp.{partial_equiv_from_equiv};
    ghost use Rattle.std.proofs.lemmas.Cmp.{int_eq_equiv, on_equiv, and_equiv, lists_equiv};
    ghost use Rattle.pooma_domain.specs.Cells.{interval_eq};

    ghost eq = { pointwise interval_eq };

    ghost laws = { partial_equiv_from_equiv (lists_equiv (and_equiv (on_equiv (λ a. a.first) int_eq_equiv) (on_equiv (λ a. a.last) int_eq_equiv))) };

    /// Whether both have the same axes, and so the same cells.
    fn eq(&self, other: &BoxN) -> bool
        ensures answer { result ≡ pointwise interval_eq self.now other.now }
        ensures same { IsTrue result ↔ (self.now ≡ other.now) }
    {
        self.least() == other.least() && self.greatest() == other.greatest()
    }
}

impl Eq for BoxN {
    ghost use Rattle.std.proofs.lemmas.Cmp.{int_eq_equiv, on_equiv, and_equiv, lists_equiv};

    ghost laws = { lists_equiv (and_equiv (on_equiv (λ a. a.first) int_eq_equiv) (on_equiv (λ a. a.last) int_eq_equiv)) };
}

impl BoxN {
    /// The box of this one axis.
    pub fn of1(a: Axis) -> BoxN
        ensures axes { result ≡ interval_of a ∷ [] }
        ensures valid { IsBox result }
    {
        BoxN {
            dims: 1,
            x: Span::of(a),
            y: Span::NONE,
            z: Span::NONE,
        }
    }

    /// The box of no axes: it has one cell, that of no coordinates.
    pub fn point() -> BoxN
        ensures axes { result ≡ [] }
        ensures valid { IsBox result }
    {
        BoxN {
            dims: 0,
            x: Span::NONE,
            y: Span::NONE,
            z: Span::NONE,
        }
    }

    /// The box of these two axes.
    pub fn of2(a: Axis, b: Axis) -> BoxN
        ensures axes { result ≡ interval_of a ∷ interval_of b ∷ [] }
        ensures valid { IsBox result }
    {
        BoxN {
            dims: 2,
            x: Span::of(a),
            y: Span::of(b),
            z: Span::NONE,
        }
    }

    /// The box of these three axes. None exactly where its number of cells does not fit `i64`.
    pub fn of3(a: Axis, b: Axis, c: Axis) -> Option<BoxN>
        ensures found { IsSome result ↔ IsBox (interval_of a ∷ interval_of b ∷ interval_of c ∷ []) }
        ensures axes { IfSome result (λ made. made ≡ interval_of a ∷ interval_of b ∷ interval_of c ∷ []) }
    {
        let x = Span::of(a);
        let y = Span::of(b);
        let z = Span::of(c);
        let layer = x.len() * y.len();
        if z.len() <= i64::MAX as u64 / layer {
            Some(BoxN { dims: 3, x, y, z })
        } else {
            None
        }
    }

    /// The box with one more axis, before the others.
    pub fn after(&self, first: Axis) -> BoxN
        requires { IsBox (interval_of first ∷ self.now) }
        ensures { result ≡ interval_of first ∷ self.now }
    {
        BoxN {
            dims: self.dims + 1,
            x: Span::of(first),
            y: self.x,
            z: self.y,
        }
    }

    /// The box without its first axis.
    pub fn rest(&self) -> BoxN
        requires { 0 < length self.now }
        ensures { result ≡ drop 1 self.now }
    {
        BoxN {
            dims: self.dims - 1,
            x: self.y,
            y: self.z,
            z: Span::NONE,
        }
    }

    /// How many axes the box has.
    pub fn dims(&self) -> usize
        ensures value { result ≡ length self.now }
        ensures valid { IsBox self.now }
    {
        self.dims
    }

    /// The axis with this number, counted from 0.
    pub fn axis(&self, n: usize) -> Axis
        requires { n < length self.now }
        ensures { slice_get self.now n ≡ Some (interval_of result) }
    {
        match n {
            0 => self.x.axis(),
            1 => self.y.axis(),
            _ => self.z.axis(),
        }
    }

    /// How many cells the box has.
    pub fn count(&self) -> u64
        ensures value { result ≡ length (cells_of self.now) }
        ensures some { 0 < result }
        ensures few { result < 2 ^ 63 }
    {
        self.x.len() * self.y.len() * self.z.len()
    }

    /// The cell with the least number of each axis.
    pub fn least(&self) -> Cell
        ensures value { result ≡ map (λ axis. axis.first) self.now }
        ensures inside { IsIn self.now result }
    {
        Cell {
            dims: self.dims,
            x: self.x.first,
            y: self.y.first,
            z: self.z.first,
        }
    }

    /// The cell with the greatest number of each axis.
    pub fn greatest(&self) -> Cell
        ensures value { result ≡ map (λ axis. axis.last) self.now }
        ensures inside { IsIn self.now result }
    {
        Cell {
            dims: self.dims,
            x: self.x.last,
            y: self.y.last,
            z: self.z.last,
        }
    }

    /// Whether the cell lies in the box. A cell of another number of coordinates does not.
    pub fn contains(&self, c: &Cell) -> bool
        ensures { IsTrue result ↔ IsIn self.now c.now }
    {
        self.dims == c.dims && self.x.holds(c.x) && self.y.holds(c.y) && self.z.holds(c.z)
    }

    /// The cell at this place of the box's order, counted from 0: the first coordinate changes
    /// fastest. `place_of` undoes it.
    pub fn cell_at(&self, k: u64) -> Cell
        requires { k < length (cells_of self.now) }
        ensures stands { slice_get (cells_of self.now) k ≡ Some result }
        ensures inside { IsIn self.now result }
        ensures only_there { (j : ℕ) → slice_get (cells_of self.now) j ≡ Some result → j ≡ k }
    {
        let width = self.x.len();
        let height = self.y.len();
        let rounds = k / width;
        Cell {
            dims: self.dims,
            x: self.x.at(k % width),
            y: self.y.at(rounds % height),
            z: self.z.at(rounds / height),
        }
    }

    /// The place of the cell in the box's order, counted from 0. `cell_at` undoes it.
    pub fn place_of(&self, c: &Cell) -> u64
        requires { IsIn self.now c.now }
        ensures stands { slice_get (cells_of self.now) result ≡ Some c.now }
        ensures below { result < length (cells_of self.now) }
        ensures only_there { (j : ℕ) → slice_get (cells_of self.now) j ≡ Some c.now → j ≡ result }
    {
        let rounds = self.y.offset(c.y) + self.y.len() * self.z.offset(c.z);
        self.x.offset(c.x) + self.x.len() * rounds
    }

    /// The stride of the axis with this number, counted from 0: how many places lie from each cell to its next one along it.
    pub fn stride(&self, n: usize) -> u64
        requires { n < length self.now }
        ensures value { result ≡ axis_stride self.now n }
        ensures few { result < 2 ^ 63 }
    {
        match n {
            0 => 1,
            1 => self.x.len(),
            _ => self.x.len() * self.y.len(),
        }
    }

    /// The common cells. None exactly where there are none.
    pub fn meet(&self, other: &BoxN) -> Option<BoxN>
        requires { length self.now ≡ length other.now }
        ensures found { IsSome result ↔ HaveCommonCell self.now other.now }
        ensures cells { IfSome result (IsMeeting self.now other.now) }
        ensures axes { IfSome result (λ both. both ≡ common_axes self.now other.now) }
    {
        let x = self.x.meet(other.x)?;
        let y = self.y.meet(other.y)?;
        let z = self.z.meet(other.z)?;
        Some(BoxN {
            dims: self.dims,
            x,
            y,
            z,
        })
    }

    /// The box with each cell moved by `by`.
    pub fn shift(&self, by: &Cell) -> BoxN
        requires same_dims { length self.now ≡ length by.now }
        requires valid { IsBox (shifted self.now by.now) }
        ensures cells { IsShifted self.now by.now result }
        ensures axes { result ≡ shifted self.now by.now }
    {
        BoxN {
            dims: self.dims,
            x: self.x.shift(by.x),
            y: self.y.shift(by.y),
            z: self.z.shift(by.z),
        }
    }

    /// The box with `low` more numbers below and `high` more numbers above on each axis.
    pub fn grow(&self, low: &Cell, high: &Cell) -> BoxN
        requires same_dims { (length self.now ≡ length low.now) × (length self.now ≡ length high.now) }
        requires down { All (λ l. pos 0 ≤ℤ l) low.now }
        requires up { All (λ h. pos 0 ≤ℤ h) high.now }
        requires valid { IsBox (grown self.now (reaches low.now high.now)) }
        ensures cells { IsGrown self.now (reaches low.now high.now) result }
        ensures axes { result ≡ grown self.now (reaches low.now high.now) }
    {
        BoxN {
            dims: self.dims,
            x: self.x.grow(low.x, high.x),
            y: self.y.grow(low.y, high.y),
            z: self.z.grow(low.z, high.z),
        }
    }

    // The box with this axis, which has no other numbers than the old one, in its place.
    fn narrowed(&self, n: usize, axis: Axis) -> BoxN
        requires there { n < length self.now }
        requires within { ForSome (slice_get self.now n) (λ old. (old.first ≤ℤ axis.first) × (axis.last ≤ℤ old.last)) }
        ensures { result ≡ slice_set self.now n (interval_of axis) }
    {
        let span = Span::of(axis);
        match n {
            0 => BoxN { x: span, ..*self },
            1 => BoxN { y: span, ..*self },
            _ => BoxN { z: span, ..*self },
        }
    }

    /// The cells below `at` on this axis, counted from 0, and the others.
    pub fn cut(&self, axis: usize, at: i32) -> (BoxN, BoxN)
        requires there { axis < length self.now }
        requires between { ForSome (slice_get self.now axis) (λ whole. (whole.first <ℤ at) × (at ≤ℤ whole.last)) }
        ensures lower_cells { IsPart self.now axis (λ x. x <ℤ at) result.0 }
        ensures upper_cells { IsPart self.now axis (λ x. at ≤ℤ x) result.1 }
        ensures lower_axes { ForSome (slice_get self.now axis) (λ whole. result.0 ≡ slice_set self.now axis (interval whole.first (at -ℤ pos 1))) }
        ensures upper_axes { ForSome (slice_get self.now axis) (λ whole. result.1 ≡ slice_set self.now axis (interval at whole.last)) }
    {
        let whole = self.axis(axis);
        let below = Axis {
            first: whole.first,
            last: at - 1,
        };
        let above = Axis {
            first: at,
            last: whole.last,
        };
        (self.narrowed(axis, below), self.narrowed(axis, above))
    }
}
