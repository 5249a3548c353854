ghost use Rattle.std.specs.Prelude.{◌≡◌, ◌≢◌, ℤ, pos, ◌≤◌, ◌<◌, Some, List, length, slice_get, map, take, [], ◌∷◌, ◌⊎◌, ◌↔◌, IsTrue, IfSome};
ghost use Rattle.pooma_domain.specs.Cells.{IsBox, IsIn};
ghost use Rattle.pooma_domain.specs.Operations.{moved};

use crate::slots::Slot;
use pooma_domain::{BoxN, Cell};
use std::marker::Model;

/// Some cells of an array, named by positions: one slot for each axis of the array. The axes of
/// the positions are those of the slots that go along an axis, in order, each counted from 0.
#[derive(Clone, Copy, Debug)]
pub struct View {
    array: u32,
    dims: usize,
    x: Slot,
    y: Slot,
    z: Slot,
}

impl Model for View {
    ghost use Rattle.std.specs.Prelude.{◌≤◌, List, [], ◌∷◌, length, take, slice_index_or};
    ghost use Rattle.pooma_domain.specs.Padding.{length-padded, first-padded, second-padded, third-padded};
    ghost use Rattle.pooma_view.specs.Views.{Viewed, no_slot, IsPaddedView};

    ghost Value = { Viewed };

    ghost view = { λ v. record { array = v.array; slots = take v.dims (v.x ∷ v.y ∷ v.z ∷ []) } };

    // Slots past the view's dims are fixed at 0.
    ghost invariant = { λ v. IsPaddedView v.dims v.x v.y v.z };

    ghost inverse = { λ d. record {
      array = d.array;
      dims = length d.slots;
      x = slice_index_or d.slots 0 no_slot;
      y = slice_index_or d.slots 1 no_slot;
      z = slice_index_or d.slots 2 no_slot;
    } };

    ghost use Rattle.std.proofs.Common.{arith};

    ghost inverse_ok = { λ v h. Prim.rw (
      length-padded v.dims v.x v.y v.z h.few,
      first-padded v.dims v.x v.y v.z no_slot h.few (λ k. absurd (Prim.omega (arith, h.some, k))),
      second-padded v.dims v.x v.y v.z no_slot h.few h.no_y,
      third-padded v.dims v.x v.y v.z no_slot h.few h.no_z,
    ) };
}

impl PartialEq for View {
    ghost use Rattle.std.specs.Cmp.Lexicographic.{pointwise};
    ghost use Rattle.std.specs.Cmp.{partial_equiv_from_equiv};
    ghost use Rattle.std.specs.Prelude.{nat_eq, ◌&&◌};
    ghost use Rattle.std.proofs.lemmas.Cmp.{nat_eq_equiv, on_equiv, and_equiv, lists_equiv};
    ghost use Rattle.pooma_view.specs.contracts.slots.SlotEq.TheImpl.Laws.{laws-law};

    ghost eq = { λ a b. nat_eq a.array b.array && pointwise ⟦<Slot as PartialEq>⟧.eq a.slots b.slots };

    ghost laws = { partial_equiv_from_equiv (and_equiv (on_equiv (λ v. v.array) nat_eq_equiv) (on_equiv (λ v. v.slots) (lists_equiv laws-law))) };

    /// Whether both are views of one array by the same slots.
    fn eq(&self, other: &View) -> bool
        ensures answer { result ≡ (nat_eq self.now.array other.now.array && pointwise ⟦<Slot as PartialEq>⟧.eq self.now.slots other.now.slots) }
        ensures same { IsTrue result ↔ (self.now ≡ other.now) }
    {
        if self.array != other.array {
            return false;
        }
        if self.dims != other.dims {
            return false;
        }
        [self.x, self.y, self.z] == [other.x, other.y, other.z]
    }
}

impl View {
    ghost use Rattle.pooma_view.specs.Slots.{positions_of, cell_named, from_zero};
    ghost use Rattle.pooma_view.specs.Overlap.{NameApart, IsOverlap, AgreesAt, IsEnd};
    ghost use Rattle.pooma_view.specs.Restricted.{restricted};
    ghost use Rattle.pooma_view.specs.Rows.{IsFirstAlong};

    /// The view of this array by one to three slots.
    pub fn new(array: u32, slots: &[Slot]) -> View
        requires { (1 ≤ length slots.now) × (length slots.now ≤ 3) }
        ensures array { result.array ≡ array }
        ensures slots { result.slots ≡ slots.now }
    {
        View {
            array,
            dims: slots.len(),
            x: slots[0],
            y: slots.get(1).copied().unwrap_or(Slot::Fixed(0)),
            z: slots.get(2).copied().unwrap_or(Slot::Fixed(0)),
        }
    }

    /// The number of the array.
    pub fn array(&self) -> u32
        ensures { result ≡ self.now.array }
    {
        self.array
    }

    /// How many axes the array has.
    pub fn dims(&self) -> usize
        ensures value { result ≡ length self.now.slots }
        ensures some { 1 ≤ result }
        ensures few { result ≤ 3 }
    {
        self.dims
    }

    /// The slot for this axis of the array, counted from 0.
    pub fn slot(&self, axis: usize) -> Slot
        requires { axis < length self.now.slots }
        ensures { slice_get self.now.slots axis ≡ Some result }
    {
        [self.x, self.y, self.z][axis]
    }

    /// Whether the positions make a box, as `positions`, `position` and `overlaps` ask.
    pub fn has_positions(&self) -> bool
        ensures { IsTrue result ↔ IsBox (positions_of self.now.slots) }
    {
        let Some(x) = self.x.places() else {
            return false;
        };
        let Some(y) = self.y.places() else {
            return false;
        };
        let Some(z) = self.z.places() else {
            return false;
        };
        // The one place of a fixed slot leaves the number of positions as it is.
        BoxN::of3(x, y, z).is_some()
    }

    /// The box of positions: an axis for each slot that goes along one, counted from 0.
    pub fn positions(&self) -> BoxN
        requires { IsBox (positions_of self.now.slots) }
        ensures { result ≡ positions_of self.now.slots }
    {
        let later = self.z.with_places(&BoxN::point());
        let later = self.y.with_places(&later);
        self.x.with_places(&later)
    }

    /// The cell that the view names at a position.
    pub fn cell(&self, p: &Cell) -> Cell
        requires { IsIn (positions_of self.now.slots) p.now }
        ensures { result ≡ cell_named self.now.slots p.now }
    {
        let x = self.x.coordinate(p);
        let after_x = self.x.left_over(p);
        let y = self.y.coordinate(&after_x);
        let after_y = self.y.left_over(&after_x);
        let z = self.z.coordinate(&after_y);
        Cell::front(self.dims, [x, y, z])
    }

    /// The first slot that goes along an axis: its number, counted from 0, and its stride. Where none does, the first slot,
    /// which has one number at any stride.
    pub(crate) fn first_along(&self) -> (usize, i32)
        ensures axis { result.0 < length self.now.slots }
        ensures stride { result.1 ≢ pos 0 }
        ensures first { IsFirstAlong self.now.slots result.0 result.1 }
    {
        if let Some(stride) = self.x.stride() {
            return (0, stride);
        }
        if let Some(stride) = self.y.stride() {
            return (1, stride);
        }
        if let Some(stride) = self.z.stride() {
            return (2, stride);
        }
        (0, 1)
    }

    /// The one position that names the cell. None where no position does.
    pub fn position(&self, c: &Cell) -> Option<Cell>
        requires { IsBox (positions_of self.now.slots) }
        ensures found { IfSome result (λ p. IsIn (positions_of self.now.slots) p × (cell_named self.now.slots p ≡ c.now)) }
        ensures only_one { (p : List ℤ) → IsIn (positions_of self.now.slots) p → cell_named self.now.slots p ≡ c.now → result ≡ Some p }
    {
        if c.dims() != self.dims {
            return None;
        }
        let [x, y, z] = c.coordinates();
        let later = self.z.place_of(z, &Cell::none())?;
        let later = self.y.place_of(y, &later)?;
        self.x.place_of(x, &later)
    }

    /// Whether every cell of the view lies in the box.
    pub fn within(&self, b: &BoxN) -> bool
        ensures { IsTrue result ↔ ((p : List ℤ) → IsIn (positions_of self.now.slots) p → IsIn b.now (cell_named self.now.slots p)) }
    {
        let (first_x, last_x) = self.x.ends();
        let (first_y, last_y) = self.y.ends();
        let (first_z, last_z) = self.z.ends();
        let first = Cell::front(self.dims, [first_x, first_y, first_z]);
        let last = Cell::front(self.dims, [last_x, last_y, last_z]);
        b.contains(&first) && b.contains(&last)
    }

    /// The view of the positions that lie in the box, counted from 0 again.
    pub fn restrict(&self, b: &BoxN) -> View
        requires { (p : List ℤ) → IsIn b.now p → IsIn (positions_of self.now.slots) p }
        ensures view { result ≡ restricted self.now b.now }
        ensures array { result.array ≡ self.now.array }
        ensures positions { positions_of result.slots ≡ from_zero b.now }
        ensures cells { (p : List ℤ) → IsIn (from_zero b.now) p
            → cell_named result.slots p ≡ cell_named self.now.slots (moved p (map (λ axis. axis.first) b.now)) }
    {
        // For what they promise: both corners lie in the box, so they are positions of this view.
        let _least = b.least();
        let _greatest = b.greatest();
        let after_x = self.x.later_places(b);
        let after_y = self.y.later_places(&after_x);
        View {
            array: self.array,
            dims: self.dims,
            x: self.x.restrict(b),
            y: self.y.restrict(&after_x),
            z: self.z.restrict(&after_y),
        }
    }

    // Whether both views name the cell of these coordinates at one position, if they name it.
    fn agrees_at(&self, target: &View, x: i32, y: i32, z: i32) -> bool
        requires valid { IsBox (positions_of self.now.slots) × IsBox (positions_of target.now.slots) }
        ensures same { IsTrue result → AgreesAt self.now.slots target.now.slots (take (length self.now.slots) (x ∷ y ∷ z ∷ [])) }
        ensures apart { IsTrue result ⊎ NameApart self.now.slots target.now.slots }
    {
        let c = Cell::front(self.dims, [x, y, z]);
        let Some(p) = self.position(&c) else {
            return true;
        };
        let Some(q) = target.position(&c) else {
            return true;
        };
        p == q
    }

    // The same at both ends of the third axis.
    fn agrees_along_z(&self, target: &View, x: i32, y: i32, z: (i32, i32)) -> bool
        requires valid { IsBox (positions_of self.now.slots) × IsBox (positions_of target.now.slots) }
        ensures same { IsTrue result → (c : ℤ) → IsEnd z.0 z.1 c → AgreesAt self.now.slots target.now.slots (take (length self.now.slots) (x ∷ y ∷ c ∷ [])) }
        ensures apart { IsTrue result ⊎ NameApart self.now.slots target.now.slots }
    {
        self.agrees_at(target, x, y, z.0) && self.agrees_at(target, x, y, z.1)
    }

    // The same at both ends of the second and third axis.
    fn agrees_along_y(&self, target: &View, x: i32, y: (i32, i32), z: (i32, i32)) -> bool
        requires valid { IsBox (positions_of self.now.slots) × IsBox (positions_of target.now.slots) }
        ensures same { IsTrue result → (b c : ℤ) → IsEnd y.0 y.1 b → IsEnd z.0 z.1 c → AgreesAt self.now.slots target.now.slots (take (length self.now.slots) (x ∷ b ∷ c ∷ [])) }
        ensures apart { IsTrue result ⊎ NameApart self.now.slots target.now.slots }
    {
        self.agrees_along_z(target, x, y.0, z) && self.agrees_along_z(target, x, y.1, z)
    }

    // The same at all corners.
    fn agrees_along_x(&self, target: &View, x: (i32, i32), y: (i32, i32), z: (i32, i32)) -> bool
        requires valid { IsBox (positions_of self.now.slots) × IsBox (positions_of target.now.slots) }
        ensures same { IsTrue result → (a b c : ℤ) → IsEnd x.0 x.1 a → IsEnd y.0 y.1 b → IsEnd z.0 z.1 c → AgreesAt self.now.slots target.now.slots (take (length self.now.slots) (a ∷ b ∷ c ∷ [])) }
        ensures apart { IsTrue result ⊎ NameApart self.now.slots target.now.slots }
    {
        self.agrees_along_y(target, x.0, y, z) && self.agrees_along_y(target, x.1, y, z)
    }

    /// Whether both views are of the same array, and two different positions, one of each, name the
    /// same cell. It takes a bounded number of steps: what the slots share on an axis ascends by equal
    /// steps, and where the positions agree at the first and the last of these numbers, they agree
    /// at all, so the corners of the shared cells tell.
    pub fn overlaps(&self, target: &View) -> bool
        requires valid { IsBox (positions_of self.now.slots) × IsBox (positions_of target.now.slots) }
        ensures { IsTrue result ↔ IsOverlap self.now target.now }
    {
        if self.array != target.array || self.dims != target.dims {
            return false;
        }
        let Some(on_x) = self.x.common_ends(target.x) else {
            return false;
        };
        let Some(on_y) = self.y.common_ends(target.y) else {
            return false;
        };
        let Some(on_z) = self.z.common_ends(target.z) else {
            return false;
        };
        !self.agrees_along_x(target, on_x, on_y, on_z)
    }
}
