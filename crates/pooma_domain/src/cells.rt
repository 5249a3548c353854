ghost use Rattle.std.specs.Prelude.{pos, ◌++◌, ◌≡◌, ◌↔◌, ◌<◌, ◌≤◌, Some, [], ◌∷◌, length, take, drop, slice_get, IsTrue};

use std::marker::Model;

/// A cell: a list of 0 to 3 coordinates, one for each axis of the boxes that it may lie in.
#[derive(Clone, Copy, Debug)]
pub struct Cell {
    pub(crate) x: i32,
    pub(crate) y: i32,
    pub(crate) z: i32,
    pub(crate) dims: usize,
}

impl Model for Cell {
    ghost use Rattle.std.specs.Prelude.{ℤ, pos, List, [], ◌∷◌, length, slice_index_or, take};

    ghost Value = { List ℤ };

    ghost use Rattle.pooma_domain.specs.Padding.{IsPaddedCell, length-padded, first-padded, second-padded, third-padded};

    ghost view = { λ c. take c.dims (c.x ∷ c.y ∷ c.z ∷ []) };

    // Coordinates past the cell's dims are 0.
    ghost invariant = { λ c. IsPaddedCell c.dims c.x c.y c.z };

    ghost inverse = { λ xs. record {
      dims = length xs;
      x = slice_index_or xs 0 (pos 0);
      y = slice_index_or xs 1 (pos 0);
      z = slice_index_or xs 2 (pos 0);
    } };

    ghost inverse_ok = { λ c h. Prim.rw (
      length-padded c.dims c.x c.y c.z h.few,
      first-padded c.dims c.x c.y c.z (pos 0) h.few h.no_x,
      second-padded c.dims c.x c.y c.z (pos 0) h.few h.no_y,
      third-padded c.dims c.x c.y c.z (pos 0) h.few h.no_z,
    ) };
}

impl PartialEq for Cell {
    ghost use Rattle.std.specs.Cmp.Lexicographic.{pointwise};
    ghost use Rattle.std.specs.Ordering.{int_eq};
    ghost use Rattle.std.proofs.lemmas.Cmp.{int_eq_equiv, lists_equiv};
    ghost use Rattle.std.specs.Cmp.{partial_equiv_from_equiv};

    ghost eq = { pointwise int_eq };

    ghost laws = { partial_equiv_from_equiv (lists_equiv int_eq_equiv) };

    /// Whether both have the same coordinates.
    fn eq(&self, other: &Cell) -> bool
        ensures answer { result ≡ pointwise int_eq self.now other.now }
        ensures same { IsTrue result ↔ (self.now ≡ other.now) }
    {
        self.dims == other.dims && self.x == other.x && self.y == other.y && self.z == other.z
    }
}

impl Eq for Cell {
    ghost use Rattle.std.proofs.lemmas.Cmp.{int_eq_equiv, lists_equiv};

    ghost laws = { lists_equiv int_eq_equiv };
}

impl Cell {
    /// The cell of no coordinates.
    pub fn none() -> Cell
        ensures { result ≡ [] }
    {
        Cell {
            dims: 0,
            x: 0,
            y: 0,
            z: 0,
        }
    }

    /// The cell of one coordinate.
    pub fn of1(a: i32) -> Cell
        ensures { result ≡ a ∷ [] }
    {
        Cell {
            dims: 1,
            x: a,
            y: 0,
            z: 0,
        }
    }

    /// The cell of two coordinates.
    pub fn of2(a: i32, b: i32) -> Cell
        ensures { result ≡ a ∷ b ∷ [] }
    {
        Cell {
            dims: 2,
            x: a,
            y: b,
            z: 0,
        }
    }

    /// The cell of three coordinates.
    pub fn of3(a: i32, b: i32, c: i32) -> Cell
        ensures { result ≡ a ∷ b ∷ c ∷ [] }
    {
        Cell {
            dims: 3,
            x: a,
            y: b,
            z: c,
        }
    }

    /// How many coordinates the cell has.
    pub fn dims(&self) -> usize
        ensures value { result ≡ length self.now }
        ensures few { result ≤ 3 }
    {
        self.dims
    }

    /// The coordinate on this axis, counted from 0.
    pub fn at(&self, axis: usize) -> i32
        requires { axis < length self.now }
        ensures { slice_get self.now axis ≡ Some result }
    {
        [self.x, self.y, self.z][axis]
    }

    /// The cell of so many of these three coordinates, from the first one on.
    pub fn front(dims: usize, coordinates: [i32; 3]) -> Cell
        requires { dims ≤ 3 }
        ensures { result ≡ take dims coordinates }
    {
        Cell {
            dims,
            x: if dims > 0 { coordinates[0] } else { 0 },
            y: if dims > 1 { coordinates[1] } else { 0 },
            z: if dims > 2 { coordinates[2] } else { 0 },
        }
    }

    /// The cell with one more coordinate, before the others.
    pub fn after(&self, first: i32) -> Cell
        requires { length self.now < 3 }
        ensures { result ≡ first ∷ self.now }
    {
        Cell {
            dims: self.dims + 1,
            x: first,
            y: self.x,
            z: self.y,
        }
    }

    /// The cell without its first coordinate.
    pub fn rest(&self) -> Cell
        requires { 0 < length self.now }
        ensures { result ≡ drop 1 self.now }
    {
        Cell {
            dims: self.dims - 1,
            x: self.y,
            y: self.z,
            z: 0,
        }
    }

    /// The three coordinates, where those that the cell does not have are 0.
    pub fn coordinates(&self) -> [i32; 3]
        ensures { result ≡ take 3 (self.now ++ pos 0 ∷ pos 0 ∷ pos 0 ∷ []) }
    {
        [self.x, self.y, self.z]
    }
}
