ghost use Rattle.std.specs.Prelude.{◌≡◌, ◌↔◌, ℕ, ◌*◌, ◌+◌, ◌<◌, ℤ, pos, ◌+ℤ◌, ◌*ℤ◌, Some, List, ◌∷◌, length, slice_get, AllPairs, Contains};
ghost use Rattle.pooma_domain.specs.Cells.{Interval, axis_length, cells_of, IsBefore, IsIn};
ghost use Rattle.pooma_domain.specs.Neighbours.{axis_stride, moved_along};

/// The order of a box's cells, as a law for proofs: the list of its cells has exactly those that
/// lie in it, each once, and ascends strictly. Their number is the product of the axes' lengths.
pub fn order_of_cells()
    ensures counted { (axis : Interval) (axes : List Interval) → length (cells_of (axis ∷ axes))
        ≡ axis_length axis * length (cells_of axes) }
    ensures members { (axes : List Interval) (cell : List ℤ) → Contains (cells_of axes) cell ↔ IsIn axes cell }
    ensures once { (axes : List Interval) (cell : List ℤ) (j k : ℕ) → slice_get (cells_of axes) j ≡ Some cell
        → slice_get (cells_of axes) k ≡ Some cell → j ≡ k }
    ensures ascending { (axes : List Interval) → AllPairs IsBefore (cells_of axes) }
{}

/// The neighbours of a cell along an axis, as a law for proofs: where both cells lie in the box, the place of the one that lies
/// so far along the axis, forwards or backwards, is so many times the axis's stride from the place of the other. So along the
/// first axis the next cell has the next place.
pub fn neighbours_in_order()
    ensures steps { (axes : List Interval) (n : ℕ) (by : ℤ) (cell : List ℤ) (j k : ℕ) → n < length axes
        → slice_get (cells_of axes) j ≡ Some cell → slice_get (cells_of axes) k ≡ Some (moved_along n by cell)
        → pos k ≡ pos j +ℤ by *ℤ pos (axis_stride axes n) }
    ensures next { (axes : List Interval) (cell : List ℤ) (k : ℕ) → IsIn axes (moved_along 0 (pos 1) cell)
        → slice_get (cells_of axes) k ≡ Some cell → 0 < length axes
        → slice_get (cells_of axes) (k + 1) ≡ Some (moved_along 0 (pos 1) cell) }
    ensures inside { (axes : List Interval) (n : ℕ) (by : ℤ) (cell : List ℤ) (j k : ℕ) → n < length axes
        → slice_get (cells_of axes) j ≡ Some cell → IsIn axes (moved_along n by cell)
        → pos k ≡ pos j +ℤ by *ℤ pos (axis_stride axes n)
        → slice_get (cells_of axes) k ≡ Some (moved_along n by cell) }
{}
