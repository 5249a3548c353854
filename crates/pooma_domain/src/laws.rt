ghost use Rattle.std.specs.Prelude.{◌≡◌, ℕ, ℤ, pos, ◌-ℤ◌, ◌≤ℤ◌, ◌<ℤ◌, Some, List, length, map, slice_get, slice_set, All};
ghost use Rattle.pooma_domain.specs.Cells.{Interval, interval, IsBox, IsIn, IsOrdered};
ghost use Rattle.pooma_domain.specs.Operations.{common_axes, shifted, reaches, grown, IsMeeting, IsShifted, IsGrown, IsPart};

/// The coordinates of a box's cells, as a law for proofs: each cell has as many as the box has axes, the one on each axis
/// lies on it, and any such coordinates are a cell.
pub fn coordinates_of_cells()
    ensures length { (axes : List Interval) (cell : List ℤ) → IsIn axes cell → length cell ≡ length axes }
    ensures on_axis { (axes : List Interval) (cell : List ℤ) (n : ℕ) (axis : Interval) (x : ℤ) → IsIn axes cell
        → slice_get axes n ≡ Some axis → slice_get cell n ≡ Some x → (axis.first ≤ℤ x) × (x ≤ℤ axis.last) }
    ensures together { (axes : List Interval) (cell : List ℤ) → length cell ≡ length axes
        → ((n : ℕ) (axis : Interval) (x : ℤ) → slice_get axes n ≡ Some axis → slice_get cell n ≡ Some x
        → (axis.first ≤ℤ x) × (x ≤ℤ axis.last))
        → IsIn axes cell }
{}

/// A box within a box, as a law for proofs: where its least and its greatest cell lie in the other one, all its cells do,
/// and it keeps what a box promises.
pub fn boxes_within_boxes()
    ensures cells { (inner outer : List Interval) (cell : List ℤ) → IsIn outer (map (λ axis. axis.first) inner)
        → IsIn outer (map (λ axis. axis.last) inner) → IsIn inner cell → IsIn outer cell }
    ensures valid { (inner outer : List Interval) → IsBox outer → All IsOrdered inner
        → IsIn outer (map (λ axis. axis.first) inner) → IsIn outer (map (λ axis. axis.last) inner) → IsBox inner }
{}

/// What is made of boxes, as a law for proofs: each operation on lists of axes is the one on the sets of their cells.
pub fn operations_on_boxes()
    ensures meeting { (a b : List Interval) → length a ≡ length b → IsMeeting a b (common_axes a b) }
    ensures shifting { (axes : List Interval) (by : List ℤ) → length axes ≡ length by → IsShifted axes by (shifted axes by) }
    ensures growing { (axes : List Interval) (low high : List ℤ) → length axes ≡ length low → length axes ≡ length high
        → All IsOrdered axes → All (λ l. pos 0 ≤ℤ l) low → All (λ h. pos 0 ≤ℤ h) high
        → IsGrown axes (reaches low high) (grown axes (reaches low high)) }
    ensures below { (axes : List Interval) (n : ℕ) (axis : Interval) (at : ℤ) → slice_get axes n ≡ Some axis → at ≤ℤ axis.last
        → IsPart axes n (λ x. x <ℤ at) (slice_set axes n (interval axis.first (at -ℤ pos 1))) }
    ensures above { (axes : List Interval) (n : ℕ) (axis : Interval) (at : ℤ) → slice_get axes n ≡ Some axis → axis.first <ℤ at
        → IsPart axes n (λ x. at ≤ℤ x) (slice_set axes n (interval at axis.last)) }
{}
