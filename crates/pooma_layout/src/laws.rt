ghost use Rattle.std.specs.Prelude.{◌≡◌, ◌↔◌, ℕ, ◌+◌, ℤ, ◌≤ℤ◌, ◌<ℤ◌, Some, List, length, slice_get, All, IsSomeAnd};
ghost use Rattle.pooma_domain.specs.Cells.{Interval, IsIn};
ghost use Rattle.pooma_layout.specs.Axes.{CutAxis, total_axis, parts, part_of, IsAscending, IsCutAxis};
ghost use Rattle.pooma_layout.specs.Patches.{owned_boxes, allocated_of, total_of, owner_of, Owns, HaveSameParts};

/// The owners of cells, as a law for proofs: what a patch owns is a total cell, and each total cell has
/// one owner. Two cells that lie in one part on each axis have the same one.
pub fn owners_of_cells()
    ensures total { (layout : List CutAxis) (p : ℕ) (c : List ℤ) → All IsCutAxis layout → Owns layout p c → IsIn (total_of layout) c }
    ensures owned { (layout : List CutAxis) (c : List ℤ) → IsIn (total_of layout) c → Owns layout (owner_of layout c) c }
    ensures no_other { (layout : List CutAxis) (p : ℕ) (c : List ℤ) → All IsCutAxis layout → Owns layout p c → p ≡ owner_of layout c }
    ensures by_parts { (layout : List CutAxis) (c d : List ℤ) → HaveSameParts layout c d → owner_of layout c ≡ owner_of layout d }
{}

/// The parts of an axis, as a law for proofs: there is one more of them than borders, each coordinate lies
/// in that part alone that `part_of` names, and two coordinates lie in one part exactly where no border
/// parts them.
pub fn parts_of_axes()
    ensures counted { (axis : CutAxis) → length (parts axis) ≡ length axis.borders + 1 }
    ensures has { (axis : CutAxis) (x : ℤ) → (total_axis axis).first ≤ℤ x → x ≤ℤ (total_axis axis).last
        → IsSomeAnd (slice_get (parts axis) (part_of axis.borders x)) (λ part. (part.first ≤ℤ x) × (x ≤ℤ part.last)) }
    ensures no_other { (axis : CutAxis) (x : ℤ) (k : ℕ) (part : Interval) → IsCutAxis axis
        → slice_get (parts axis) k ≡ Some part → part.first ≤ℤ x → x ≤ℤ part.last → k ≡ part_of axis.borders x }
    ensures parted { (borders : List ℤ) (x y : ℤ) → IsAscending borders → x ≤ℤ y
        → (part_of borders x ≡ part_of borders y) ↔ All (λ border. ¬ ((x <ℤ border) × (border ≤ℤ y))) borders }
{}

/// What a patch allocates, as a law for proofs: all cells that it owns, and only total cells.
pub fn allocated_cells_of_patches()
    ensures own { (layout : List CutAxis) (p : ℕ) (owned : List Interval) (c : List ℤ) → All IsCutAxis layout
        → slice_get (owned_boxes layout) p ≡ Some owned → IsIn owned c → IsIn (allocated_of layout owned) c }
    ensures total { (layout : List CutAxis) (p : ℕ) (owned : List Interval) (c : List ℤ) → All IsCutAxis layout
        → slice_get (owned_boxes layout) p ≡ Some owned → IsIn (allocated_of layout owned) c → IsIn (total_of layout) c }
{}
