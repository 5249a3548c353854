//! The laws of boxes of numbers, of looking a cell up, and of slabs, for the proofs of the crates above. Each does nothing.
ghost use Rattle.std.specs.Prelude.{◌≡◌, ◌≢◌, ℕ, ◌<◌, ◌≤◌, ℤ, pos, Some, None, IsSome, option_map, List, length, map, slice_get, slice_set, All, AllPairs, Contains};
ghost use Rattle.pooma_domain.specs.Cells.{Interval, cells_of, IsIn};
ghost use Rattle.pooma_field.specs.declared.faces.Ends.{Ends};
ghost use Rattle.pooma_field.specs.Faces.{facing};
ghost use Rattle.pooma_field.specs.Look.{look};
ghost use Rattle.pooma_field.specs.Numbered.{Numbered, Change, place_in, number_at, with_number, with_changes, IsFull};
ghost use Rattle.pooma_field.specs.Shapes.{Shaped, IsInSlabs, IsShape, inside_from};
ghost use Rattle.pooma_field.specs.Slabs.{cell_sources, cell_value, slabs_of, with_slabs};
ghost use Rattle.pooma_field.specs.declared.shapes.Slab.{Slab};
ghost use Rattle.pooma_field.specs.Sources.{source_number, source_of};
ghost use Rattle.pooma_field.specs.Updaters.{updated};
ghost use Rattle.pooma_field.specs.Worlds.{World, array_of, number_of, changed, zeros, opening_world};

use pooma_domain::order_of_cells;

/// Boxes of numbers, as a law for proofs: where a cell stands in its box's order, and what the number at each cell is after
/// one or more were changed. Boxes with the same number at each cell are the same.
pub fn numbers_of_cells()
    ensures stands { (box : List Interval) (c : List ℤ) → IsIn box c → slice_get (cells_of box) (place_in box c) ≡ Some c }
    ensures only_there { (box : List Interval) (c : List ℤ) (k : ℕ) → slice_get (cells_of box) k ≡ Some c → place_in box c ≡ k }
    ensures set { (a : Numbered) (c : List ℤ) (n : ℤ) → IsFull a → IsIn a.area c → number_at (with_number a c n) c ≡ n }
    ensures kept { (a : Numbered) (c d : List ℤ) (n : ℤ) → IsFull a → d ≢ c → number_at (with_number a c n) d ≡ number_at a d }
    ensures all_set { (a : Numbered) (changes : List Change) (k : ℕ) (change : Change) → IsFull a → IsIn a.area change.cell
        → slice_get changes k ≡ Some change
        → ((j : ℕ) (later : Change) → k < j → slice_get changes j ≡ Some later → later.cell ≢ change.cell)
        → number_at (with_changes a changes) change.cell ≡ change.number }
    ensures all_kept { (a : Numbered) (changes : List Change) (d : List ℤ) → IsFull a
        → ((k : ℕ) (change : Change) → slice_get changes k ≡ Some change → d ≢ change.cell)
        → number_at (with_changes a changes) d ≡ number_at a d }
    ensures area { (a : Numbered) (changes : List Change) → (with_changes a changes).area ≡ a.area }
    ensures full { (a : Numbered) (changes : List Change) → IsFull a → IsFull (with_changes a changes) }
    ensures same { (a b : Numbered) → a.area ≡ b.area → IsFull a → IsFull b
        → ((c : List ℤ) → IsIn a.area c → number_at a c ≡ number_at b c) → a ≡ b }
{
    order_of_cells();
}

/// Looking a cell up, as a law for proofs. A plain array's cell and a physical one have their own number. Each other cell of
/// a field goes by one axis, the greatest on which it lies outside the physical domain: the updater of the face on its side
/// makes its value of the values that the cells inside on this axis are looked up to have, and `source` is one of those.
pub fn looking_up()
    ensures plain { (shape : Shaped) (numbers : List ℤ → ℤ) (c : List ℤ) → shape.faces ≡ None → look shape numbers c ≡ numbers c }
    ensures physical { (shape : Shaped) (numbers : List ℤ → ℤ) (c : List ℤ) → IsIn shape.physical c → look shape numbers c ≡ numbers c }
    ensures outside { (shape : Shaped) (numbers : List ℤ → ℤ) (c : List ℤ) (n : ℕ) (faces : List Ends) (axis : Interval) (ends : Ends) (x : ℤ)
        → IsShape shape → IsInSlabs shape n c → shape.faces ≡ Some faces
        → slice_get shape.physical n ≡ Some axis → slice_get faces n ≡ Some ends → slice_get c n ≡ Some x
        → look shape numbers c ≡ updated (facing ends axis x) axis (λ y. look shape numbers (slice_set c n y)) x }
    ensures source { (shape : Shaped) (c : List ℤ) (n : ℕ) (faces : List Ends) (axis : Interval) (ends : Ends) (x : ℤ) → shape.faces ≡ Some faces
        → slice_get shape.physical n ≡ Some axis → slice_get faces n ≡ Some ends → slice_get c n ≡ Some x
        → source_of shape n c ≡ option_map (λ y. slice_set c n y) (source_number (facing ends axis x) axis x) }
    ensures some_axis { (shape : Shaped) (c : List ℤ) → IsShape shape → IsIn shape.total c → ¬ (IsIn shape.physical c)
        → (n : ℕ) × IsInSlabs shape n c }
    ensures one_axis { (shape : Shaped) (c : List ℤ) (n m : ℕ) → IsShape shape → IsInSlabs shape n c → IsInSlabs shape m c → n ≡ m }
{}

/// The slabs of a field, as a law for proofs. Setting them in their order, each cell to what its updater makes of the numbers
/// then at its sources, gives each cell of the field what looking it up gives. Each cell beside the physical domain lies in a
/// slab, and looking it up takes what its sources are looked up to have. These are inside on the slab's axis and on the
/// greater ones, so that they are physical or lie in slabs of lower axes, which come earlier.
pub fn slabs_in_order()
    ensures set { (shape : Shaped) (numbers : List ℤ → ℤ) (c : List ℤ) → IsShape shape → IsSome shape.faces → IsIn shape.total c
        → with_slabs shape numbers (slabs_of shape) c ≡ look shape numbers c }
    ensures value { (shape : Shaped) (numbers : List ℤ → ℤ) (slab : Slab) (c : List ℤ) → IsShape shape → Contains (slabs_of shape) slab
        → IsIn slab.target c → look shape numbers c ≡ cell_value shape slab c (map (look shape numbers) (cell_sources shape slab c)) }
    ensures sources { (shape : Shaped) (slab : Slab) (c : List ℤ) → IsShape shape → Contains (slabs_of shape) slab → IsIn slab.target c
        → All (IsIn (inside_from slab.axis shape)) (cell_sources shape slab c) }
    ensures total_sources { (shape : Shaped) (slab : Slab) (c : List ℤ) → IsShape shape → Contains (slabs_of shape) slab
        → IsIn slab.target c → All (IsIn shape.total) (cell_sources shape slab c) }
    ensures first_source { (shape : Shaped) (slab : Slab) (c : List ℤ) → IsShape shape → Contains (slabs_of shape) slab
        → IsIn slab.target c → source_of shape slab.axis c ≡ slice_get (cell_sources shape slab c) 0 }
    ensures goes_by { (shape : Shaped) (slab : Slab) (c : List ℤ) → IsShape shape → Contains (slabs_of shape) slab → IsIn slab.target c
        → IsInSlabs shape slab.axis c }
    ensures external { (shape : Shaped) (slab : Slab) (c : List ℤ) → IsShape shape → Contains (slabs_of shape) slab → IsIn slab.target c
        → IsIn shape.total c × ¬ (IsIn shape.physical c) }
    ensures some { (shape : Shaped) (c : List ℤ) → IsShape shape → IsSome shape.faces → IsIn shape.total c → ¬ (IsIn shape.physical c)
        → (slab : Slab) × Contains (slabs_of shape) slab × IsIn slab.target c }
    ensures earlier { (shape : Shaped) (n : ℕ) (slab : Slab) (c : List ℤ) → IsShape shape → Contains (slabs_of shape) slab
        → IsIn slab.target c → IsIn (inside_from n shape) c → slab.axis < n }
    ensures order { (shape : Shaped) → AllPairs (λ one later. one.axis ≤ later.axis) (slabs_of shape) }
{
    order_of_cells();
}

/// Worlds, as a law for proofs: what becomes of each array where one is changed, and that all numbers are 0 at first.
pub fn worlds_change()
    ensures this { (world : World) (array : ℕ) (changes : List Change) → array < length world.arrays
        → array_of (changed world array changes) array ≡ with_changes (array_of world array) changes }
    ensures others { (world : World) (array other : ℕ) (changes : List Change) → other ≢ array
        → array_of (changed world array changes) other ≡ array_of world other }
    ensures opening { (shapes : List Shaped) (scalars array : ℕ) (c : List ℤ) → number_of (opening_world shapes scalars) array c ≡ pos 0 }
    ensures full { (shape : Shaped) → IsFull (zeros shape) }
{}
