//! The laws of objects, for the proofs of the crates above. Each does nothing.
ghost use Rattle.std.specs.Prelude.{◌≡◌, ◌≢◌, ℕ, ◌<◌, ℤ, pos, Some, List, [], ◌∷◌, ◌++◌, length, map, slice_get, slice_index_or, slice_set};
ghost use Rattle.std.specs.Arc.{arc_value};
ghost use Rattle.std.specs.declared.alloc.Global.{Global};
ghost use Rattle.std.specs.declared.sync.Arc.{Arc};
ghost use Rattle.pooma_domain.specs.Cells.{Interval, IsIn};
ghost use Rattle.pooma_field.specs.Numbered.{Numbered, Change, with_changes, IsFull};
ghost use Rattle.pooma_field.specs.Shapes.{Shaped};
ghost use Rattle.pooma_field.specs.Worlds.{World, array_of, changed, opening_world, HasCell};
ghost use Rattle.pooma_layout.specs.Axes.{CutAxis};
ghost use Rattle.pooma_layout.specs.Patches.{allocated_boxes, total_of, Owns, IsLayout};
ghost use Rattle.pooma_patch.specs.Patched.{Patched};
ghost use Rattle.pooma_store.specs.Gathered.{HasLaws};
ghost use Rattle.pooma_store.specs.Numbering.{layout_at, object_count, object_of, areas_of, object_at, changed_at, new_patches, new_objects, AreObjects, EachCell, HasPatch};
ghost use Rattle.pooma_store.specs.Standing.{HasTotal, OwnerHas, StandsFor, shape_at, IsFresh, IsGuarded};
ghost use Rattle.pooma_store.specs.Stored.{AreArrays, contents_of};

use pooma_field::{numbers_of_cells, worlds_change};
use pooma_layout::{allocated_cells_of_patches, owners_of_cells};

/// The numbers of objects, as a law for proofs: each is that of one patch of one array. An object has the box that its patch
/// allocates.
pub fn numbers_of_objects()
    ensures counted { (layouts : List (List CutAxis)) → length (areas_of layouts) ≡ object_count layouts }
    ensures area { (layouts : List (List CutAxis)) (array p : ℕ) (box : List Interval) → array < length layouts
        → slice_get (allocated_boxes (layout_at layouts array)) p ≡ Some box
        → slice_get (areas_of layouts) (object_of layouts array p) ≡ Some box }
    ensures there { (layouts : List (List CutAxis)) (array p : ℕ) → HasPatch layouts array p
        → object_of layouts array p < object_count layouts }
    ensures apart { (layouts : List (List CutAxis)) (array other p q : ℕ) → HasPatch layouts array p → HasPatch layouts other q
        → object_of layouts array p ≡ object_of layouts other q → (array ≡ other) × (p ≡ q) }
    ensures found { (layouts : List (List CutAxis)) (k : ℕ) → ((array : ℕ) → array < length layouts → IsLayout (layout_at layouts array))
        → k < object_count layouts → (array : ℕ) × (p : ℕ) × HasPatch layouts array p × (k ≡ object_of layouts array p) }
{}

/// The numbers of cells in the patches that own them, as a law for proofs: each total cell has one, and what it is after some
/// cells of one object were changed.
pub fn numbers_of_owners()
    ensures some { (layouts : List (List CutAxis)) (objects : List Numbered) (array : ℕ) (c : List ℤ) → AreObjects layouts objects
        → IsLayout (layout_at layouts array) → HasTotal layouts array c → (n : ℤ) × OwnerHas layouts objects array c n }
    ensures one { (layouts : List (List CutAxis)) (objects : List Numbered) (array : ℕ) (c : List ℤ) (n m : ℤ)
        → OwnerHas layouts objects array c n → OwnerHas layouts objects array c m → n ≡ m }
    ensures objects { (layouts : List (List CutAxis)) (objects : List Numbered) (k : ℕ) (changes : List Change)
        → AreObjects layouts objects → k < length objects → AreObjects layouts (changed_at objects k changes) }
    ensures this { (objects : List Numbered) (k : ℕ) (changes : List Change) → k < length objects
        → object_at (changed_at objects k changes) k ≡ with_changes (object_at objects k) changes }
    ensures others { (objects : List Numbered) (j k : ℕ) (changes : List Change) → j ≢ k
        → object_at (changed_at objects k changes) j ≡ object_at objects j }
    ensures set { (layouts : List (List CutAxis)) (objects : List Numbered) (array p : ℕ) (changes : List Change) (k : ℕ)
        (change : Change) → AreObjects layouts objects → HasPatch layouts array p → Owns (layout_at layouts array) p change.cell
        → slice_get changes k ≡ Some change
        → ((j : ℕ) (later : Change) → k < j → slice_get changes j ≡ Some later → later.cell ≢ change.cell)
        → OwnerHas layouts (changed_at objects (object_of layouts array p) changes) array change.cell change.number }
    ensures kept { (layouts : List (List CutAxis)) (objects : List Numbered) (array p : ℕ) (changes : List Change) (other : ℕ)
        (c : List ℤ) (n : ℤ) → AreObjects layouts objects → HasPatch layouts array p
        → (other ≡ array → EachCell changes (λ cell. Owns (layout_at layouts array) p cell → c ≢ cell))
        → OwnerHas layouts objects other c n → OwnerHas layouts (changed_at objects (object_of layouts array p) changes) other c n }
{
    gathered();
}

/// Changes of one object, as a law for proofs. Where its patch owns the changed cells, the objects stand for the world that is
/// changed at these cells and no others. Where it owns none that the world has, they stand for the same world. Fields stay
/// fresh where no external cell is changed in the patch that owns it, and arrays stay guarded where another one is changed.
pub fn objects_change()
    ensures changed { (layouts : List (List CutAxis)) (objects : List Numbered) (world : World) (array p : ℕ) (changes : List Change)
        → AreObjects layouts objects → HasPatch layouts array p → IsFull (array_of world array)
        → EachCell changes (λ cell. Owns (layout_at layouts array) p cell)
        → StandsFor layouts objects world
        → StandsFor layouts (changed_at objects (object_of layouts array p) changes) (changed world array changes) }
    ensures unseen { (layouts : List (List CutAxis)) (objects : List Numbered) (world : World) (array p : ℕ) (changes : List Change)
        → AreObjects layouts objects → HasPatch layouts array p
        → EachCell changes (λ cell. Owns (layout_at layouts array) p cell → ¬ (HasCell world array cell))
        → StandsFor layouts objects world
        → StandsFor layouts (changed_at objects (object_of layouts array p) changes) world }
    ensures fresh { (shapes : List Shaped) (layouts : List (List CutAxis)) (objects : List Numbered) (world : World) (array p : ℕ)
        (changes : List Change) (other : ℕ) → AreObjects layouts objects → HasPatch layouts array p
        → (other ≡ array → EachCell changes (λ cell. Owns (layout_at layouts array) p cell → IsIn (shape_at shapes other).physical cell))
        → IsFresh shapes layouts objects world other
        → IsFresh shapes layouts (changed_at objects (object_of layouts array p) changes) world other }
    ensures fresh_elsewhere { (shapes : List Shaped) (layouts : List (List CutAxis)) (objects : List Numbered) (world : World) (array : ℕ)
        (changes : List Change) (other : ℕ) → other ≢ array → IsFresh shapes layouts objects world other → IsFresh shapes layouts objects (changed world array changes) other }
    ensures guarded_elsewhere { (layouts : List (List CutAxis)) (objects : List Numbered) (array p : ℕ) (changes : List Change) (other : ℕ)
        → AreObjects layouts objects → HasPatch layouts array p → other ≢ array → IsGuarded layouts objects other
        → IsGuarded layouts (changed_at objects (object_of layouts array p) changes) other }
{
    gathered();
}

/// Shared patches, as a law for proofs: a patch over the same box in place of another leaves the boxes as they are.
pub fn patches_in_place()
    ensures { (patches : List (Arc Patched Global)) (k : ℕ) (old new : Arc Patched Global)
        → (arc_value new).content.area ≡ (arc_value (slice_index_or patches k old)).content.area
        → map (λ object. object.area) (contents_of (slice_set patches k new)) ≡ map (λ object. object.area) (contents_of patches) }
{}

/// New arrays, as a law for proofs: they read 0 everywhere, so they stand for the opening world, and are guarded. So does and is
/// an array that is declared behind others, whatever those have by then, and it leaves their numbers.
pub fn new_arrays()
    ensures objects { (layouts : List (List CutAxis)) → AreObjects layouts (new_objects layouts) }
    ensures zeros { (layouts : List (List CutAxis)) (array : ℕ) (c : List ℤ) → IsLayout (layout_at layouts array)
        → HasTotal layouts array c → OwnerHas layouts (new_objects layouts) array c (pos 0) }
    ensures opening { (shapes : List Shaped) (layouts : List (List CutAxis)) (scalars : ℕ) → AreArrays shapes layouts
        → StandsFor layouts (new_objects layouts) (opening_world shapes scalars) }
    ensures guarded { (layouts : List (List CutAxis)) (array : ℕ) → IsGuarded layouts (new_objects layouts) array }
    ensures more { (layouts : List (List CutAxis)) (layout : List CutAxis)
        → new_objects (layouts ++ layout ∷ []) ≡ new_objects layouts ++ new_patches layout }
    ensures kept { (layouts : List (List CutAxis)) (objects : List Numbered) (layout : List CutAxis) (array : ℕ) (c : List ℤ) (n : ℤ)
        → OwnerHas layouts objects array c n → OwnerHas (layouts ++ layout ∷ []) (objects ++ new_patches layout) array c n }
    ensures zeros_later { (layouts : List (List CutAxis)) (objects : List Numbered) (layout : List CutAxis) (c : List ℤ) → AreObjects layouts objects
        → IsLayout layout → IsIn (total_of layout) c
        → OwnerHas (layouts ++ layout ∷ []) (objects ++ new_patches layout) (length layouts) c (pos 0) }
    ensures guarded_later { (layouts : List (List CutAxis)) (objects : List Numbered) (layout : List CutAxis) → AreObjects layouts objects
        → IsGuarded (layouts ++ layout ∷ []) (objects ++ new_patches layout) (length layouts) }
{
    gathered();
}

// The laws of the crates below on cells, their owners and their numbers.
fn gathered()
    ensures { HasLaws }
{
    owners_of_cells();
    allocated_cells_of_patches();
    numbers_of_cells();
    worlds_change();
}
