ghost use Rattle.std.specs.Prelude.{◌≡◌, ◌↔◌, ◌≤◌, ℤ, List, ◌∷◌, length};
ghost use Rattle.pooma_domain.specs.Cells.{IsIn};
ghost use Rattle.pooma_view.specs.Slots.{positions_of, cell_named, left_over, Accepts};
ghost use Rattle.pooma_view.specs.declared.slots.Slot.{Slot};

/// What a view names, as a law for proofs: two different positions name different cells, and each cell has a coordinate for
/// each slot.
pub fn cells_apart()
    ensures apart { (slots : List Slot) (p q : List ℤ) → IsIn (positions_of slots) p → IsIn (positions_of slots) q
        → cell_named slots p ≡ cell_named slots q → p ≡ q }
    ensures coordinates { (slots : List Slot) (p : List ℤ) → length (cell_named slots p) ≡ length slots }
{}

/// The positions of a view slot by slot, as a law for proofs: a position is what the first slot takes of it, a place where
/// the slot goes along an axis, and a position of the later slots. There are no more axes than slots.
pub fn positions_by_slots()
    ensures parts { (slot : Slot) (slots : List Slot) (p : List ℤ) → IsIn (positions_of (slot ∷ slots)) p
        ↔ (Accepts slot p × IsIn (positions_of slots) (left_over slot p)) }
    ensures few { (slots : List Slot) → length (positions_of slots) ≤ length slots }
{}
