ghost use Rattle.std.specs.Prelude.{ℕ, ◌≡◌, ◌≢◌, ◌<◌, ℤ, Option, None, List, length, map, IsTrue, All, Contains};
ghost use Rattle.std.specs.List.Sorted.{IsPermutation};
ghost use Rattle.pooma_field.specs.Numbered.{Numbered, IsFull};
ghost use Rattle.pooma_field.specs.Worlds.{World, array_of};
ghost use Rattle.pooma_expr.specs.declared.reduction.Reduction.{Reduction};
ghost use Rattle.pooma_expr.specs.declared.tree.Expr.{Expr};
ghost use Rattle.pooma_expr.specs.Reductions.{AllFit};
ghost use Rattle.pooma_expr.specs.Trees.{bound, views_of};
ghost use Rattle.pooma_expr.specs.Words.{IsWord, literals_fit};
ghost use Rattle.pooma_domain.specs.Cells.{Interval, cells_of, IsIn};
ghost use Rattle.pooma_machine.specs.Journal.{entry_of};
ghost use Rattle.pooma_machine.specs.Values.{lent_by};
ghost use Rattle.pooma_model.specs.declared.statement.Action.{Action};
ghost use Rattle.pooma_model.specs.declared.statement.Action.TheVariants as action;
ghost use Rattle.pooma_model.specs.Assigning.{assigned, whole_value, Becomes};
ghost use Rattle.pooma_model.specs.Declarations.{Declared, value_in};
ghost use Rattle.pooma_model.specs.Fit.{IsFit};
ghost use Rattle.pooma_model.specs.Partitions.{IsPartition, numbers_in_turn};
ghost use Rattle.pooma_model.specs.Parts.{parts_of};
ghost use Rattle.pooma_model.specs.Reducing.{reduced};
ghost use Rattle.pooma_piece.specs.Lent.{fits};
ghost use Rattle.pooma_piece.specs.Meaning.{pieces};
ghost use Rattle.pooma_piece.specs.Pieces.{Pieced, requests_of};
ghost use Rattle.pooma_piece.specs.Words.{AllWords};
ghost use Rattle.pooma_store.specs.Numbering.{areas_of, object_count};
ghost use Rattle.pooma_store.specs.Standing.{IsFresh};
ghost use Rattle.pooma_store.specs.Stored.{AreArrays};
ghost use Rattle.pooma_view.specs.Slots.{positions_of};
ghost use Rattle.pooma_view.specs.Views.{Viewed};
ghost use Rattle.pooma_split.specs.Gathered.{HasLaws};
ghost use Rattle.pooma_split.specs.Serving.{IsPositionOf, Serve};
ghost use Rattle.pooma_split.specs.Splits.{pieces_of};
ghost use Rattle.pooma_split.specs.Statements.{ComesTo, GathersTo, Stands, done_in_order, fault_among};
ghost use Rattle.pooma_split.specs.Words.{literals_fit_in};

use pooma_domain::order_of_cells;
use pooma_layout::allocated_cells_of_patches;
use pooma_model::{
    assignments_in_parts, faults_come_first, masks_choose_values, parts_in_any_order,
    parts_of_statements, positions_change_cells, reads_stand_apart, reductions_in_parts,
};
use pooma_piece::{pieces_fit, pieces_make_words};
use pooma_store::{numbers_of_owners, objects_change};

/// Statements, as a law for proofs: what the pieces of an action that fits come to, done one after another on objects that
/// stand for a world. The world has each cell that the action's views name, of a field its physical ones; fields that are
/// read in an external cell are fresh; the scalars handed in are the world's.
///
/// Of an assignment: either pieces answer a fault, and the earliest of theirs is the assignment's, at its position, or none
/// does, and the objects stand for the world that it becomes; fields that are not its target are then as fresh as before. Of a
/// reduction: either pieces answer a fault, and the earliest of theirs is the reduction's, or each answers what the reduction
/// keeps of the numbers at its positions, one for each, and these numbers, box after box in any order, come to its result or to
/// its fault at the sum. They are numbers of 64 bits where those of the objects, of the scalars and of its literals are. A
/// reduction leaves the objects as they are, and behind every action they have numbers of 64 bits where they had such before.
pub fn statements_in_pieces()
    ensures assigns { (declared : Declared) (objects : List Numbered) (world : World) (number : ℕ) (target : Viewed) (value : Expr) (mask : Option Expr)
        → IsFit declared (action.Assign target value mask)
        → Stands declared objects world (views_of (whole_value target value mask)) → IsFull (array_of world target.array)
        → ComesTo declared number
        (fault_among (pieces_of declared world.scalars number (action.Assign target value mask)) (done_in_order (pieces_of declared world.scalars number (action.Assign target value mask)) objects))
        (done_in_order (pieces_of declared world.scalars number (action.Assign target value mask)) objects)
        (assigned declared target value mask world) }
    ensures fresh { (declared : Declared) (objects : List Numbered) (world new : World) (number : ℕ) (target : Viewed) (value : Expr) (mask : Option Expr) (other : ℕ)
        → IsFit declared (action.Assign target value mask)
        → Stands declared objects world (views_of (whole_value target value mask)) → IsFull (array_of world target.array)
        → fault_among (pieces_of declared world.scalars number (action.Assign target value mask)) (done_in_order (pieces_of declared world.scalars number (action.Assign target value mask)) objects) ≡ None
        → assigned declared target value mask world ≡ Becomes new → other ≢ target.array
        → IsFresh declared.shapes declared.layouts objects world other
        → IsFresh declared.shapes declared.layouts (done_in_order (pieces_of declared world.scalars number (action.Assign target value mask)) objects).objects new other }
    ensures reduces { (declared : Declared) (objects : List Numbered) (world : World) (number scalar : ℕ) (reduction : Reduction) (positions : List Interval) (value : Expr)
        → IsFit declared (action.Reduce scalar reduction positions value)
        → Stands declared objects world (views_of value)
        → GathersTo declared number world scalar reduction value (parts_of declared (views_of (bound world.scalars value)) positions)
        (fault_among (pieces_of declared world.scalars number (action.Reduce scalar reduction positions value)) (done_in_order (pieces_of declared world.scalars number (action.Reduce scalar reduction positions value)) objects))
        (done_in_order (pieces_of declared world.scalars number (action.Reduce scalar reduction positions value)) objects).outcomes
        (reduced declared scalar reduction positions value world) }
    ensures counted { (declared : Declared) (objects : List Numbered) (world : World) (number scalar : ℕ) (reduction : Reduction) (positions : List Interval) (value : Expr)
        → IsFit declared (action.Reduce scalar reduction positions value)
        → Stands declared objects world (views_of value)
        → fault_among (pieces_of declared world.scalars number (action.Reduce scalar reduction positions value)) (done_in_order (pieces_of declared world.scalars number (action.Reduce scalar reduction positions value)) objects) ≡ None
        → length (numbers_in_turn (value_in declared world value) (parts_of declared (views_of (bound world.scalars value)) positions)) ≡ length (cells_of positions) }
    ensures leaves { (declared : Declared) (scalars : List ℤ) (objects : List Numbered) (number scalar : ℕ) (reduction : Reduction) (positions : List Interval) (value : Expr)
        → (done_in_order (pieces_of declared scalars number (action.Reduce scalar reduction positions value)) objects).objects ≡ objects }
    ensures words { (declared : Declared) (objects : List Numbered) (world : World) (scalar : ℕ) (reduction : Reduction) (positions : List Interval) (value : Expr)
        → IsFit declared (action.Reduce scalar reduction positions value)
        → Stands declared objects world (views_of value) → AllWords objects → All IsWord world.scalars → IsTrue (literals_fit value)
        → (order : List (List Interval)) → IsPermutation (parts_of declared (views_of (bound world.scalars value)) positions) order
        → AllFit (numbers_in_turn (value_in declared world value) order) }
    ensures stay_words { (declared : Declared) (scalars : List ℤ) (objects : List Numbered) (number : ℕ) (does : Action)
        → IsFit declared does → All IsWord scalars → IsTrue (literals_fit_in does) → AllWords objects
        → AllWords (done_in_order (pieces_of declared scalars number does) objects).objects }
{
    gathered();
}

/// The pieces of an action that fits, as a law for proofs: their boxes have each of its positions once. Each piece asks for
/// objects that are there, and fits the areas of their patches: each cell that it reads or sets lies in the patch in which it
/// does. What the pieces ask for does not depend on the scalars' numbers.
pub fn pieces_of_statements()
    ensures assigns { (declared : Declared) (scalars : List ℤ) (number : ℕ) (target : Viewed) (value : Expr) (mask : Option Expr)
        → IsPartition (positions_of target.slots) (map (λ piece. piece.positions) (pieces_of declared scalars number (action.Assign target value mask))) }
    ensures reduces { (declared : Declared) (scalars : List ℤ) (number scalar : ℕ) (reduction : Reduction) (positions : List Interval) (value : Expr)
        → IsPartition positions (map (λ piece. piece.positions) (pieces_of declared scalars number (action.Reduce scalar reduction positions value))) }
    ensures known { (declared : Declared) (scalars : List ℤ) (number : ℕ) (act : Action) (piece : Pieced) → AreArrays declared.shapes declared.layouts
        → IsFit declared act → Contains (pieces_of declared scalars number act) piece
        → All (λ r. r.object < object_count declared.layouts) (requests_of piece) }
    ensures fits { (declared : Declared) (scalars : List ℤ) (number : ℕ) (act : Action) (piece : Pieced) → AreArrays declared.shapes declared.layouts
        → IsFit declared act → Contains (pieces_of declared scalars number act) piece
        → IsTrue (fits piece (lent_by (areas_of declared.layouts) (requests_of piece)).written (lent_by (areas_of declared.layouts) (requests_of piece)).reads) }
    ensures statement { (declared : Declared) (scalars : List ℤ) (number : ℕ) (act : Action) (piece : Pieced) → AreArrays declared.shapes declared.layouts
        → IsFit declared act → Contains (pieces_of declared scalars number act) piece → piece.statement ≡ number }
    ensures entries { (declared : Declared) (xs ys : List ℤ) (number : ℕ) (act : Action)
        → map (entry_of pieces) (pieces_of declared xs number act) ≡ map (entry_of pieces) (pieces_of declared ys number act) }
{
    gathered();
    pieces_fit();
}

/// The positions of an action that fits, as a law for proofs: each is served. A piece has the position, and asks to write the
/// object whose patch owns the target's cell there, where the action has a target, and, to read or to write, for each view of
/// the value at that position, those of a mask among them, an object whose patch allocates the cell that the view names there.
pub fn positions_are_served()
    ensures { (declared : Declared) (scalars : List ℤ) (number : ℕ) (does : Action) (p : List ℤ) → AreArrays declared.shapes declared.layouts
        → IsFit declared does → IsPositionOf does p
        → (piece : Pieced) × Contains (pieces_of declared scalars number does) piece × IsIn piece.positions p × Serve declared does p (requests_of piece) }
{
    gathered();
}

// The laws of the crates below on statements in parts and on the objects that they change.
fn gathered()
    ensures { HasLaws }
{
    order_of_cells();
    allocated_cells_of_patches();
    parts_of_statements();
    parts_in_any_order();
    reads_stand_apart();
    masks_choose_values();
    positions_change_cells();
    faults_come_first();
    assignments_in_parts();
    reductions_in_parts();
    numbers_of_owners();
    objects_change();
    pieces_make_words();
}
