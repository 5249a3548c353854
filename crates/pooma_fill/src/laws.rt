ghost use Rattle.std.specs.Prelude.{◌≡◌, ℕ, ◌<◌, false, List, Option, length, map, IsTrue, All, Contains};
ghost use Rattle.pooma_expr.specs.declared.tree.Expr.{Expr};
ghost use Rattle.pooma_expr.specs.Trees.{views_of};
ghost use Rattle.pooma_field.specs.Numbered.{Numbered};
ghost use Rattle.pooma_field.specs.Worlds.{World};
ghost use Rattle.pooma_machine.specs.Values.{lent_by};
ghost use Rattle.pooma_model.specs.declared.statement.Action.{Action};
ghost use Rattle.pooma_model.specs.declared.statement.Action.TheVariants as action;
ghost use Rattle.pooma_model.specs.Assigning.{whole_value};
ghost use Rattle.pooma_model.specs.Fit.{IsFit};
ghost use Rattle.pooma_piece.specs.declared.outcome.Outcome.TheVariants.{Done};
ghost use Rattle.pooma_piece.specs.Lent.{fits};
ghost use Rattle.pooma_piece.specs.Pieces.{Pieced, requests_of};
ghost use Rattle.pooma_piece.specs.Words.{AllWords, HaveWords};
ghost use Rattle.pooma_store.specs.Numbering.{areas_of, object_count, AreObjects};
ghost use Rattle.pooma_store.specs.Standing.{IsFresh, IsFreshFor, StandsFor};
ghost use Rattle.pooma_store.specs.Stored.{AreArrays, Stored};
ghost use Rattle.pooma_view.specs.Views.{Viewed};
ghost use Rattle.pooma_fill.specs.declared.stale.Mark.{Mark};
ghost use Rattle.pooma_fill.specs.Freshened.{AreMarked, CanFill, filled};
ghost use Rattle.pooma_fill.specs.Gathered.{HasLaws};
ghost use Rattle.pooma_fill.specs.Marks.{declared_of, first_mark, fills_before, is_target, marks_after, HasArrays, Staled};
ghost use Rattle.pooma_fill.specs.Reading.{views_read};

use pooma_domain::{operations_on_boxes, order_of_cells};
use pooma_layout::owners_of_cells;
use pooma_piece::{pieces_fit, pieces_make_words};
use pooma_store::{numbers_of_owners, objects_change};

/// The fills that an action needs, as a law for proofs: done one after another on objects that stand for a world, where each
/// field that is not fresh is marked, they make each field fresh of which the action reads or prints an external cell. So the
/// whole value of an assignment can be read, in which a mask leaves the target's own numbers. The objects stand for the same
/// world, what was fresh stays so, and no fill answers a fault. Numbers of 64 bits stay such.
pub fn fills_make_fresh()
    ensures objects { (store : Stored) (stale : Staled) (number : ℕ) (does : Action) (objects : List Numbered) (world : World)
        → CanFill store stale objects world → AreObjects store.layouts (filled store stale number does objects).objects }
    ensures stands { (store : Stored) (stale : Staled) (number : ℕ) (does : Action) (objects : List Numbered) (world : World)
        → CanFill store stale objects world → StandsFor store.layouts (filled store stale number does objects).objects world }
    ensures fresh { (store : Stored) (stale : Staled) (number : ℕ) (does : Action) (objects : List Numbered) (world : World)
        → CanFill store stale objects world → IsFit (declared_of stale) does
        → All (IsFreshFor store.shapes store.layouts (filled store stale number does objects).objects world) (views_read does) }
    ensures whole { (store : Stored) (stale : Staled) (number : ℕ) (target : Viewed) (value : Expr) (mask : Option Expr) (objects : List Numbered) (world : World)
        → CanFill store stale objects world → IsFit (declared_of stale) (action.Assign target value mask)
        → All (IsFreshFor store.shapes store.layouts (filled store stale number (action.Assign target value mask) objects).objects world) (views_of (whole_value target value mask)) }
    ensures kept { (store : Stored) (stale : Staled) (number : ℕ) (does : Action) (objects : List Numbered) (world : World) (array : ℕ)
        → CanFill store stale objects world → IsFresh store.shapes store.layouts objects world array
        → IsFresh store.shapes store.layouts (filled store stale number does objects).objects world array }
    ensures done { (store : Stored) (stale : Staled) (number : ℕ) (does : Action) (objects : List Numbered) (world : World)
        → CanFill store stale objects world → All (λ outcome. outcome ≡ Done) (filled store stale number does objects).outcomes }
    ensures words { (store : Stored) (stale : Staled) (number : ℕ) (does : Action) (objects : List Numbered)
        → AllWords objects → All HaveWords stale.shapes → AllWords (filled store stale number does objects).objects }
{
    gathered();
}

/// The fills that an action needs, as a law for proofs: each asks for objects that are there, and fits the areas of their
/// patches. Each cell that it sets lies in the patch that it writes, and each source of such a cell in the patch in which it is
/// read.
pub fn fills_fit()
    ensures known { (store : Stored) (stale : Staled) (number : ℕ) (does : Action) (piece : Pieced) → AreArrays store.shapes store.layouts
        → HasArrays store stale → Contains (fills_before store.layouts stale number does) piece
        → All (λ r. r.object < object_count store.layouts) (requests_of piece) }
    ensures fits { (store : Stored) (stale : Staled) (number : ℕ) (does : Action) (piece : Pieced) → AreArrays store.shapes store.layouts
        → HasArrays store stale → Contains (fills_before store.layouts stale number does) piece
        → IsTrue (fits piece (lent_by (areas_of store.layouts) (requests_of piece)).written (lent_by (areas_of store.layouts) (requests_of piece)).reads) }
    ensures statement { (store : Stored) (stale : Staled) (number : ℕ) (does : Action) (piece : Pieced) → AreArrays store.shapes store.layouts
        → HasArrays store stale → Contains (fills_before store.layouts stale number does) piece → piece.statement ≡ number }
{
    gathered();
    pieces_fit();
}

/// Marks, as a law for proofs: at the start of a program, and after each action and its fills, at least each field that is not
/// fresh is marked. An action may leave only its target's fields stale: the others are to be fresh behind it where they were
/// before it.
pub fn marks_tell_stale()
    ensures first { (store : Stored) (stale : Staled) (objects : List Numbered) (world : World) → HasArrays store stale
        → AreMarked store (map first_mark stale.shapes) objects world }
    ensures after { (store : Stored) (stale : Staled) (number : ℕ) (does : Action) (objects now : List Numbered) (world next : World)
        → CanFill store stale objects world
        → ((array : ℕ) → is_target does array ≡ false → IsFresh store.shapes store.layouts (filled store stale number does objects).objects world array
        → IsFresh store.shapes store.layouts now next array)
        → AreMarked store (marks_after does 0 stale.shapes stale.marks) now next }
    ensures as_many { (stale : Staled) (does : Action) → length stale.marks ≡ length stale.shapes
        → length (marks_after does 0 stale.shapes stale.marks) ≡ length stale.shapes }
{
    gathered();
}

// The laws of the crates below on boxes, on the owners of cells, and on the objects that are changed.
fn gathered()
    ensures { HasLaws }
{
    order_of_cells();
    operations_on_boxes();
    owners_of_cells();
    numbers_of_owners();
    objects_change();
    pieces_make_words();
}
