ghost use Rattle.std.specs.Prelude.{◌≡◌, ◌<◌, ◌≤◌, ℕ, ℤ, None, Some, List, Option, length, slice_get, All, AllPairs, Contains};
ghost use Rattle.pooma_domain.specs.Cells.{Interval, IsIn};
ghost use Rattle.pooma_expr.specs.declared.reduction.Reduction.{Reduction};
ghost use Rattle.pooma_expr.specs.declared.tree.Expr.{Expr};
ghost use Rattle.pooma_field.specs.Numbered.{Numbered};
ghost use Rattle.pooma_field.specs.Worlds.{World};
ghost use Rattle.pooma_fill.specs.Marks.{Staled, declared_of};
ghost use Rattle.pooma_law.specs.Histories.{ForEachHistory, IsHistoryOf};
ghost use Rattle.pooma_machine.specs.declared.journal.Entry.{Entry};
ghost use Rattle.pooma_machine.specs.declared.step.Event.{Event};
ghost use Rattle.pooma_machine.specs.Steps.{IsRequestList};
ghost use Rattle.pooma_machine.specs.Told.{Window};
ghost use Rattle.pooma_machine.specs.Values.{IsComplete};
ghost use Rattle.pooma_model.specs.declared.statement.Action.{Action};
ghost use Rattle.pooma_model.specs.declared.statement.Action.TheVariants as action;
ghost use Rattle.pooma_model.specs.declared.statement.Statement.{Statement};
ghost use Rattle.pooma_model.specs.Assigning.{Becomes, Fault, Faults, Sum};
ghost use Rattle.pooma_model.specs.Declarations.{seen_in};
ghost use Rattle.pooma_model.specs.Order.{Programmed};
ghost use Rattle.pooma_model.specs.Serial.{effect_of};
ghost use Rattle.pooma_piece.specs.Meaning.{pieces};
ghost use Rattle.pooma_piece.specs.Pieces.{Pieced};
ghost use Rattle.pooma_piece.specs.Plans.{Faulted};
ghost use Rattle.pooma_split.specs.Serving.{IsPositionOf, Serve};
ghost use Rattle.pooma_split.specs.Statements.{as_fault, done_in_order, fault_among};
ghost use Rattle.pooma_store.specs.Standing.{OwnerHas};
ghost use Rattle.pooma_view.specs.Slots.{cell_named, positions_of};
ghost use Rattle.pooma_view.specs.Views.{Viewed};
ghost use Rattle.pooma_window.specs.Questions.{Question};
ghost use Rattle.pooma_window.specs.Windows.{IsPickedFrom, IsStopped};
ghost use Rattle.pooma_run.specs.Doing.{CanBeDone, IsReduction, fault_in_history, pieces_answers, works_done, works_fault};
ghost use Rattle.pooma_run.specs.Plan.{stale_after};
ghost use Rattle.pooma_run.specs.Served.{AreFirst, IsSound, ToldAreFirst, entries_in};
ghost use Rattle.pooma_run.specs.Told.{HasTold, HasToldFirst};
ghost use Rattle.pooma_run.specs.Underway.{Gathers, IsHere};
ghost use Rattle.pooma_run.specs.Workers.{HasShared, HasSharedFirst};

use crate::laws::laws_below;
use pooma_law::{legal_histories_agree, ser_composes};
use pooma_piece::{Piece, objects_lend};
use pooma_split::positions_are_served;

/// The works of a statement, as a law for proofs: its fills and then its pieces, done one after another on objects that stand
/// for a world in which each field that is not marked is fresh.
///
/// Where works answer a fault, the earliest of theirs is the fault of the statement. Where none does, the statement has no
/// fault but that of a reduction at its sum, and the objects stand for the world that it becomes, with each field fresh that is
/// not marked after it. The pieces of a reduction answered for numbers that come to its result, or to its fault at the sum. The
/// patches that own the cells of a view that is printed have the numbers that it shows.
pub fn statements_in_works()
    ensures faults { (stale : Staled) (objects : List Numbered) (world : World) (number : ℕ) (does : Action) (fault : Faulted)
        → CanBeDone stale objects world does → works_fault stale objects world number does ≡ Some fault
        → (fault.statement ≡ number) × (effect_of (declared_of stale) does world ≡ Faults (as_fault fault)) }
    ensures no_other { (stale : Staled) (objects : List Numbered) (world : World) (number : ℕ) (does : Action) (fault : Fault)
        → CanBeDone stale objects world does → works_fault stale objects world number does ≡ None
        → effect_of (declared_of stale) does world ≡ Faults fault → (fault.place ≡ Sum) × IsReduction does }
    ensures becomes { (stale : Staled) (objects : List Numbered) (world new : World) (number : ℕ) (does : Action)
        → CanBeDone stale objects world does → works_fault stale objects world number does ≡ None
        → effect_of (declared_of stale) does world ≡ Becomes new
        → IsHere (declared_of stale) (stale_after stale does).marks (works_done stale objects world number does).objects new }
    ensures gathers { (stale : Staled) (objects : List Numbered) (world : World) (number scalar : ℕ) (reduction : Reduction) (positions : List Interval) (value : Expr)
        → CanBeDone stale objects world (action.Reduce scalar reduction positions value)
        → works_fault stale objects world number (action.Reduce scalar reduction positions value) ≡ None
        → Gathers (declared_of stale) scalar reduction positions value world (pieces_answers stale objects world number (action.Reduce scalar reduction positions value)) }
    ensures shows { (stale : Staled) (objects : List Numbered) (world : World) (number : ℕ) (view : Viewed) (p : List ℤ)
        → CanBeDone stale objects world (action.PrintView view) → IsIn (positions_of view.slots) p
        → OwnerHas stale.layouts (works_done stale objects world number (action.PrintView view)).objects view.array (cell_named view.slots p)
        (seen_in (declared_of stale) world view (cell_named view.slots p)) }
{
    laws_below();
}

/// The fault of a plan of pieces, as a law for proofs: in whatever order a legal history dispatches and releases its entries, the
/// earliest fault that they answered, once all were released, is that of doing them one after another. So it is the same in any
/// two such histories.
pub fn least_fault_of_histories()
    ensures in_order { ForEachHistory pieces (λ (plan : List Pieced) (opening : List Numbered) (history : List Event). IsComplete plan history
        → fault_in_history plan opening history ≡ fault_among plan (done_in_order plan opening)) }
    ensures same { (plan : List Pieced) (opening : List Numbered) (one other : List Event)
        → IsHistoryOf pieces plan one → IsComplete plan one → IsHistoryOf pieces plan other → IsComplete plan other
        → fault_in_history plan opening one ≡ fault_in_history plan opening other }
{
    legal_histories_agree::<Piece>();
    ser_composes::<Piece>();
}

/// The first windows of a program, as a law for proofs, and so those that a run has told: the entries of one window after
/// another are of executed statements, whose numbers never fall, and each has one request for each object, in ascending order.
/// And where they come to an entry of some statement, each position of each assignment and reduction up to that statement, with
/// it, is served: an entry of the statement of that position asks to write the object whose patch owns the target's cell there,
/// where there is a target, and asks for an object whose patch allocates the cell that each view names there.
pub fn windows_serve_positions()
    ensures served { (program : Programmed) (windows : List (List Entry)) (last : Entry) (number : ℕ) (s : Statement) (p : List ℤ)
        → IsSound program → AreFirst program windows → Contains (entries_in windows) last → number ≤ last.statement
        → slice_get program.order number ≡ Some s → IsPositionOf s.action p
        → (entry : Entry) × Contains (entries_in windows) entry × (entry.statement ≡ number) × Serve program.declared s.action p entry.requests }
    ensures ordered { (program : Programmed) (windows : List (List Entry)) → IsSound program → AreFirst program windows
        → AllPairs (λ one other. one.statement ≤ other.statement) (entries_in windows) }
    ensures executed { (program : Programmed) (windows : List (List Entry)) → IsSound program → AreFirst program windows
        → All (λ entry. entry.statement < length program.order) (entries_in windows) }
    ensures requests { (program : Programmed) (windows : List (List Entry)) → IsSound program → AreFirst program windows
        → All (λ entry. IsRequestList entry.requests) (entries_in windows) }
{
    laws_below();
    objects_lend();
    positions_are_served();
}

/// The windows that a run has told are the first of its program, as a law for proofs on what a journal was told: the clauses of
/// `run_one` and `run_many` on windows say so, where they answer and after want of memory. With `program_is_sound`,
/// `windows_serve_positions` speaks of them.
pub fn told_windows_are_first()
    ensures picked { (program : Programmed) (known told : Option (List Window)) (old new : Option (List Question))
        → HasTold (IsPickedFrom pieces) program known told old new → ToldAreFirst program known told }
    ensures picked_short { (program : Programmed) (known told : Option (List Window)) (old new : Option (List Question))
        → HasToldFirst (IsPickedFrom pieces) (IsStopped pieces) program known told old new → ToldAreFirst program known told }
    ensures shared { (workers : ℕ) (program : Programmed) (known told : Option (List Window))
        → HasShared workers program known told → ToldAreFirst program known told }
    ensures shared_short { (workers : ℕ) (program : Programmed) (known told : Option (List Window))
        → HasSharedFirst workers program known told → ToldAreFirst program known told }
{}
