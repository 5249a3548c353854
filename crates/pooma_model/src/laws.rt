//! The laws of what statements do to worlds, for the proofs of the crates above. Each does nothing.
ghost use Rattle.std.specs.Prelude.{◌≡◌, ◌≢◌, ◌↔◌, ℕ, ◌+◌, true, false, ℤ, Option, Some, None, List, [], ◌++◌, length, map, take, slice_get, All, AllPairs, Contains};
ghost use Rattle.std.specs.List.Sorted.{IsPermutation};
ghost use Rattle.pooma_domain.specs.Cells.{Interval, IsBefore, IsIn, cells_of};
ghost use Rattle.pooma_view.specs.Slots.{cell_named, positions_of};
ghost use Rattle.pooma_view.specs.Views.{Viewed};
ghost use Rattle.pooma_field.specs.Numbered.{IsFull};
ghost use Rattle.pooma_field.specs.Shapes.{own_area};
ghost use Rattle.pooma_field.specs.Worlds.{World, HasCell, array_of, number_of, changed, opening_world};
ghost use Rattle.pooma_layout.specs.Axes.{cut_at};
ghost use Rattle.pooma_layout.specs.Blocks.{product};
ghost use Rattle.pooma_layout.specs.Patches.{HaveSameParts};
ghost use Rattle.pooma_expr.specs.declared.reduction.Reduction.{Reduction};
ghost use Rattle.pooma_expr.specs.declared.tree.Expr.{Expr};
ghost use Rattle.pooma_expr.specs.Reductions.{AllFit, result_over};
ghost use Rattle.pooma_expr.specs.Trees.{views_of};
ghost use Rattle.pooma_expr.specs.Values.{Checked, Contents, value};
ghost use Rattle.pooma_model.specs.declared.statement.Action.{Action};
ghost use Rattle.pooma_model.specs.declared.statement.Action.TheVariants as action;
ghost use Rattle.pooma_model.specs.declared.statement.Statement.{Statement};
ghost use Rattle.pooma_model.specs.Assigning.{Becomes, Faults, Fault, Given, assigned, given_at, whole_value};
ghost use Rattle.pooma_model.specs.Declarations.{Declared, layout_at, seen_in, shape_at, value_in};
ghost use Rattle.pooma_model.specs.Fit.{IsAssignFit, IsFit, IsWritable};
ghost use Rattle.pooma_model.specs.Midway.{IsMidway, IsUnnamed, SeesMidway};
ghost use Rattle.pooma_model.specs.Partitions.{IsFirstFault, IsLeastFault, IsOfOthers, IsPartition, StandOnce, changed_in_turn, changes_at, fault_at, number_after, numbers_at, numbers_in_turn};
ghost use Rattle.pooma_model.specs.Parts.{cut_axes, parts_of};
ghost use Rattle.pooma_model.specs.Reducing.{reduced, scalar_given};
ghost use Rattle.pooma_model.specs.Runs.{IsWorldOf, followed_by, with_effect, world_after, world_of};
ghost use Rattle.pooma_model.specs.Serial.{effect_of, printed, serial};

use pooma_domain::order_of_cells;
use pooma_field::{looking_up, numbers_of_cells, worlds_change};
use pooma_view::cells_apart;

/// Assignments, as a law for proofs: each cell that the target names has what its position is given, and keeps its number
/// where that is nothing. Each other cell keeps its number, and each other array and the scalars stay whole.
pub fn assignments_change_cells()
    ensures named { (declared : Declared) (target : Viewed) (value : Expr) (mask : Option Expr) (world new : World) (p : List ℤ)
        → assigned declared target value mask world ≡ Becomes new → IsFull (array_of world target.array)
        → IsIn (positions_of target.slots) p → HasCell world target.array (cell_named target.slots p)
        → number_of new target.array (cell_named target.slots p)
        ≡ number_after (given_at declared world value mask p) (number_of world target.array (cell_named target.slots p)) }
    ensures unnamed { (declared : Declared) (target : Viewed) (value : Expr) (mask : Option Expr) (world new : World) (array : ℕ) (c : List ℤ)
        → assigned declared target value mask world ≡ Becomes new → IsFull (array_of world target.array)
        → IsUnnamed target (cells_of (positions_of target.slots)) array c
        → number_of new array c ≡ number_of world array c }
    ensures others { (declared : Declared) (target : Viewed) (value : Expr) (mask : Option Expr) (world new : World) (other : ℕ)
        → assigned declared target value mask world ≡ Becomes new → other ≢ target.array
        → array_of new other ≡ array_of world other }
    ensures scalars { (declared : Declared) (target : Viewed) (value : Expr) (mask : Option Expr) (world new : World)
        → assigned declared target value mask world ≡ Becomes new → new.scalars ≡ world.scalars }
    ensures area { (declared : Declared) (target : Viewed) (value : Expr) (mask : Option Expr) (world new : World) (array : ℕ)
        → assigned declared target value mask world ≡ Becomes new → (array_of new array).area ≡ (array_of world array).area }
    ensures full { (declared : Declared) (target : Viewed) (value : Expr) (mask : Option Expr) (world new : World) (array : ℕ)
        → assigned declared target value mask world ≡ Becomes new
        → IsFull (array_of world array) → IsFull (array_of new array) }
{
    order_of_cells();
    numbers_of_cells();
    worlds_change();
    cells_apart();
}

/// Some positions of a target, as a law for proofs: what they change where each of them is given something, as a part of an
/// assignment does up to its fault. A cell that one of them names has what it is given, and all else is as it was.
pub fn positions_change_cells()
    ensures named { (target : Viewed) (given : List ℤ → Given) (ps : List (List ℤ)) (world : World) (p : List ℤ)
        → IsFull (array_of world target.array) → All (IsIn (positions_of target.slots)) ps → StandOnce ps → Contains ps p
        → HasCell world target.array (cell_named target.slots p)
        → number_of (changed world target.array (changes_at given target.slots ps)) target.array (cell_named target.slots p)
        ≡ number_after (given p) (number_of world target.array (cell_named target.slots p)) }
    ensures unnamed { (target : Viewed) (given : List ℤ → Given) (ps : List (List ℤ)) (world : World) (array : ℕ) (c : List ℤ)
        → IsFull (array_of world target.array) → IsUnnamed target ps array c
        → number_of (changed world target.array (changes_at given target.slots ps)) array c ≡ number_of world array c }
    ensures area { (target : Viewed) (given : List ℤ → Given) (ps : List (List ℤ)) (world : World) (array : ℕ)
        → (array_of (changed world target.array (changes_at given target.slots ps)) array).area ≡ (array_of world array).area }
    ensures full { (target : Viewed) (given : List ℤ → Given) (ps : List (List ℤ)) (world : World) (array : ℕ)
        → IsFull (array_of world array) → IsFull (array_of (changed world target.array (changes_at given target.slots ps)) array) }
    ensures front { (box : List Interval) (n : ℕ) → StandOnce (take n (cells_of box)) }
{
    order_of_cells();
    numbers_of_cells();
    worlds_change();
    cells_apart();
}

/// Masks, as a law for proofs: an assignment with a mask is the one without, of the value where it is taken and of the
/// target's own number where it is not. The fault is the same, and its position.
pub fn masks_choose_values()
    ensures whole { (declared : Declared) (target : Viewed) (value : Expr) (mask : Option Expr) (world : World)
        → IsFit declared (action.Assign target value mask) → IsFull (array_of world target.array)
        → assigned declared target value mask world ≡ assigned declared target (whole_value target value mask) None world }
{
    order_of_cells();
    numbers_of_cells();
    looking_up();
    cells_apart();
}

/// Reads, as a law for proofs: the value at a position depends on what is seen at the cells that its views name there, and
/// an assignment that does not overlap itself names none of those at another position. So its value at a position is the
/// same before and after it is done at others, where the external cells of fields are seen as they were.
///
/// `done` are positions at which it is done, `old` is the world before it, and `new` is one on the way.
pub fn reads_stand_apart()
    ensures by_reads { (scalars : List ℤ) (has other : Contents) (e : Expr) (p : List ℤ)
        → All (λ view. has view (cell_named view.slots p) ≡ other view (cell_named view.slots p)) (views_of e)
        → value scalars has e p ≡ value scalars other e p }
    ensures own { (declared : Declared) (world : World) (view : Viewed) (c : List ℤ) → IsIn (own_area (shape_at declared view.array)) c
        → seen_in declared world view c ≡ number_of world view.array c }
    ensures unwritten { (declared : Declared) (target : Viewed) (whole : Expr) (done : List (List ℤ)) (p : List ℤ)
        → IsAssignFit declared target whole → All (IsIn (positions_of target.slots)) done
        → IsIn (positions_of target.slots) p → ¬ (Contains done p)
        → All (λ view. IsUnnamed target done view.array (cell_named view.slots p)) (views_of whole) }
    ensures midway { (declared : Declared) (target : Viewed) (whole : Expr) (done : List (List ℤ)) (old new : World) (has : Contents) (p : List ℤ)
        → IsAssignFit declared target whole → All (IsIn (positions_of target.slots)) done
        → IsIn (positions_of target.slots) p → ¬ (Contains done p)
        → IsMidway target done old new → All (SeesMidway declared old new has p) (views_of whole)
        → value old.scalars has whole p ≡ value_in declared old whole p }

    // A part's value at one of its positions is that, whichever positions of other parts are done already.
    ensures part { (declared : Declared) (target : Viewed) (whole : Expr) (boxes : List (List Interval)) (k : ℕ) (box : List Interval)
        (done : List (List ℤ)) (old new : World) (has : Contents) (p : List ℤ)
        → IsAssignFit declared target whole → IsPartition (positions_of target.slots) boxes
        → slice_get boxes k ≡ Some box → IsIn box p → All (IsOfOthers boxes k) done
        → IsMidway target done old new → All (SeesMidway declared old new has p) (views_of whole)
        → value old.scalars has whole p ≡ value_in declared old whole p }

    // How the world gets on.
    ensures begins { (target : Viewed) (world : World) → IsMidway target [] world world }
    ensures goes_on { (target : Viewed) (done more : List (List ℤ)) (old new : World) (given : List ℤ → Given)
        → IsFull (array_of new target.array) → IsMidway target done old new
        → IsMidway target (done ++ more) old (changed new target.array (changes_at given target.slots more)) }
{
    numbers_of_cells();
    looking_up();
    worlds_change();
}

/// Faults, as a law for proofs: that of a box of positions is at the first of them that has one, and that of boxes which are
/// the parts of one is the least of theirs. `given` is what the positions are given.
pub fn faults_come_first()
    ensures found { (given : List ℤ → Given) (box : List Interval) (fault : Fault)
        → (fault_at given (cells_of box) ≡ Some fault) ↔ IsFirstFault given box fault }
    ensures none { (given : List ℤ → Given) (whole : List Interval) (boxes : List (List Interval)) → IsPartition whole boxes
        → (fault_at given (cells_of whole) ≡ None) ↔ All (λ box. fault_at given (cells_of box) ≡ None) boxes }
    ensures least { (given : List ℤ → Given) (whole : List Interval) (boxes : List (List Interval)) (fault : Fault) → IsPartition whole boxes
        → (fault_at given (cells_of whole) ≡ Some fault) ↔ IsLeastFault given boxes fault }
    ensures same { (given other : List ℤ → Given) (box : List Interval) → ((p : List ℤ) → IsIn box p → given p ≡ other p)
        → fault_at given (cells_of box) ≡ fault_at other (cells_of box) }
{
    order_of_cells();
}

/// Assignments in parts, as a law for proofs: what boxes that are the parts of the positions change, one after another in
/// any order, is what the assignment changes, where no box has a fault. Else its fault is the least of theirs. All are given
/// what the positions have in the world before.
pub fn assignments_in_parts()
    ensures becomes { (declared : Declared) (target : Viewed) (value : Expr) (mask : Option Expr) (boxes : List (List Interval)) (world : World)
        → IsFull (array_of world target.array) → IsPartition (positions_of target.slots) boxes
        → All (λ box. fault_at (given_at declared world value mask) (cells_of box) ≡ None) boxes
        → assigned declared target value mask world
        ≡ Becomes (changed_in_turn world target (given_at declared world value mask) boxes) }
    ensures faults { (declared : Declared) (target : Viewed) (value : Expr) (mask : Option Expr) (boxes : List (List Interval)) (world : World)
        (fault : Fault)
        → IsPartition (positions_of target.slots) boxes → IsLeastFault (given_at declared world value mask) boxes fault
        → assigned declared target value mask world ≡ Faults fault }
    ensures world { (target : Viewed) (given : List ℤ → Given) (boxes : List (List Interval)) (world : World)
        → IsFull (array_of world target.array) → IsPartition (positions_of target.slots) boxes
        → changed_in_turn world target given boxes
        ≡ changed world target.array (changes_at given target.slots (cells_of (positions_of target.slots))) }
    ensures same { (given other : List ℤ → Given) (target : Viewed) (box : List Interval) → ((p : List ℤ) → IsIn box p → given p ≡ other p)
        → changes_at given target.slots (cells_of box) ≡ changes_at other target.slots (cells_of box) }
{
    order_of_cells();
    numbers_of_cells();
    worlds_change();
    cells_apart();
}

/// Reductions in parts, as a law for proofs: the numbers of boxes that are the parts of one, one list after another in any
/// order, come to what those of the whole come to, where no box has a fault. So the parts' partials, merged in any order,
/// finish as the reduction. Else its fault is the least of theirs.
pub fn reductions_in_parts()
    ensures finishes { (declared : Declared) (scalar : ℕ) (reduction : Reduction) (positions : List Interval) (value : Expr)
        (boxes : List (List Interval)) (world : World)
        → IsPartition positions boxes → All (λ box. fault_at (given_at declared world value None) (cells_of box) ≡ None) boxes
        → AllFit (numbers_in_turn (value_in declared world value) boxes)
        → reduced declared scalar reduction positions value world
        ≡ scalar_given world scalar (result_over reduction (numbers_in_turn (value_in declared world value) boxes)) }
    ensures faults { (declared : Declared) (scalar : ℕ) (reduction : Reduction) (positions : List Interval) (value : Expr)
        (boxes : List (List Interval)) (world : World) (fault : Fault)
        → IsPartition positions boxes → IsLeastFault (given_at declared world value None) boxes fault
        → reduced declared scalar reduction positions value world ≡ Faults fault }
    ensures result { (value : List ℤ → Checked) (whole : List Interval) (boxes : List (List Interval)) (reduction : Reduction)
        → IsPartition whole boxes → AllFit (numbers_in_turn value boxes)
        → result_over reduction (numbers_in_turn value boxes) ≡ result_over reduction (numbers_at value (cells_of whole)) }
    ensures same { (value other : List ℤ → Checked) (box : List Interval) → ((p : List ℤ) → IsIn box p → value p ≡ other p)
        → numbers_at value (cells_of box) ≡ numbers_at other (cells_of box) }
{
    order_of_cells();
}

/// The parts of a statement, as a law for proofs: they have each of its positions once, stand in the order of their first
/// positions, and are as many as the axes' parts multiply to. Within one of them the cells that a view names lie in one part
/// of its array's layout on each axis, so they have one owner.
pub fn parts_of_statements()
    ensures partition { (declared : Declared) (views : List Viewed) (positions : List Interval)
        → IsPartition positions (parts_of declared views positions) }
    ensures ordered { (declared : Declared) (views : List Viewed) (positions : List Interval)
        → AllPairs (λ one other. IsBefore (map (λ axis. axis.first) one) (map (λ axis. axis.first) other)) (parts_of declared views positions) }
    ensures counted { (declared : Declared) (views : List Viewed) (positions : List Interval)
        → length (parts_of declared views positions) ≡ product (map length (cut_axes declared views 0 positions)) }
    ensures on_axis { (first : ℤ) (borders : List ℤ) (last : ℤ) → length (cut_at first borders last) ≡ length borders + 1 }
    ensures together { (declared : Declared) (views : List Viewed) (positions : List Interval) (view : Viewed) (box : List Interval) (p q : List ℤ)
        → Contains views view → Contains (parts_of declared views positions) box
        → length (layout_at declared view.array) ≡ length view.slots → positions_of view.slots ≡ positions
        → IsIn box p → IsIn box q
        → HaveSameParts (layout_at declared view.array) (cell_named view.slots p) (cell_named view.slots q) }
{}

/// Parts in another order, as a law for proofs: they are parts of the same whole.
pub fn parts_in_any_order()
    ensures { (whole : List Interval) (boxes others : List (List Interval)) → IsPermutation boxes others
        → IsPartition whole boxes → IsPartition whole others }
{}

/// Runs, as a law for proofs: a front of the statements and then the rest is all of them where the front has no fault, and
/// it is the front alone where it has one.
pub fn runs_compose()
    ensures front { (declared : Declared) (front rest : List Statement) (world : World) → (serial declared front world).faulted ≡ false
        → serial declared (front ++ rest) world
        ≡ followed_by (serial declared front world) (serial declared rest (world_after declared front world)) }
    ensures ended { (declared : Declared) (front rest : List Statement) (world : World) → (serial declared front world).faulted ≡ true
        → serial declared (front ++ rest) world ≡ serial declared front world }
    ensures world { (declared : Declared) (front rest : List Statement) (world : World)
        → world_after declared (front ++ rest) world ≡ world_after declared rest (world_after declared front world) }

    // The statements up to one, with it, are those before it and then what it does.
    ensures next { (declared : Declared) (list : List Statement) (world : World) (j : ℕ) (s : Statement) → slice_get list j ≡ Some s
        → (serial declared (take j list) world).faulted ≡ false
        → serial declared (take (j + 1) list) world
        ≡ with_effect (serial declared (take j list) world) s.line
        (printed declared s.action (world_after declared (take j list) world))
        (effect_of declared s.action (world_after declared (take j list) world)) }
    ensures next_world { (declared : Declared) (list : List Statement) (world : World) (j : ℕ) (s : Statement) → slice_get list j ≡ Some s
        → world_after declared (take (j + 1) list) world
        ≡ world_of (effect_of declared s.action (world_after declared (take j list) world)) (world_after declared (take j list) world) }
{}

/// Worlds along a run, as a law for proofs: each has the declared arrays, with a number for each cell of their own, and the
/// declared scalars. So it has what a view that may be written names.
pub fn worlds_keep_cells()
    ensures opening { (declared : Declared) → IsWorldOf declared (opening_world declared.shapes declared.scalars) }
    ensures kept { (declared : Declared) (list : List Statement) (world : World) → IsWorldOf declared world
        → IsWorldOf declared (world_after declared list world) }
    ensures one { (declared : Declared) (act : Action) (world new : World) → IsWorldOf declared world
        → effect_of declared act world ≡ Becomes new → IsWorldOf declared new }
    ensures has { (declared : Declared) (world : World) (view : Viewed) (p : List ℤ) → IsWorldOf declared world → IsWritable declared view
        → IsIn (positions_of view.slots) p → HasCell world view.array (cell_named view.slots p) }
    ensures full { (declared : Declared) (world : World) (view : Viewed) → IsWorldOf declared world → IsWritable declared view
        → IsFull (array_of world view.array) }
{
    numbers_of_cells();
    worlds_change();
}
