ghost use Rattle.std.specs.Prelude.{◌≡◌, ◌≤◌, ◌∷◌, [], IfSome, IsTrue, length};
ghost use Rattle.pooma_view.specs.Overlap.{IsOverlap};
ghost use Rattle.pooma_expr.specs.Trees.{axes_needed, views_of};
ghost use Rattle.pooma_piece.specs.Pieces.{HasPositions};

use pooma_domain::{Axis, BoxN, Cell, Strided, boxes_within_boxes};
use pooma_expr::{Code, Expr, Op, Partial, Reduction};
use pooma_machine::{Mode, Request, Work};
use pooma_num::FaultKind;
use pooma_patch::Patch;
use pooma_piece::{MOST_POSITIONS, Outcome, Piece, Task, run_piece};
use pooma_view::{Slot, View};
use sqlite_items::Boxed;
use std::alloc::{AllocError, Global};
use std::sync::Arc;

// The numbers from a first to a last one, as a box of one axis.
fn from_to(first: i32, last: i32) -> Option<BoxN>
    ensures { IfSome result (λ made. length made ≡ 1) }
{
    Some(BoxN::of1(Axis::of(first, last)?))
}

// The view of an array's cells 0 to 7.
fn eight(array: u32) -> View
    ensures { result.array ≡ array }
{
    let cells = Strided {
        first: 0,
        stride: 1,
        count: 8,
    };
    View::new(array, &[Slot::Along(cells)])
}

fn bin(alloc: Global, op: Op, a: Expr, b: Expr) -> Result<Expr, AllocError> {
    Ok(Expr::Bin(op, Boxed::new(alloc, a)?, Boxed::new(alloc, b)?))
}

// The code of an expression without scalars that asks for one axis at most.
fn code_of(alloc: Global, expr: Result<Expr, AllocError>) -> Option<Code>
    ensures { IfSome result (λ code. axes_needed code ≤ 1) }
{
    let expr = expr.ok()?;
    let may_be = expr.is_within_depth(256)
        && expr.reads_left(64).is_some()
        && expr.scalars_needed() == 0
        && expr.axes_needed() <= 1;
    if !may_be {
        return None;
    }
    Code::of(alloc, &expr, &[]).ok()
}

// `5 / (2 - index(0))`
fn quotient(alloc: Global) -> Result<Expr, AllocError> {
    let difference = bin(alloc, Op::Sub, Expr::Literal(2), Expr::Index(0))?;
    bin(alloc, Op::Div, Expr::Literal(5), difference)
}

// Whether these are positions of the view.
fn are_positions(positions: &BoxN, view: &View) -> bool
    ensures { IsTrue result → HasPositions positions.now view.now }
{
    boxes_within_boxes();
    if !view.has_positions() {
        return false;
    }
    let whole = view.positions();
    whole.contains(&positions.least()) && whole.contains(&positions.greatest())
}

// A piece of statement 3 that reads nothing and sets cells of array 0 in object 5.
fn assigning(alloc: Global, positions: BoxN, code: Code) -> Option<Piece>
    requires axes { axes_needed code ≤ 1 }
    requires dims { length positions ≡ 1 }
{
    let target = eight(0);
    let [] = code.reads() else {
        return None;
    };
    if !are_positions(&positions, &target) || positions.count() > MOST_POSITIONS {
        return None;
    }
    let task = Task::Assign { target };
    Piece::new(alloc, 3, positions, task, code, Some(5), &[]).ok()
}

// A piece of statement 3 that reads nothing and reduces.
fn reducing(alloc: Global, positions: BoxN, reduction: Reduction, code: Code) -> Option<Piece>
    requires axes { axes_needed code ≤ 1 }
    requires dims { length positions ≡ 1 }
{
    let [] = code.reads() else {
        return None;
    };
    if positions.count() > MOST_POSITIONS {
        return None;
    }
    let task = Task::Reduce { reduction };
    Piece::new(alloc, 3, positions, task, code, None, &[]).ok()
}

// A patch of cells 0 to 7, whose numbers are 0, and can be set.
fn zeros(alloc: Global) -> Option<Patch> {
    let mut patch = Patch::zeros(from_to(0, 7)?);
    Piece::prepared(alloc, &mut patch).ok()?;
    Some(patch)
}

// What comes of a piece that reads nothing.
fn run_alone(piece: &Piece, patch: &mut Patch) -> Option<Outcome> {
    let reads: [Arc<Patch>; 0] = [];
    if patch.is_one() || !piece.fits(Some(&*patch), &reads) {
        return None;
    }
    Some(run_piece(piece, Some(patch), &reads))
}

// The number of the patch at this cell.
fn number(patch: &Patch, at: i32) -> Option<i64> {
    let cell = Cell::of1(at);
    if patch.area().contains(&cell) {
        Some(patch.get(&cell))
    } else {
        None
    }
}

// The fault and its position, if it is one.
fn fault(outcome: Outcome) -> Option<(Cell, FaultKind)> {
    match outcome {
        Outcome::Fault { position, kind } => Some((position, kind)),
        _ => None,
    }
}

// The numbers of the cells 0 to 4 and 7.
fn six(patch: &Patch) -> [Option<i64>; 6] {
    [
        number(patch, 0),
        number(patch, 1),
        number(patch, 2),
        number(patch, 3),
        number(patch, 4),
        number(patch, 7),
    ]
}

// Sets the cells from a first to a last one to that quotient. The fault, if there is one, and six of the cells.
fn quotients(
    alloc: Global,
    first: i32,
    last: i32,
) -> Option<(Option<(Cell, FaultKind)>, [Option<i64>; 6])> {
    let code = code_of(alloc, quotient(alloc))?;
    let piece = assigning(alloc, from_to(first, last)?, code)?;
    let mut patch = zeros(alloc)?;
    let fault = fault(run_alone(&piece, &mut patch)?);
    Some((fault, six(&patch)))
}

#[test]
fn a_fault_is_named_by_its_position_in_the_statement(rt: HostRuntime) {
    let fault = Some((Cell::of1(2), FaultKind::ZeroDivisor));
    let numbers = [Some(0), Some(5), Some(0), Some(0), Some(0), Some(0)];
    assert!(rt; quotients(rt.alloc(), 1, 3) == Some((fault, numbers)));
}

#[test]
fn positions_without_a_fault_are_all_set(rt: HostRuntime) {
    let numbers = [Some(0), Some(0), Some(0), Some(-5), Some(-2), Some(-1)];
    assert!(rt; quotients(rt.alloc(), 3, 7) == Some((None, numbers)));
}

// What a piece that reads and writes nothing comes to, where it reduces.
fn partial_of(piece: &Piece) -> Option<Partial> {
    let reads: [Arc<Patch>; 0] = [];
    if !piece.fits(None, &reads) {
        return None;
    }
    let nothing: Option<&mut Patch> = None;
    match run_piece(piece, nothing, &reads) {
        Outcome::Value(partial) => Some(partial),
        _ => None,
    }
}

// What a reduction of the position's number from 2 to 4 comes to.
fn reduced(alloc: Global, reduction: Reduction) -> Option<i64> {
    let code = code_of(alloc, Ok(Expr::Index(0)))?;
    let piece = reducing(alloc, from_to(2, 4)?, reduction, code)?;
    let partial = partial_of(&piece)?;
    if partial.count() == 0 {
        return None;
    }
    partial.finish().ok()
}

#[test]
fn reductions_of_three_numbers(rt: HostRuntime) {
    assert!(rt; reduced(rt.alloc(), Reduction::Sum) == Some(9));
    assert!(rt; reduced(rt.alloc(), Reduction::Min) == Some(2));
}

// The one view that the code reads, if it reads one.
fn one_view(code: &Code) -> Option<View>
    ensures { IfSome result (λ view. views_of code.now ≡ view ∷ []) }
{
    match code.reads() {
        [view] => Some(*view),
        _ => None,
    }
}

// Whether no cell that is set is read at another position.
fn are_apart(view: &View, target: &View) -> bool
    ensures { IsTrue result → IsOverlap view.now target.now → ⊥ }
{
    view.has_positions() && target.has_positions() && !view.overlaps(target)
}

// A piece of statement 3 that sets cells of the target in object 5 to those of the view that the code reads in this object.
fn copying(alloc: Global, positions: BoxN, target: View, code: Code, object: u32) -> Option<Piece>
    requires axes { axes_needed code ≤ 1 }
    requires dims { length positions ≡ 1 }
{
    let view = one_view(&code)?;
    if !are_positions(&positions, &view) || !are_positions(&positions, &target) {
        return None;
    }
    if !are_apart(&view, &target) || object == 5 && view.array() != target.array() {
        return None;
    }
    if positions.count() > MOST_POSITIONS {
        return None;
    }
    let task = Task::Assign { target };
    Piece::new(alloc, 3, positions, task, code, Some(5), &[object]).ok()
}

// The requests of a piece of statement 3 that sets cells of array 0 in object 5 to those of an array that is read in this
// object.
fn requests(alloc: Global, array: u32, object: u32) -> Option<Vec<Request>> {
    let code = code_of(alloc, Ok(Expr::Read(eight(array))))?;
    let piece = copying(alloc, from_to(0, 7)?, eight(0), code, object)?;
    Vec::from_slice(alloc, piece.requests()).ok()
}

// Whether these are the requests, in this order.
fn are_requests(asked: Option<Vec<Request>>, rows: &[(u32, Mode)]) -> bool {
    let Some(asked) = asked else {
        return false;
    };
    for (request, row) in asked.iter().zip(rows) {
        if (request.object, request.mode) != *row {
            return false;
        }
    }
    asked.len() == rows.len()
}

#[test]
fn one_request_for_each_object(rt: HostRuntime) {
    let alloc = rt.alloc();
    let low = &[(2, Mode::Read), (5, Mode::Write)];
    let high = &[(5, Mode::Write), (7, Mode::Read)];
    assert!(rt; are_requests(requests(alloc, 1, 2), low));
    assert!(rt; are_requests(requests(alloc, 1, 7), high));
    assert!(rt; are_requests(requests(alloc, 0, 5), &[(5, Mode::Write)]));
}

// A piece of statement 3 that copies guard cells of array 0 from object 2, which owns them, to object 5.
fn guarding(alloc: Global, positions: BoxN) -> Option<Piece>
    requires dims { length positions ≡ 1 }
{
    let code = code_of(alloc, Ok(Expr::Literal(0)))?;
    let [] = code.reads() else {
        return None;
    };
    if positions.count() > MOST_POSITIONS {
        return None;
    }
    let task = Task::Guard { array: 0 };
    Piece::new(alloc, 3, positions, task, code, Some(5), &[2]).ok()
}

// A patch of cells 4 to 11, each with its own coordinate.
fn coordinates(alloc: Global) -> Option<Patch> {
    let mut patch = Patch::zeros(from_to(4, 11)?);
    Piece::prepared(alloc, &mut patch).ok()?;
    for at in 4..12 {
        let cell = Cell::of1(at);
        if patch.is_one() || !patch.area().contains(&cell) {
            return None;
        }
        patch.set(&cell, i64::from(at));
    }
    Some(patch)
}

// What copying the cells from a first to a last one leaves: six of the cells that are written.
fn guarded(alloc: Global, first: i32, last: i32) -> Option<[Option<i64>; 6]> {
    let piece = guarding(alloc, from_to(first, last)?)?;
    let mut patch = zeros(alloc)?;
    let reads = [Arc::new(alloc, coordinates(alloc)?).ok()?];
    if patch.is_one() || !piece.fits(Some(&patch), &reads) {
        return None;
    }
    let _done = run_piece(&piece, Some(&mut patch), &reads);
    Some(six(&patch))
}

#[test]
fn guard_cells_get_the_numbers_of_their_owner(rt: HostRuntime) {
    let alloc = rt.alloc();
    let zero = Some(0);
    assert!(rt; guarded(alloc, 4, 7) == Some([zero, zero, zero, zero, Some(4), Some(7)]));
    assert!(rt; guarded(alloc, 5, 6) == Some([zero; 6]));
    // the owner's patch does not have cell 3
    assert!(rt; guarded(alloc, 3, 7) == None);
}
