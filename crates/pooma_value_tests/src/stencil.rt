//! Stencils: what the expression of a stencil on a view is worth, and the views for which it has a result.
ghost use Rattle.std.specs.Prelude.{◌≡◌, IfOk, IfSome};
ghost use Rattle.pooma_expr.specs.Trees.{axes_needed};

use crate::numbers::Numbers;
use pooma_domain::{Axis, BoxN, Cell, Strided};
use pooma_expr::{Code, Op, eval_at};
use pooma_num::FaultKind;
use pooma_stencil::{Body, Stencil};
use pooma_view::{Slot, View};
use sqlite_items::Boxed;
use std::alloc::{AllocError, Global};

fn bin(alloc: Global, op: Op, a: Body, b: Body) -> Result<Body, AllocError> {
    Ok(Body::Bin(op, Boxed::new(alloc, a)?, Boxed::new(alloc, b)?))
}

// `@(-1,0) + @(1,0) + @(0,-1) + @(0,1) - 4 * @(0,0)`
fn five_points(alloc: Global) -> Result<Body, AllocError> {
    let row = bin(
        alloc,
        Op::Add,
        Body::At(Cell::of2(-1, 0)),
        Body::At(Cell::of2(1, 0)),
    )?;
    let three = bin(alloc, Op::Add, row, Body::At(Cell::of2(0, -1)))?;
    let four = bin(alloc, Op::Add, three, Body::At(Cell::of2(0, 1)))?;
    let middle = bin(alloc, Op::Mul, Body::Literal(4), Body::At(Cell::of2(0, 0)))?;
    bin(alloc, Op::Sub, four, middle)
}

// The numbers from a first one on that go along an axis.
fn row(first: i32, count: u32) -> Option<Slot> {
    if first < -99 || first > 99 || count == 0 || count > 99 {
        return None;
    }
    let numbers = Strided {
        first,
        stride: 1,
        count,
    };
    Some(Slot::Along(numbers))
}

// The stencil of this body with extents of 1 on each of its axes, of which there are one or two. None where it goes further.
fn by_one(dims: usize, body: Body) -> Option<Stencil> {
    let extents = if dims == 1 {
        Cell::of1(1)
    } else {
        Cell::of2(1, 1)
    };
    if !body.is_within(&extents, &extents) {
        return None;
    }
    Some(Stencil::new(extents, extents, body))
}

// The code of the stencil on the view. None where it has no result there.
fn code_on(alloc: Global, stencil: &Stencil, view: &View) -> Result<Option<Code>, AllocError>
    ensures { IfOk result (λ found. IfSome found (λ code. axes_needed code ≡ 0)) }
{
    if !view.has_positions() {
        return Ok(None);
    }
    let positions = view.positions();
    if positions.dims() != stencil.dims() {
        return Ok(None);
    }
    if stencil.result(&positions).is_none() {
        return Ok(None);
    }
    let expr = stencil.expand(alloc, view)?;
    if !expr.is_within_depth(256) {
        return Ok(None);
    }
    if expr.reads_left(64).is_none() {
        return Ok(None);
    }
    Ok(Some(Code::of(alloc, &expr, &[])?))
}

// The cell that the view names at this position. None where it is no position of it.
fn cell_of(view: &View, p: &Cell) -> Option<Cell> {
    if !view.has_positions() {
        return None;
    }
    if !view.positions().contains(p) {
        return None;
    }
    Some(view.cell(p))
}

// 1 where the view names the cell (1,1) at this position, and else 0.
fn spike(view: &View, p: &Cell) -> i64 {
    match cell_of(view, p) {
        Some(cell) => { if cell == Cell::of2(1, 1) { 1 } else { 0 } }
        None => 9,
    }
}

// The value of a code of five reads at a position, where the array has 1 at the cell (1,1) and else 0.
fn value_about_a_spike(code: &Code, p: &Cell) -> Option<Result<i64, FaultKind>>
    requires { axes_needed code.now ≡ 0 }
{
    let [a, b, c, d, e] = code.reads() else {
        return None;
    };
    let numbers = [
        spike(a, p),
        spike(b, p),
        spike(c, p),
        spike(d, p),
        spike(e, p),
    ];
    Some(eval_at(code, &Numbers { numbers: &numbers }, p))
}

// The code of the five points of a plane of six numbers on each axis.
fn five_points_code(alloc: Global) -> Result<Option<Code>, AllocError>
    ensures { IfOk result (λ found. IfSome found (λ code. axes_needed code ≡ 0)) }
{
    let (Some(stencil), Some(along)) = (by_one(2, five_points(alloc)?), row(-1, 6)) else {
        return Ok(None);
    };
    code_on(alloc, &stencil, &View::new(0, &[along, along]))
}

// The positions 0 to 3 on each axis, row by row, and the value there, where the array has 1 at the cell (1,1) and else 0.
const ABOUT_A_SPIKE: &[(i32, i32, i64)] = &[
    (0, 0, 0),
    (1, 0, 1),
    (2, 0, 0),
    (3, 0, 0),
    (0, 1, 1),
    (1, 1, -4),
    (2, 1, 1),
    (3, 1, 0),
    (0, 2, 0),
    (1, 2, 1),
    (2, 2, 0),
    (3, 2, 0),
    (0, 3, 0),
    (1, 3, 0),
    (2, 3, 0),
    (3, 3, 0),
];

// The first of these positions that has another value.
fn first_other(code: &Code) -> Option<(i32, i32)>
    requires { axes_needed code.now ≡ 0 }
{
    for (x, y, value) in ABOUT_A_SPIKE {
        if value_about_a_spike(code, &Cell::of2(*x, *y)) != Some(Ok(*value)) {
            return Some((*x, *y));
        }
    }
    None
}

// Whether the code is there, and all positions have their values.
fn is_as_in_the_table(alloc: Global) -> Result<bool, AllocError> {
    match five_points_code(alloc)? {
        Some(code) => Ok(first_other(&code).is_none()),
        None => Ok(false),
    }
}

#[test]
fn five_points_about_a_spike(rt: HostRuntime) {
    assert!(rt; is_as_in_the_table(rt.alloc()) == Ok(true));
}

// `@(1) - @(-1)`
fn difference(alloc: Global) -> Result<Body, AllocError> {
    bin(
        alloc,
        Op::Sub,
        Body::At(Cell::of1(1)),
        Body::At(Cell::of1(-1)),
    )
}

// The code of that difference along so many numbers of the third row of an array.
fn difference_code(alloc: Global, count: u32) -> Result<Option<Code>, AllocError> {
    let (Some(stencil), Some(along)) = (by_one(1, difference(alloc)?), row(0, count)) else {
        return Ok(None);
    };
    code_on(alloc, &stencil, &View::new(0, &[Slot::Fixed(3), along]))
}

// The two cells that a code of two reads has at its first position.
fn cells_at_first(code: &Code) -> Option<(Cell, Cell)> {
    let first = Cell::of1(0);
    let [a, b] = code.reads() else {
        return None;
    };
    Some((cell_of(a, &first)?, cell_of(b, &first)?))
}

// These cells of the difference, if it has a result.
fn first_cells(alloc: Global, count: u32) -> Result<Option<(Cell, Cell)>, AllocError> {
    match difference_code(alloc, count)? {
        Some(code) => Ok(cells_at_first(&code)),
        None => Ok(None),
    }
}

#[test]
fn extents_act_on_the_slots_that_go_along(rt: HostRuntime) {
    assert!(rt; first_cells(rt.alloc(), 8) == Ok(Some((Cell::of2(3, 2), Cell::of2(3, 0)))));
    assert!(rt; first_cells(rt.alloc(), 2) == Ok(None));
}

// The last position of a stencil's result on so many positions. None where it has no result.
fn last_position(lower: i32, upper: i32, last: i32) -> Option<i32> {
    if lower < 0 || lower > 8 || upper < 0 || upper > 8 {
        return None;
    }
    let stencil = Stencil::new(Cell::of1(lower), Cell::of1(upper), Body::Literal(5));
    let result = stencil.result(&BoxN::of1(Axis::of(0, last)?))?;
    Some(result.axis(0).last)
}

// The extents, the last position, and the last one of the result.
const SHORTENED: &[(i32, i32, i32, Option<i32>)] = &[
    (0, 0, 0, Some(0)),
    (1, 2, 9, Some(6)),
    (8, 8, 16, Some(0)),
    (8, 8, 15, None),
    (0, 1, 0, None),
];

#[test]
fn extents_shorten_the_result(rt: HostRuntime) {
    for (lower, upper, last, found) in SHORTENED {
        assert_eq!(rt;
            (lower, upper, last, last_position(*lower, *upper, *last)),
            (lower, upper, last, *found)
        );
    }
}
