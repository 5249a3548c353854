//! Expressions and reductions: worked values and faults, with memory enough for each code.
ghost use Rattle.std.specs.Prelude.{◌≡◌, IfSome};

use crate::numbers::Numbers;
use pooma_domain::{Cell, Strided};
use pooma_expr::{Code, Expr, Op, Operand, Partial, Reduction, Single, eval_at};
use pooma_num::FaultKind::{self, Overflow, ZeroDivisor};
use pooma_view::{Slot, View};
use sqlite_items::Boxed;
use std::alloc::{AllocError, Global};

const MOST: i64 = i64::MAX;

fn bin(alloc: Global, op: Op, a: Expr, b: Expr) -> Result<Expr, AllocError> {
    Ok(Expr::Bin(op, Boxed::new(alloc, a)?, Boxed::new(alloc, b)?))
}

fn neg(alloc: Global, a: Expr) -> Result<Expr, AllocError> {
    Ok(Expr::Neg(Boxed::new(alloc, a)?))
}

fn choice(alloc: Global, c: Expr, a: Expr, b: Expr) -> Result<Expr, AllocError> {
    let c = Boxed::new(alloc, c)?;
    Ok(Expr::Where(c, Boxed::new(alloc, a)?, Boxed::new(alloc, b)?))
}

// The value at a position by a code that shares another's, where the scalars and the reads have these numbers. None where
// the expression is too deep, or has more reads, scalars or axes.
fn value(
    alloc: Global,
    expr: &Expr,
    scalars: &[i64],
    numbers: &[i64],
    p: &Cell,
) -> Result<Option<Result<i64, FaultKind>>, AllocError> {
    if !expr.is_within_depth(256) {
        return Ok(None);
    }
    if expr.reads_left(64).is_none() {
        return Ok(None);
    }
    if expr.scalars_needed() > scalars.len() {
        return Ok(None);
    }
    if expr.axes_needed() > p.dims() {
        return Ok(None);
    }
    let code = Code::of(alloc, expr, scalars)?.shared()?;
    Ok(Some(eval_at(&code, &Numbers { numbers }, p)))
}

// The value of an expression without reads and scalars, if there is memory for it.
fn alone(
    alloc: Global,
    expr: Result<Expr, AllocError>,
    p: &Cell,
) -> Result<Option<Result<i64, FaultKind>>, AllocError> {
    value(alloc, &expr?, &[], &[], p)
}

// `(-MOST - 1) / -1`
fn least_by_minus_one(alloc: Global) -> Result<Expr, AllocError> {
    let most = neg(alloc, Expr::Literal(MOST))?;
    let least = bin(alloc, Op::Sub, most, Expr::Literal(1))?;
    let one = neg(alloc, Expr::Literal(1))?;
    bin(alloc, Op::Div, least, one)
}

// `where(0, 1 / 0, 5)`
fn other_branch(alloc: Global) -> Result<Expr, AllocError> {
    let fault = bin(alloc, Op::Div, Expr::Literal(1), Expr::Literal(0))?;
    choice(alloc, Expr::Literal(0), fault, Expr::Literal(5))
}

// `1 / 0 + (MOST + 1)`
fn two_faults(alloc: Global) -> Result<Expr, AllocError> {
    let first = bin(alloc, Op::Div, Expr::Literal(1), Expr::Literal(0))?;
    let second = bin(alloc, Op::Add, Expr::Literal(MOST), Expr::Literal(1))?;
    bin(alloc, Op::Add, first, second)
}

#[test]
fn faults_without_a_position(rt: HostRuntime) {
    let alloc = rt.alloc();
    let at = Cell::none();
    let zero = bin(alloc, Op::Rem, Expr::Literal(5), Expr::Literal(0));
    let values = [
        alone(alloc, least_by_minus_one(alloc), &at),
        alone(alloc, zero, &at),
        alone(alloc, two_faults(alloc), &at),
        alone(alloc, other_branch(alloc), &at),
    ];
    assert!(rt;
        values
            == [
                Ok(Some(Err(Overflow))),
                Ok(Some(Err(ZeroDivisor))),
                Ok(Some(Err(ZeroDivisor))),
                Ok(Some(Ok(5)))
            ]
    );
}

// `5 / (2 - index(0))`
fn quotient(alloc: Global) -> Result<Expr, AllocError> {
    let divisor = bin(alloc, Op::Sub, Expr::Literal(2), Expr::Index(0))?;
    bin(alloc, Op::Div, Expr::Literal(5), divisor)
}

// `-MOST - index(0)`
fn below(alloc: Global) -> Result<Expr, AllocError> {
    let low = neg(alloc, Expr::Literal(MOST))?;
    bin(alloc, Op::Sub, low, Expr::Index(0))
}

// A number for `index(0)`, and the values of these two.
const BY_POSITION: &[(i32, Result<i64, FaultKind>, Result<i64, FaultKind>)] = &[
    (0, Ok(2), Ok(-MOST)),
    (1, Ok(5), Ok(i64::MIN)),
    (2, Err(ZeroDivisor), Err(Overflow)),
    (3, Ok(-5), Err(Overflow)),
];

#[test]
fn values_at_positions(rt: HostRuntime) {
    let alloc = rt.alloc();
    for (x, by, under) in BY_POSITION {
        let at = Cell::of1(*x);
        assert_eq!(rt; alone(alloc, quotient(alloc), &at), Ok(Some(*by)));
        assert_eq!(rt; alone(alloc, below(alloc), &at), Ok(Some(*under)));
    }
    assert!(rt; alone(alloc, quotient(alloc), &Cell::none()) == Ok(None));
}

// The read of the numbers 0 to 9 of an array.
fn read(array: u32) -> Expr {
    let row = Strided {
        first: 0,
        stride: 1,
        count: 10,
    };
    Expr::Read(View::new(array, &[Slot::Along(row)]))
}

// The value of `B + C * s`, where these are the numbers of the scalars, of which `s` is the second.
fn by_scalar(alloc: Global, scalars: &[i64]) -> Result<Option<Result<i64, FaultKind>>, AllocError> {
    let product = bin(alloc, Op::Mul, read(1), Expr::Scalar(1))?;
    let sum = bin(alloc, Op::Add, read(0), product)?;
    value(alloc, &sum, scalars, &[5, 7], &Cell::of1(4))
}

#[test]
fn reads_and_scalars_in_the_order_of_the_text(rt: HostRuntime) {
    assert!(rt; by_scalar(rt.alloc(), &[9, 3]) == Ok(Some(Ok(26))));
    assert!(rt; by_scalar(rt.alloc(), &[9]) == Ok(None));
}

// A reduction of which these numbers are done. None where they are more than some.
fn partial_of(reduction: Reduction, numbers: &[i64]) -> Option<Partial>
    ensures { IfSome result (λ part. part.reduction ≡ reduction) }
{
    let mut part = Partial::start(reduction);
    for x in numbers {
        if part.count() >= 1000 {
            return None;
        }
        part.push(*x);
    }
    Some(part)
}

// The reduction of two lists of numbers, one after the other, of which each is reduced alone. None where there is no number.
fn reduced(reduction: Reduction, low: &[i64], high: &[i64]) -> Option<Result<i64, FaultKind>> {
    let mut first = partial_of(reduction, low)?;
    let second = partial_of(reduction, high)?;
    let count = first.count() + second.count();
    if count == 0 || count > 2000 {
        return None;
    }
    first.merge(second);
    Some(first.finish())
}

// What each reduction of -2, -1 and 0, 1, 2, 3 comes to.
const REDUCTIONS: &[(Reduction, i64)] = &[
    (Reduction::Sum, 3),
    (Reduction::Min, -2),
    (Reduction::Max, 3),
    (Reduction::All, 0),
    (Reduction::Any, 1),
    (Reduction::Count, 5),
    (Reduction::BitAnd, 0),
    (Reduction::BitOr, -1),
];

#[test]
fn reductions_of_a_list_in_two_parts(rt: HostRuntime) {
    for (reduction, value) in REDUCTIONS {
        assert_eq!(rt;
            (reduction, reduced(*reduction, &[-2, -1], &[0, 1, 2, 3])),
            (reduction, Some(Ok(*value)))
        );
    }
}

#[test]
fn only_the_whole_sum_has_to_fit(rt: HostRuntime) {
    let values = [
        reduced(Reduction::Sum, &[MOST, MOST], &[-MOST]),
        reduced(Reduction::Sum, &[MOST], &[1, 0]),
        reduced(Reduction::Min, &[], &[4]),
        reduced(Reduction::Min, &[], &[]),
    ];
    assert!(rt; values == [Some(Ok(MOST)), Some(Err(Overflow)), Some(Ok(4)), None]);
}

// The reduction of these numbers, put in as a row behind the first of them. None where they are more than some.
fn reduced_by_row(
    reduction: Reduction,
    first: i64,
    rest: &[i64],
) -> Option<Result<i64, FaultKind>> {
    if rest.len() > 1000 {
        return None;
    }
    let mut part = Partial::start(reduction);
    part.push(first);
    part.push_row(rest);
    Some(part.finish())
}

#[test]
fn a_row_is_as_its_numbers(rt: HostRuntime) {
    for (reduction, value) in REDUCTIONS {
        assert_eq!(rt;
            (reduction, reduced_by_row(*reduction, -2, &[-1, 0, 1, 2, 3])),
            (reduction, Some(Ok(*value)))
        );
    }
}

// The one operation of an expression of few operands, with 5 for its scalar.
fn single(alloc: Global, expr: &Expr) -> Result<Option<Single>, AllocError> {
    if !expr.is_within_depth(256) || expr.scalars_needed() > 1 {
        return Ok(None);
    }
    if expr.reads_left(64).is_none() {
        return Ok(None);
    }
    let code = Code::of(alloc, expr, &[5])?;
    Ok(code.single())
}

fn one_cell() -> Expr {
    Expr::Read(View::new(0, &[Slot::Fixed(1)]))
}

// Of `A + 1`, of `A + 1 + 1`, and of a scalar below A.
fn singles(alloc: Global) -> Result<[Option<Single>; 3], AllocError> {
    let more = bin(alloc, Op::Add, one_cell(), Expr::Literal(1))?;
    let first = single(alloc, &more)?;
    let twice = bin(alloc, Op::Add, more, Expr::Literal(1))?;
    let second = single(alloc, &twice)?;
    let below = bin(alloc, Op::Less, Expr::Scalar(0), one_cell())?;
    Ok([first, second, single(alloc, &below)?])
}

// Of a product, of literals alone, and of a read alone.
fn others(alloc: Global) -> Result<[Option<Single>; 3], AllocError> {
    let product = bin(alloc, Op::Mul, one_cell(), Expr::Literal(2))?;
    let first = single(alloc, &product)?;
    let literals = bin(alloc, Op::Add, Expr::Literal(1), Expr::Literal(2))?;
    let second = single(alloc, &literals)?;
    Ok([first, second, single(alloc, &one_cell())?])
}

#[test]
fn one_operation_on_reads_and_literals(rt: HostRuntime) {
    let more = Single {
        op: Op::Add,
        left: Operand::Read(0),
        right: Operand::Literal(1),
    };
    let below = Single {
        op: Op::Less,
        left: Operand::Literal(5),
        right: Operand::Read(0),
    };
    assert!(rt; singles(rt.alloc()) == Ok([Some(more), None, Some(below)]));
    assert!(rt; others(rt.alloc()) == Ok([None; 3]));
}
