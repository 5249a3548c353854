//! The value of a code at a position.
ghost use Rattle.std.specs.Prelude.{◌≡◌, ℕ, ◌+◌, ◌-◌, ◌<◌, ◌≤◌, [], ◌∷◌, length, drop, Ok, Err, IfOk, IfErr};
ghost use Rattle.pooma_expr.specs.Code.{places_of};
ghost use Rattle.pooma_expr.specs.Machine.{CanRun, CanStep, outcome, step_of};
ghost use Rattle.pooma_expr.specs.Reads.{AgreeWith};
ghost use Rattle.pooma_expr.specs.Trees.{axes_needed, views_of};
ghost use Rattle.pooma_expr.specs.Values.{Contents, value};

use crate::apply::apply;
use crate::code::Code;
use crate::operation::Operation;
use crate::reads::Reads;
use pooma_domain::Cell;
use pooma_num::{FaultKind, abs, neg};

/// The value of a code at a position: its number, or the fault that is met first from left to right. It takes no memory.
///
/// The value is that of the code's expression wherever the reads have at the position what the views' arrays have at the
/// cells that the views name there.
pub fn eval_at<R: Reads>(code: &Code, reads: &R, p: &Cell) -> Result<i64, FaultKind>
    requires axes { axes_needed code.now ≤ length p.now }
    requires reads { (read : ℕ) → read < length (views_of code.now) → R.can_ask reads.now read p.now }
    ensures { (has : Contents) → AgreeWith has (views_of code.now) p.now (R.number reads.now) → result ≡ value [] has code.now p.now }
{
    let places = code.places();
    if places <= 4 {
        eval_in::<R, 4>(code, reads, p)
    } else if places <= 16 {
        eval_in::<R, 16>(code, reads, p)
    } else if places <= 64 {
        eval_in::<R, 64>(code, reads, p)
    } else {
        eval_in::<R, 256>(code, reads, p)
    }
}

// The same on a stack of this many places. A short code takes few, so that few are cleared for it.
fn eval_in<R: Reads, const PLACES: usize>(
    code: &Code,
    reads: &R,
    p: &Cell,
) -> Result<i64, FaultKind>
    requires few { PLACES ≤ 256 }
    requires places { places_of code.now ≤ PLACES }
    requires axes { axes_needed code.now ≤ length p.now }
    requires reads { (read : ℕ) → read < length (views_of code.now) → R.can_ask reads.now read p.now }
    ensures { (has : Contents) → AgreeWith has (views_of code.now) p.now (R.number reads.now) → result ≡ value [] has code.now p.now }
{
    let mut places = [0; PLACES];
    run(code.operations(), reads, p, &mut places)
}

// What comes after an operation: how many of the next ones are passed over, and the place of the top number.
#[derive(Clone, Copy)]
struct Next {
    passed: usize,
    top: usize,
}

// The number at this place of a stack that is the end of these places.
fn number_at(places: &[i64], top: usize) -> i64
    requires { 0 < length (drop top places.now) }
    ensures { drop top places.now ≡ result ∷ drop (top + 1) places.now }
{
    places[top]
}

// Puts a number on a stack that is the end of these places, from its top on.
fn push(places: &mut [i64], top: usize, x: i64) -> Next
    requires { (0 < top) × (top ≤ length places.old) }
    ensures passed { result.passed ≡ 0 }
    ensures within { result.top ≤ length places.new }
    ensures stack { drop result.top places.new ≡ x ∷ drop top places.old }
{
    places[top - 1] = x;
    Next {
        passed: 0,
        top: top - 1,
    }
}

// Does one operation on a stack that is the end of these places, from its top on.
fn step<R: Reads>(
    operation: Operation,
    reads: &R,
    p: &Cell,
    places: &mut [i64],
    top: usize,
) -> Result<Next, FaultKind>
    requires within { top ≤ length places.old }
    requires can { CanStep (λ read. R.can_ask reads.now read p.now) (length p.now) (length places.old) operation (length (drop top places.old)) }
    ensures within { IfOk result (λ next. next.top ≤ length places.new) }
    ensures ok { IfOk result (λ next. step_of (λ read. R.number reads.now read p.now) p.now operation (drop top places.old) ≡ Ok (next.passed, drop next.top places.new)) }
    ensures err { IfErr result (λ fault. step_of (λ read. R.number reads.now read p.now) p.now operation (drop top places.old) ≡ Err fault) }
{
    match operation {
        Operation::Push(x) => Ok(push(places, top, x)),
        Operation::PushIndex(axis) => {
            let x = i64::from(p.at(axis as usize));
            Ok(push(places, top, x))
        }
        Operation::PushRead(read) => {
            let x = reads.value(read, p);
            Ok(push(places, top, x))
        }
        Operation::Negate => {
            let x = neg(number_at(places, top))?;
            Ok(push(places, top + 1, x))
        }
        Operation::Absolute => {
            let x = abs(number_at(places, top))?;
            Ok(push(places, top + 1, x))
        }
        Operation::Apply(op) => {
            let y = number_at(places, top);
            let x = number_at(places, top + 1);
            let z = apply(op, x, y)?;
            Ok(push(places, top + 2, z))
        }
        Operation::SkipIfZero(count) => {
            let x = number_at(places, top);
            Ok(Next {
                passed: if x == 0 { count } else { 0 },
                top: top + 1,
            })
        }
        Operation::Skip(count) => Ok(Next { passed: count, top }),
    }
}

// What the operations come to, on a stack of these places.
fn run<R: Reads>(
    operations: &[Operation],
    reads: &R,
    p: &Cell,
    places: &mut [i64],
) -> Result<i64, FaultKind>
    requires { CanRun (λ read. R.can_ask reads.now read p.now) (length p.now) (length places.old) operations.now 0 0 }
    ensures { result ≡ outcome (λ read. R.number reads.now read p.now) p.now operations.now 0 [] }
{
    let mut top = places.len();
    let mut at = 0;
    while at < operations.len() {
        let next = step(operations[at], reads, p, places, top)?;
        at += 1 + next.passed;
        top = next.top;
    }
    Ok(number_at(places, top))
}
