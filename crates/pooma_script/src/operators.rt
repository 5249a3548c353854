//! The operators, updaters and reductions of a line as those of a program.
ghost use Rattle.std.specs.Prelude.{◌≡◌, IfOk};
ghost use Rattle.pooma_script.specs.Operators.{op_of, reduction_of, updater_of};
ghost use Rattle.pooma_script.specs.Statements.{joined};

use pooma_expr::{Expr, Op, Reduction};
use pooma_field::Updater;
use pooma_parse::{RawAssign, RawOp, Updater4};
use pooma_view::View;
use sqlite_items::Boxed;
use std::alloc::{AllocError, Global};

/// The operator of an expression's tree.
pub fn op_of(op: RawOp) -> Op
    ensures { result ≡ op_of op }
{
    match op {
        RawOp::Add => Op::Add,
        RawOp::Sub => Op::Sub,
        RawOp::Mul => Op::Mul,
        RawOp::Div => Op::Div,
        RawOp::Rem => Op::Rem,
        RawOp::Min => Op::Min,
        RawOp::Max => Op::Max,
        RawOp::Less => Op::Less,
        RawOp::LessEq => Op::LessEq,
        RawOp::Greater => Op::Greater,
        RawOp::GreaterEq => Op::GreaterEq,
        RawOp::Equal => Op::Equal,
        RawOp::Unequal => Op::Unequal,
        RawOp::BitAnd => Op::BitAnd,
        RawOp::BitOr => Op::BitOr,
    }
}

/// The updater of a field's face.
pub fn updater_of(updater: Updater4) -> Updater
    ensures { result ≡ updater_of updater }
{
    match updater {
        Updater4::Constant(number) => Updater::Constant(number),
        Updater4::Periodic => Updater::Periodic,
        Updater4::Reflect => Updater::Reflect,
        Updater4::Antireflect => Updater::Antireflect,
        Updater4::Extrapolate => Updater::Extrapolate,
    }
}

/// The reduction of a word. The grammar has these eight.
pub fn reduction_of(word: &[u8]) -> Reduction
    ensures { result ≡ reduction_of word.now }
{
    if word == b"sum".as_slice() {
        Reduction::Sum
    } else if word == b"min".as_slice() {
        Reduction::Min
    } else if word == b"max".as_slice() {
        Reduction::Max
    } else if word == b"all".as_slice() {
        Reduction::All
    } else if word == b"any".as_slice() {
        Reduction::Any
    } else if word == b"count".as_slice() {
        Reduction::Count
    } else if word == b"bitand".as_slice() {
        Reduction::BitAnd
    } else {
        Reduction::BitOr
    }
}

/// What the target was, with what the operator joins to it. Its only error is want of memory.
fn with_target(alloc: Global, op: Op, target: View, value: Expr) -> Result<Expr, AllocError>
    ensures { IfOk result (λ made. made ≡ Expr.Bin op (Expr.Read target) value) }
{
    let old = Boxed::new(alloc, Expr::Read(target))?;
    Ok(Expr::Bin(op, old, Boxed::new(alloc, value)?))
}

/// The value that an assignment gives: `V += E` gives `V + (E)`, and so the others. Its only error is want of memory.
pub fn joined(alloc: Global, op: RawAssign, target: View, value: Expr) -> Result<Expr, AllocError>
    ensures { IfOk result (λ made. made ≡ joined op target value) }
{
    match op {
        RawAssign::Plain => Ok(value),
        RawAssign::Add => with_target(alloc, Op::Add, target, value),
        RawAssign::Sub => with_target(alloc, Op::Sub, target, value),
        RawAssign::Mul => with_target(alloc, Op::Mul, target, value),
    }
}
