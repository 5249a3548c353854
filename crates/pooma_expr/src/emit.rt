//! From an expression to the operations of a code.
ghost use Rattle.std.specs.Prelude.{◌≡◌, ◌≤◌, [], ◌∷◌, ◌++◌, length, OnOk};
ghost use Rattle.pooma_expr.specs.Code.{emitted, places_of};
ghost use Rattle.pooma_expr.specs.Trees.{depth_of, scalars_needed, views_of};

use crate::operation::Operation;
use crate::tree::Expr;
use pooma_view::View;
use std::alloc::{AllocError, Global};

impl Expr {
    /// How high the stack gets while the expression is evaluated.
    pub(crate) fn places(&self) -> u32
        requires { depth_of self.now ≤ 256 }
        ensures places { result ≡ places_of self.now }
        ensures most { result ≤ depth_of self.now }
    {
        match self {
            Expr::Literal(_) | Expr::Scalar(_) | Expr::Index(_) | Expr::Read(_) => 1,
            Expr::Neg(a) | Expr::Abs(a) => a.get().places(),
            Expr::Bin(_, a, b) => a.get().places().max(b.get().places() + 1),
            Expr::Where(c, a, b) => {
                let branches = a.get().places().max(b.get().places());
                c.get().places().max(branches)
            }
        }
    }
}

/// Puts the operations of an expression without scalars at the end of the code, and its views at the end of the reads.
pub(crate) fn emit(
    alloc: Global,
    code: &mut Vec<Operation>,
    reads: &mut Vec<View>,
    expr: &Expr,
) -> Result<(), AllocError>
    requires { scalars_needed expr.now ≤ 0 }
    ensures code { OnOk result (code.new.items ≡ code.old.items ++ (emitted expr.now (length reads.old.items)).operations) }
    ensures reads { OnOk result (reads.new.items ≡ reads.old.items ++ views_of expr.now) }
    ensures next { OnOk result (length reads.new.items ≡ (emitted expr.now (length reads.old.items)).next) }
{
    match expr {
        Expr::Literal(x) => put(alloc, code, Operation::Push(*x)),
        Expr::Scalar(_) => unreachable!(),
        Expr::Index(axis) => put(alloc, code, Operation::PushIndex(*axis)),
        Expr::Read(view) => {
            put(alloc, code, Operation::PushRead(reads.len()))?;
            reads.push(*view)?;
            Ok(())
        }
        Expr::Neg(a) => {
            emit(alloc, code, reads, a.get())?;
            put(alloc, code, Operation::Negate)
        }
        Expr::Abs(a) => {
            emit(alloc, code, reads, a.get())?;
            put(alloc, code, Operation::Absolute)
        }
        Expr::Bin(op, a, b) => {
            emit(alloc, code, reads, a.get())?;
            emit(alloc, code, reads, b.get())?;
            put(alloc, code, Operation::Apply(*op))
        }
        Expr::Where(c, a, b) => {
            emit(alloc, code, reads, c.get())?;
            let test_end = code.len();
            put(alloc, code, Operation::SkipIfZero(0))?;
            emit(alloc, code, reads, a.get())?;
            let first_end = code.len();
            put(alloc, code, Operation::Skip(0))?;
            emit(alloc, code, reads, b.get())?;
            code[test_end] = Operation::SkipIfZero(first_end - test_end);
            code[first_end] = Operation::Skip(code.len() - first_end - 1);
            Ok(())
        }
    }
}

// One more operation.
fn put(_alloc: Global, code: &mut Vec<Operation>, operation: Operation) -> Result<(), AllocError>
    ensures { OnOk result (code.new.items ≡ code.old.items ++ operation ∷ []) }
{
    code.push(operation)?;
    Ok(())
}
