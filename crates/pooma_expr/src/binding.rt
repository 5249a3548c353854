//! The numbers of scalars put into an expression.
ghost use Rattle.std.specs.Prelude.{◌≡◌, ◌≤◌, length, IfOk, IsTrue};
ghost use Rattle.pooma_expr.specs.Trees.{bound, scalars_needed};
ghost use Rattle.pooma_expr.specs.Words.{literals_fit};

use crate::tree::Expr;
use sqlite_items::Boxed;
use std::alloc::{AllocError, Global};

/// The expression with the number of each scalar in its place. Each literal was a number of 64 bits.
#[cycle(bind)]
pub(crate) fn bind(alloc: Global, expr: &Expr, scalars: &[i64]) -> Result<Expr, AllocError>
    requires { scalars_needed expr.now ≤ length scalars.now }
    ensures tree { IfOk result (λ e. e ≡ bound scalars.now expr.now) }
    ensures literals { IfOk result (λ e. IsTrue (literals_fit expr.now)) }
{
    match expr {
        Expr::Literal(x) => Ok(Expr::Literal(*x)),
        Expr::Scalar(number) => Ok(Expr::Literal(scalars[*number as usize])),
        Expr::Index(axis) => Ok(Expr::Index(*axis)),
        Expr::Read(view) => Ok(Expr::Read(*view)),
        Expr::Neg(a) => Ok(Expr::Neg(bind_boxed(alloc, a, scalars)?)),
        Expr::Abs(a) => Ok(Expr::Abs(bind_boxed(alloc, a, scalars)?)),
        Expr::Bin(op, a, b) => {
            let a = bind_boxed(alloc, a, scalars)?;
            Ok(Expr::Bin(*op, a, bind_boxed(alloc, b, scalars)?))
        }
        Expr::Where(c, a, b) => {
            let c = bind_boxed(alloc, c, scalars)?;
            let a = bind_boxed(alloc, a, scalars)?;
            Ok(Expr::Where(c, a, bind_boxed(alloc, b, scalars)?))
        }
    }
}

#[cycle(bind)]
fn bind_boxed(alloc: Global, expr: &Boxed<Expr>, scalars: &[i64]) -> Result<Boxed<Expr>, AllocError>
    requires { scalars_needed expr.now ≤ length scalars.now }
    ensures tree { IfOk result (λ e. e ≡ bound scalars.now expr.now) }
    ensures literals { IfOk result (λ e. IsTrue (literals_fit expr.now)) }
{
    Boxed::new(alloc, bind(alloc, expr.get(), scalars)?)
}
