//! The bodies of stencils.
ghost use Rattle.std.specs.Prelude.{◌≡◌, ◌≤◌, length, All, IfOk};
ghost use Rattle.pooma_script.specs.Bodies.{body_of, offsets_in};

use crate::made::cell_of;
use crate::operators::op_of;
use pooma_parse::RawExpr;
use pooma_stencil::Body;
use sqlite_items::Boxed;
use std::alloc::{AllocError, Global};

/// The body that a line says, as a tree. Its offsets have at most three numbers. Its only error is want of memory.
#[cycle(body)]
pub fn body(alloc: Global, expr: &RawExpr) -> Result<Body, AllocError>
    requires { All (λ offset. length offset ≤ 3) (offsets_in expr.now) }
    ensures { IfOk result (λ made. made ≡ body_of expr.now) }
{
    match expr {
        RawExpr::Number(x) => Ok(Body::Literal(*x)),
        RawExpr::At(offset) => Ok(Body::At(cell_of(offset.as_slice()))),
        RawExpr::Index(_) | RawExpr::View(_) | RawExpr::Apply { .. } => Ok(Body::Literal(0)),
        RawExpr::Neg(a) => Ok(Body::Neg(boxed(alloc, a)?)),
        RawExpr::Abs(a) => Ok(Body::Abs(boxed(alloc, a)?)),
        RawExpr::Bin(op, a, b) => {
            let a = boxed(alloc, a)?;
            Ok(Body::Bin(op_of(*op), a, boxed(alloc, b)?))
        }
        RawExpr::Where(c, a, b) => {
            let c = boxed(alloc, c)?;
            let a = boxed(alloc, a)?;
            Ok(Body::Where(c, a, boxed(alloc, b)?))
        }
    }
}

#[cycle(body)]
/// The same of a part of the body, with memory of its own.
fn boxed(alloc: Global, expr: &Boxed<RawExpr>) -> Result<Boxed<Body>, AllocError>
    requires { All (λ offset. length offset ≤ 3) (offsets_in expr.now) }
    ensures { IfOk result (λ made. made ≡ body_of expr.now) }
{
    Boxed::new(alloc, body(alloc, expr.get())?)
}
