//! The whole value of an assignment, with its mask.
ghost use Rattle.std.specs.Prelude.{◌≡◌, ◌≤◌, Some, length, IfOk, IsTrue};
ghost use Rattle.pooma_expr.specs.Trees.{axes_needed, bound, depth_of, scalars_needed, views_of};
ghost use Rattle.pooma_expr.specs.Words.{literals_fit};
ghost use Rattle.pooma_model.specs.Assigning.{whole_value};

use pooma_expr::{Code, Expr};
use pooma_view::View;
use sqlite_items::Boxed;
use std::alloc::{AllocError, Global};

#[cycle(copied)]
fn copied(alloc: Global, expr: &Expr) -> Result<Expr, AllocError>
    ensures { IfOk result (λ e. e ≡ expr.now) }
{
    match expr {
        Expr::Literal(x) => Ok(Expr::Literal(*x)),
        Expr::Scalar(number) => Ok(Expr::Scalar(*number)),
        Expr::Index(axis) => Ok(Expr::Index(*axis)),
        Expr::Read(view) => Ok(Expr::Read(*view)),
        Expr::Neg(a) => Ok(Expr::Neg(copied_boxed(alloc, a)?)),
        Expr::Abs(a) => Ok(Expr::Abs(copied_boxed(alloc, a)?)),
        Expr::Bin(op, a, b) => {
            let a = copied_boxed(alloc, a)?;
            Ok(Expr::Bin(*op, a, copied_boxed(alloc, b)?))
        }
        Expr::Where(c, a, b) => {
            let c = copied_boxed(alloc, c)?;
            let a = copied_boxed(alloc, a)?;
            Ok(Expr::Where(c, a, copied_boxed(alloc, b)?))
        }
    }
}

#[cycle(copied)]
fn copied_boxed(alloc: Global, expr: &Boxed<Expr>) -> Result<Boxed<Expr>, AllocError>
    ensures { IfOk result (λ e. e ≡ expr.now) }
{
    Boxed::new(alloc, copied(alloc, expr.get())?)
}

// The value where the mask is not 0, and else what the target has.
fn masked(alloc: Global, target: View, value: &Expr, mask: &Expr) -> Result<Expr, AllocError>
    ensures { IfOk result (λ e. e ≡ whole_value target value.now (Some mask.now)) }
{
    let mask = Boxed::new(alloc, copied(alloc, mask)?)?;
    let value = Boxed::new(alloc, copied(alloc, value)?)?;
    let here = Boxed::new(alloc, Expr::Read(target))?;
    Ok(Expr::Where(mask, value, here))
}

/// The code of the whole value of an assignment.
pub(crate) fn code_of(
    alloc: Global,
    target: View,
    value: &Expr,
    mask: &Option<Expr>,
    scalars: &[i64],
) -> Result<Code, AllocError>
    requires depth { depth_of (whole_value target value.now mask.now) ≤ 256 }
    requires reads { length (views_of (whole_value target value.now mask.now)) ≤ 64 }
    requires scalars { scalars_needed (whole_value target value.now mask.now) ≤ length scalars.now }
    ensures tree { IfOk result (λ code. code ≡ bound scalars.now (whole_value target value.now mask.now)) }
    ensures views { IfOk result (λ code. views_of code ≡ views_of (whole_value target value.now mask.now)) }
    ensures axes { IfOk result (λ code. axes_needed code ≡ axes_needed (whole_value target value.now mask.now)) }
    ensures literals { IfOk result (λ code. IsTrue (literals_fit (whole_value target value.now mask.now))) }
{
    match mask {
        None => Code::of(alloc, value, scalars),
        Some(mask) => {
            let whole = masked(alloc, target, value, mask)?;
            Code::of(alloc, &whole, scalars)
        }
    }
}
