//! The expression of a line as the tree of a program.
ghost use Rattle.std.specs.Prelude.{◌≡◌, ◌+◌, ◌≤◌, All, IsTrue, IfOk, None, Some};
ghost use Rattle.pooma_domain.specs.Cells.{count_of};
ghost use Rattle.pooma_script.specs.Known.{declared_in, is_array, is_stencil, named_at, stencil_named};
ghost use Rattle.pooma_script.specs.Trees.{is_readable, leaf, tree_of, unless_scalar};
ghost use Rattle.pooma_script.specs.Views.{reading_of, view_of};
ghost use Rattle.pooma_check.specs.Kept.{IsKept, known_of};
ghost use Rattle.pooma_check.specs.Readings.{IsSoundReading};
ghost use Rattle.pooma_check.specs.Seen.{CanMake};
ghost use Rattle.pooma_stencil.specs.Expansions.{expansion};

use crate::cells::view_at;
use crate::known::Known;
use crate::lookup::stencil_at;
use pooma_expr::Expr;
use pooma_parse::{RawExpr, RawView};
use pooma_script::names::Named;
use pooma_script::operators::op_of;
use pooma_text::Span;
use sqlite_items::Boxed;
use std::alloc::{AllocError, Global};

/// The tree of an expression of which all that it reads can be read. Its only error is want of memory.
#[cycle(tree)]
pub fn tree(
    alloc: Global,
    known: &Known<'_>,
    text: &[u8],
    expr: &RawExpr,
) -> Result<Expr, AllocError>
    requires kept { IsKept known.now }
    requires can { CanMake (known_of known.now) text.now expr.now }
    ensures { IfOk result (λ made. made ≡ tree_of (known_of known.now) text.now expr.now) }
{
    match expr {
        RawExpr::Number(x) => Ok(Expr::Literal(*x)),
        RawExpr::Index(axis) => Ok(Expr::Index(index_of(*axis))),
        RawExpr::At(_) => Ok(Expr::Literal(0)),
        RawExpr::View(seen) => Ok(read(known, text, seen)),
        RawExpr::Apply { stencil, view } => apply(alloc, known, text, *stencil, view),
        RawExpr::Neg(a) => Ok(Expr::Neg(boxed(alloc, known, text, a)?)),
        RawExpr::Abs(a) => Ok(Expr::Abs(boxed(alloc, known, text, a)?)),
        RawExpr::Bin(op, a, b) => {
            let a = boxed(alloc, known, text, a)?;
            Ok(Expr::Bin(op_of(*op), a, boxed(alloc, known, text, b)?))
        }
        RawExpr::Where(c, a, b) => {
            let c = boxed(alloc, known, text, c)?;
            let a = boxed(alloc, known, text, a)?;
            Ok(Expr::Where(c, a, boxed(alloc, known, text, b)?))
        }
    }
}

#[cycle(tree)]
fn boxed(
    alloc: Global,
    known: &Known<'_>,
    text: &[u8],
    expr: &Boxed<RawExpr>,
) -> Result<Boxed<Expr>, AllocError>
    requires kept { IsKept known.now }
    requires can { CanMake (known_of known.now) text.now expr.now }
    ensures { IfOk result (λ made. made ≡ tree_of (known_of known.now) text.now expr.now) }
{
    Boxed::new(alloc, tree(alloc, known, text, expr.get())?)
}

/// The number of an axis, of which there are at most three.
fn index_of(axis: i32) -> u8
    requires { count_of axis + 1 ≤ 3 }
    ensures { result ≡ count_of axis }
{
    axis.max(0) as u8
}

/// What a name reads: a scalar, or a view.
fn read(known: &Known<'_>, text: &[u8], seen: &RawView) -> Expr
    requires kept { IsKept known.now }
    requires names { IsTrue (is_readable seen.now.subs (named_at (known_of known.now) text.now seen.now.name)) }
    requires reads { All (IsSoundReading (declared_in (known_of known.now)))
        (unless_scalar (named_at (known_of known.now) text.now seen.now.name) (reading_of (known_of known.now) text.now None seen.now)) }
    ensures { result ≡ leaf (named_at (known_of known.now) text.now seen.now.name) (view_of (known_of known.now) text.now seen.now) }
{
    match known.names.named(text, seen.name) {
        Some(Named::Scalar(n)) => Expr::Scalar(n),
        Some(Named::Array(_)) => Expr::Read(view_at(known, text, seen)),
        _ => unreachable!(),
    }
}

/// A stencil on a view. Its only error is want of memory.
fn apply(
    alloc: Global,
    known: &Known<'_>,
    text: &[u8],
    stencil: Span,
    seen: &RawView,
) -> Result<Expr, AllocError>
    requires kept { IsKept known.now }
    requires named { IsTrue (is_stencil (named_at (known_of known.now) text.now stencil)) }
    requires array { IsTrue (is_array (named_at (known_of known.now) text.now seen.now.name)) }
    requires reads { IsSoundReading (declared_in (known_of known.now))
        (reading_of (known_of known.now) text.now (Some (stencil_named (known_of known.now) (named_at (known_of known.now) text.now stencil))) seen.now) }
    ensures { IfOk result (λ made. made ≡ expansion (stencil_named (known_of known.now) (named_at (known_of known.now) text.now stencil))
        (view_of (known_of known.now) text.now seen.now)) }
{
    stencil_at(known, text, stencil).expand(alloc, &view_at(known, text, seen))
}
