//! Which arrays an action reads beside their physical domains.
ghost use Rattle.std.specs.Prelude.{◌≡◌, false};
ghost use Rattle.std.specs.Option.{option_map_or};
ghost use Rattle.std.specs.List.{list_any};
ghost use Rattle.pooma_expr.specs.Trees.{views_of};
ghost use Rattle.pooma_field.specs.ShapeOf.{shape_of};
ghost use Rattle.pooma_fill.specs.Marks.{is_target};
ghost use Rattle.pooma_fill.specs.Reading.{is_external, reads_external};

use pooma_domain::order_of_cells;
use pooma_expr::Expr;
use pooma_field::Shape;
use pooma_model::Action;
use pooma_view::View;

/// Whether the action reads or prints the array of this number and shape in a cell beside its physical domain. Its mask counts.
pub(crate) fn reads_external(shape: &Shape, array: u32, action: &Action) -> bool
    ensures { result ≡ reads_external (shape_of shape.now) array action.now }
{
    match action {
        Action::Assign {
            target: _,
            value,
            mask,
        } => { has_external(shape, array, value) | masks_external(shape, array, mask) }
        Action::Reduce {
            scalar: _,
            reduction: _,
            positions: _,
            value,
        } => has_external(shape, array, value),
        Action::PrintView { view } => is_external(shape, array, view),
        Action::PrintScalar { scalar: _ } => false,
        Action::Block => false,
    }
}

/// Whether the action gives cells of this array numbers.
pub(crate) fn is_target(action: &Action, array: u32) -> bool
    ensures { result ≡ is_target action.now array }
{
    match action {
        Action::Assign {
            target,
            value: _,
            mask: _,
        } => target.array() == array,
        _ => false,
    }
}

// Whether the view is of the array and names a cell beside its physical domain.
fn is_external(shape: &Shape, array: u32, view: &View) -> bool
    ensures { result ≡ is_external (shape_of shape.now) array view.now }
{
    order_of_cells();
    let inside = view.within(&shape.physical);
    view.array() == array && !inside
}

// Whether some view of a mask is external, where there is one.
fn masks_external(shape: &Shape, array: u32, mask: &Option<Expr>) -> bool
    ensures { result ≡ option_map_or (λ e. list_any (is_external (shape_of shape.now) array) (views_of e)) mask.now false }
{
    match mask {
        None => false,
        Some(given) => has_external(shape, array, given),
    }
}

// Whether some view of the expression is external.
#[tactic(auto, using(crate::proofs::Outside::some_literal, crate::proofs::Outside::some_scalar, crate::proofs::Outside::some_index, crate::proofs::Outside::some_read, crate::proofs::Outside::some_neg, crate::proofs::Outside::some_abs, crate::proofs::Outside::some_bin, crate::proofs::Outside::some_where))]
fn has_external(shape: &Shape, array: u32, e: &Expr) -> bool
    ensures { result ≡ list_any (is_external (shape_of shape.now) array) (views_of e.now) }
{
    match e {
        Expr::Literal(_) | Expr::Scalar(_) | Expr::Index(_) => false,
        Expr::Read(view) => is_external(shape, array, view),
        Expr::Neg(a) => has_external(shape, array, a.get()),
        Expr::Abs(a) => has_external(shape, array, a.get()),
        Expr::Bin(_, a, b) => {
            has_external(shape, array, a.get()) | has_external(shape, array, b.get())
        }
        Expr::Where(c, a, b) => {
            let branches = has_external(shape, array, a.get())
                | has_external(shape, array, b.get());
            has_external(shape, array, c.get()) | branches
        }
    }
}
