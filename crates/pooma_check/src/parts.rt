//! How many parts a statement has: where its views come from one patch of their arrays to another, its positions are cut.
ghost use Rattle.std.specs.Prelude.{◌≡◌, ◌↔◌, ◌≤◌, ◌<◌, ◌++◌, ◌∷◌, Some, length, map, IfOk, IsTrue, OnOk};
ghost use Rattle.std.specs.Option.{ForSome};
ghost use Rattle.pooma_domain.specs.Cells.{IsBox};
ghost use Rattle.pooma_view.specs.Slots.{positions_of};
ghost use Rattle.pooma_expr.specs.Trees.{views_of};
ghost use Rattle.pooma_model.specs.Parts.{parts_of};
ghost use Rattle.pooma_part.specs.Cuts.{laid_in};
ghost use Rattle.pooma_script.specs.Known.{declared_in};
ghost use Rattle.pooma_script.specs.Tests.{HasFewParts};
ghost use Rattle.pooma_check.specs.Kept.{known_of};
ghost use Rattle.pooma_check.specs.Measures.{AreThere, CanBeCut};

use crate::known::Known;
use pooma_domain::BoxN;
use pooma_expr::Expr;
use pooma_model::Action;
use pooma_part::{Seen, cut, cuts_are_parts};
use pooma_view::View;
use std::alloc::{AllocError, Global};

/// A view with the layout of its array.
fn laid<'a>(known: &'a Known<'_>, view: &'a View) -> Seen<'a>
    requires { view.now.array < length (declared_in (known_of known.now)).shapes }
    ensures { result ≡ laid_in (declared_in (known_of known.now)) view.now }
{
    // For what they promise: each array that is declared has a layout.
    let _arrays = known.draft.arrays();
    Seen {
        view,
        layout: known.draft.layout(view.array()),
    }
}

/// The views with the layouts of their arrays. Its only error is want of memory.
fn all_laid<'a>(
    alloc: Global,
    known: &'a Known<'_>,
    views: &'a [View],
) -> Result<Vec<Seen<'a>>, AllocError>
    requires { AreThere (declared_in (known_of known.now)) views.now }
    ensures { IfOk result (λ seen. seen.items ≡ map (laid_in (declared_in (known_of known.now))) views.now) }
{
    let mut seen = Vec::with_capacity(alloc, views.len())?;
    for view in views {
        seen.push(laid(known, view))?;
    }
    Ok(seen)
}

/// Whether views cut positions into no more parts than a statement may have. Its only error is want of memory.
fn cut_into_few(
    alloc: Global,
    known: &Known<'_>,
    views: &[View],
    positions: &BoxN,
) -> Result<bool, AllocError>
    requires { AreThere (declared_in (known_of known.now)) views.now }
    ensures { IfOk result (λ few. IsTrue few ↔ (length (parts_of (declared_in (known_of known.now)) views.now positions.now) ≤ 65536)) }
{
    cuts_are_parts();
    let seen = all_laid(alloc, known, views)?;
    let cutting = cut(alloc, &seen, positions)?;
    Ok(cutting.count() <= 65_536)
}

/// Adds the views of an expression, in the order of the text. Its only error is want of memory.
fn add_views(alloc: Global, views: &mut Vec<View>, expr: &Expr) -> Result<(), AllocError>
    ensures { OnOk result (views.new.items ≡ views.old.items ++ views_of expr.now) }
{
    match expr {
        Expr::Literal(_) | Expr::Scalar(_) | Expr::Index(_) => Ok(()),
        Expr::Read(view) => {
            views.push(*view)?;
            Ok(())
        }
        Expr::Neg(a) | Expr::Abs(a) => add_views(alloc, views, a.get()),
        Expr::Bin(_, a, b) => {
            add_views(alloc, views, a.get())?;
            add_views(alloc, views, b.get())
        }
        Expr::Where(c, a, b) => {
            add_views(alloc, views, c.get())?;
            add_views(alloc, views, a.get())?;
            add_views(alloc, views, b.get())
        }
    }
}

/// Whether an assignment has no more parts than it may have.
fn assigns_few(
    alloc: Global,
    known: &Known<'_>,
    target: &View,
    value: &Expr,
) -> Result<bool, AllocError>
    requires there { AreThere (declared_in (known_of known.now)) (target.now ∷ views_of value.now) }
    requires positions { IsBox (positions_of target.now.slots) }
    ensures { IfOk result (λ few. IsTrue few
        ↔ (length (parts_of (declared_in (known_of known.now)) (target.now ∷ views_of value.now) (positions_of target.now.slots)) ≤ 65536)) }
{
    let mut views = Vec::new(alloc);
    views.push(*target)?;
    add_views(alloc, &mut views, value)?;
    cut_into_few(alloc, known, &views, &target.positions())
}

/// Whether a reduction over these positions has no more parts than it may have.
fn reduces_few(
    alloc: Global,
    known: &Known<'_>,
    positions: &BoxN,
    value: &Expr,
) -> Result<bool, AllocError>
    requires { AreThere (declared_in (known_of known.now)) (views_of value.now) }
    ensures { IfOk result (λ few. IsTrue few
        ↔ (length (parts_of (declared_in (known_of known.now)) (views_of value.now) positions.now) ≤ 65536)) }
{
    let mut views = Vec::new(alloc);
    add_views(alloc, &mut views, value)?;
    cut_into_few(alloc, known, &views, positions)
}

/// Whether an action has no more parts than it may have. Its only error is want of memory.
fn has_few(alloc: Global, known: &Known<'_>, action: &Action) -> Result<bool, AllocError>
    requires { CanBeCut (declared_in (known_of known.now)) action.now }
    ensures { IfOk result (λ few. IsTrue few ↔ HasFewParts (declared_in (known_of known.now)) (Some action.now)) }
{
    match action {
        Action::Assign { target, value, .. } => assigns_few(alloc, known, target, value),
        Action::Reduce {
            positions,
            value,
            ..
        } => reduces_few(alloc, known, positions, value),
        Action::PrintView { .. } | Action::PrintScalar { .. } | Action::Block => Ok(true),
    }
}

/// Whether what a line does has no more parts than it may have. Its only error is want of memory.
pub fn has_few_parts(
    alloc: Global,
    known: &Known<'_>,
    does: &Option<Action>,
) -> Result<bool, AllocError>
    requires { ForSome does.now (CanBeCut (declared_in (known_of known.now))) }
    ensures { IfOk result (λ few. IsTrue few ↔ HasFewParts (declared_in (known_of known.now)) does.now) }
{
    match does {
        Some(action) => has_few(alloc, known, action),
        None => Ok(true),
    }
}
