//! What a line does.
ghost use Rattle.std.specs.Prelude.{◌≡◌, None, Some, IfOk, IfSome};
ghost use Rattle.pooma_script.specs.Known.{named_at};
ghost use Rattle.pooma_script.specs.Statements.{action_of, first_positions, scalar_given, task_of};
ghost use Rattle.pooma_script.specs.Trees.{readings_in};
ghost use Rattle.pooma_check.specs.Kept.{IsKept, known_of};
ghost use Rattle.pooma_check.specs.Seen.{HasFewPositions};
ghost use Rattle.pooma_check.specs.Sound.{IsSound};

use crate::cells::{view_at, view_read};
use crate::known::Known;
use crate::lookup::reading_of_name;
use crate::tree::tree;
use pooma_domain::BoxN;
use pooma_expr::Reduction;
use pooma_model::Action;
use pooma_parse::{RawAssign, RawExpr, RawLine, RawView};
use pooma_script::names::Named;
use pooma_script::operators::{joined, reduction_of};
use pooma_script::part::part;
use pooma_text::Span;
use std::alloc::{AllocError, Global};

/// What a line does that has no cause but maybe a limit, at the positions that it has. None where it is no statement. Its only
/// error is want of memory.
pub fn action(
    alloc: Global,
    known: &Known<'_>,
    text: &[u8],
    form: &RawLine,
    positions: &BoxN,
) -> Result<Option<Action>, AllocError>
    requires kept { IsKept known.now }
    requires sound { IsSound (known_of known.now) text.now form.now }
    requires positions { positions.now ≡ (task_of (known_of known.now) text.now form.now).positions }
    ensures action { IfOk result (λ does. does ≡ action_of (known_of known.now) text.now form.now) }
    ensures positions { IfOk result (λ does. IfSome does HasFewPositions) }
{
    match form {
        RawLine::Assign { target, op, value } => {
            Ok(Some(assign(alloc, known, text, target, *op, value)?))
        }
        RawLine::Scalar { name, value } => Ok(Some(scalar(alloc, known, text, *name, value)?)),
        RawLine::Reduce { name, word, value } => {
            Ok(Some(reduce(alloc, known, text, *name, *word, value, positions)?))
        }
        RawLine::PrintView { view } => Ok(Some(print_view(known, text, view))),
        RawLine::PrintName { name } => Ok(Some(print_name(known, text, *name))),
        RawLine::Block => Ok(Some(Action::Block)),
        RawLine::Layout { .. }
        | RawLine::Brick { .. }
        | RawLine::Array { .. }
        | RawLine::Field { .. }
        | RawLine::Stencil { .. }
        | RawLine::Repeat { .. }
        | RawLine::End => Ok(None),
    }
}

fn assign(
    alloc: Global,
    known: &Known<'_>,
    text: &[u8],
    target: &RawView,
    op: RawAssign,
    value: &RawExpr,
) -> Result<Action, AllocError>
    requires kept { IsKept known.now }
    requires sound { IsSound (known_of known.now) text.now (RawLine.Assign target.now op value.now) }
    ensures does { IfOk result (λ does. Some does ≡ action_of (known_of known.now) text.now (RawLine.Assign target.now op value.now)) }
    ensures positions { IfOk result HasFewPositions }
{
    let view = view_at(known, text, target);
    let value = tree(alloc, known, text, value)?;
    Ok(Action::Assign {
        target: view,
        value: joined(alloc, op, view, value)?,
        mask: None,
    })
}

/// The number of the scalar that the line gives a number: its own, or the next where it is new.
fn scalar_given(known: &Known<'_>, text: &[u8], name: Span) -> u32
    ensures { result ≡ scalar_given (known_of known.now) (named_at (known_of known.now) text.now name) }
{
    match known.names.named(text, name) {
        Some(Named::Scalar(n)) => n,
        _ => known.draft.scalars(),
    }
}

fn scalar(
    alloc: Global,
    known: &Known<'_>,
    text: &[u8],
    name: Span,
    value: &RawExpr,
) -> Result<Action, AllocError>
    requires kept { IsKept known.now }
    requires sound { IsSound (known_of known.now) text.now (RawLine.Scalar name value.now) }
    ensures does { IfOk result (λ does. Some does ≡ action_of (known_of known.now) text.now (RawLine.Scalar name value.now)) }
    ensures positions { IfOk result HasFewPositions }
{
    let value = tree(alloc, known, text, value)?;
    Ok(Action::Reduce {
        scalar: scalar_given(known, text, name),
        reduction: Reduction::Sum,
        positions: BoxN::point(),
        value,
    })
}

fn reduce(
    alloc: Global,
    known: &Known<'_>,
    text: &[u8],
    name: Span,
    word: Span,
    value: &RawExpr,
    positions: &BoxN,
) -> Result<Action, AllocError>
    requires kept { IsKept known.now }
    requires sound { IsSound (known_of known.now) text.now (RawLine.Reduce name word value.now) }
    requires positions { positions.now ≡ first_positions (readings_in (known_of known.now) text.now value.now) }
    ensures does { IfOk result (λ does. Some does ≡ action_of (known_of known.now) text.now (RawLine.Reduce name word value.now)) }
    ensures positions { IfOk result HasFewPositions }
{
    let value = tree(alloc, known, text, value)?;
    Ok(Action::Reduce {
        scalar: scalar_given(known, text, name),
        reduction: reduction_of(part(text, word)),
        positions: *positions,
        value,
    })
}

fn print_view(known: &Known<'_>, text: &[u8], seen: &RawView) -> Action
    requires kept { IsKept known.now }
    requires sound { IsSound (known_of known.now) text.now (RawLine.PrintView seen.now) }
    ensures does { Some result ≡ action_of (known_of known.now) text.now (RawLine.PrintView seen.now) }
    ensures positions { HasFewPositions result }
{
    Action::PrintView {
        view: view_at(known, text, seen),
    }
}

fn print_name(known: &Known<'_>, text: &[u8], name: Span) -> Action
    requires kept { IsKept known.now }
    requires sound { IsSound (known_of known.now) text.now (RawLine.PrintName name) }
    ensures does { Some result ≡ action_of (known_of known.now) text.now (RawLine.PrintName name) }
    ensures positions { HasFewPositions result }
{
    match known.names.named(text, name) {
        Some(Named::Scalar(n)) => Action::PrintScalar { scalar: n },
        Some(Named::Array(_)) => Action::PrintView {
            view: view_read(known, &reading_of_name(known, text, None, name, None)),
        },
        _ => unreachable!(),
    }
}
