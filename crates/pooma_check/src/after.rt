//! What is known after a line.
ghost use Rattle.std.specs.Prelude.{◌≡◌, ◌+◌, ◌-◌, ◌*◌, ◌^◌, ◌<◌, ◌≤◌, ℕ, OnOk};
ghost use Rattle.pooma_text.specs.Lines.{text_at};
ghost use Rattle.pooma_model.specs.Fit.{IsFit};
ghost use Rattle.pooma_script.specs.After.{after, with_action, with_declaration, with_scalar};
ghost use Rattle.pooma_script.specs.Known.{named_at, turns_in};
ghost use Rattle.pooma_script.specs.Statements.{action_of, values_printed};
ghost use Rattle.pooma_check.specs.Kept.{IsKept, known_of, turns_kept, with_array_of};
ghost use Rattle.pooma_check.specs.Sound.{IsLimited, IsSound};
ghost use Rattle.pooma_check.specs.Verdicts.{IsPrintable};

use crate::declare::{take_array, take_brick, take_field, take_layout, take_stencil};
use crate::known::Known;
use crate::repeats::{begin_repeat, end_repeat, turns_now};
use pooma_model::{Action, Statement};
use pooma_parse::RawLine;
use pooma_script::names::Named;
use pooma_script::part::part;
use pooma_stencil::forms_of_expansions;
use pooma_text::Span;
use std::alloc::{AllocError, Global};

/// Does what a line says that has no cause to be refused. Its only error is want of memory.
pub fn take<'a>(
    alloc: Global,
    known: &mut Known<'a>,
    number: u32,
    text: &'a [u8],
    form: &RawLine,
    does: Option<Action>,
) -> Result<(), AllocError>
    requires kept { IsKept known.old }
    requires few_scalars { known.old.draft.declared.scalars < number }
    requires sound { IsSound (known_of known.old) text.now form.now }
    requires limits { IsLimited number (known_of known.old) text.now form.now }
    requires does { does ≡ action_of (known_of known.old) text.now form.now }
    ensures known { OnOk result (known_of known.new ≡ after number (known_of known.old) text.now form.now) }
    ensures turns { OnOk result (known.new.turns.items ≡ turns_kept known.new.draft.open_repeats) }
{
    // For what it promises: the expression of a stencil asks for no scalar and no axis.
    forms_of_expansions();
    declare(alloc, known, text, form)?;
    match does {
        None => Ok(()),
        Some(action) => act(alloc, known, number, action),
    }
}

// What the line declares, begins or ends.
fn declare<'a>(
    alloc: Global,
    known: &mut Known<'a>,
    text: &'a [u8],
    form: &RawLine,
) -> Result<(), AllocError>
    requires kept { IsKept known.old }
    requires few_scalars { known.old.draft.declared.scalars < 2 ^ 32 - 1 }
    requires sound { IsSound (known_of known.old) text.now form.now }
    requires limits { (number : ℕ) × IsLimited number (known_of known.old) text.now form.now }
    ensures known { OnOk result (known_of known.new ≡ with_declaration (known_of known.old) text.now form.now) }
    ensures turns { OnOk result (known.new.turns.items ≡ turns_kept known.new.draft.open_repeats) }
{
    match form {
        RawLine::Layout { .. }
        | RawLine::Brick { .. }
        | RawLine::Array { .. }
        | RawLine::Field { .. } => declare_array(alloc, known, text, form),
        RawLine::Stencil {
            name,
            lower,
            upper,
            body,
        } => take_stencil(
            alloc,
            known,
            part(text, *name),
            lower.as_slice(),
            upper.as_slice(),
            body,
        ),
        RawLine::Scalar { name, .. } | RawLine::Reduce { name, .. } => {
            take_scalar(alloc, known, text, *name)
        }
        RawLine::Repeat { turns } => begin_repeat(alloc, known, *turns),
        RawLine::End => {
            end_repeat(known);
            Ok(())
        }
        RawLine::Assign { .. }
        | RawLine::PrintView { .. }
        | RawLine::PrintName { .. }
        | RawLine::Block => Ok(()),
    }
}

// What the line declares, if it is a layout or an array.
fn declare_array<'a>(
    alloc: Global,
    known: &mut Known<'a>,
    text: &'a [u8],
    form: &RawLine,
) -> Result<(), AllocError>
    requires kept { IsKept known.old }
    requires sound { IsSound (known_of known.old) text.now form.now }
    requires limits { (number : ℕ) × IsLimited number (known_of known.old) text.now form.now }
    ensures known { OnOk result (known_of known.new ≡ with_array_of (known_of known.old) text.now form.now) }
    ensures turns { OnOk result (known.new.turns.items ≡ turns_kept known.new.draft.open_repeats) }
{
    match form {
        RawLine::Layout {
            name,
            domain,
            cutting,
            internal,
            external,
        } => take_layout(
            alloc,
            known,
            part(text, *name),
            domain.as_slice(),
            cutting,
            internal.as_slice(),
            external.as_slice(),
        ),
        RawLine::Brick { name, domain } => {
            take_brick(alloc, known, part(text, *name), domain.as_slice())
        }
        RawLine::Array { name, layout } => {
            take_array(alloc, known, text, part(text, *name), *layout)
        }
        RawLine::Field {
            name,
            layout,
            faces,
        } => take_field(
            alloc,
            known,
            text,
            part(text, *name),
            *layout,
            faces.as_slice(),
        ),
        _ => Ok(()),
    }
}

// Declares a scalar, where the name is new.
fn take_scalar<'a>(
    alloc: Global,
    known: &mut Known<'a>,
    text: &'a [u8],
    name: Span,
) -> Result<(), AllocError>
    requires few { known.old.draft.declared.scalars < 2 ^ 32 - 1 }
    ensures known { OnOk result (known_of known.new
        ≡ with_scalar (text_at text.now name) (named_at (known_of known.old) text.now name) (known_of known.old)) }
    ensures turns { OnOk result (known.new.turns.items ≡ known.old.turns.items) }
    ensures repeats { OnOk result (known.new.draft.open_repeats ≡ known.old.draft.open_repeats) }
{
    if known.names.named(text, name).is_some() {
        return Ok(());
    }
    let number = known.draft.scalar();
    known
        .names
        .declare(alloc, part(text, name), Named::Scalar(number))
}

// How many values the action prints.
fn values_printed(action: &Action) -> u64
    requires { IsPrintable action.now }
    ensures value { result ≡ values_printed action.now }
{
    match action {
        Action::PrintView { view } => view.positions().count(),
        Action::PrintScalar { .. } => 1,
        Action::Assign { .. } | Action::Reduce { .. } | Action::Block => 0,
    }
}

// Puts the statement on the line of this number at the end. It counts as often as it is done.
fn act(alloc: Global, known: &mut Known<'_>, number: u32, action: Action) -> Result<(), AllocError>
    requires turns { known.old.turns.items ≡ turns_kept known.old.draft.open_repeats }
    requires fit { IsFit known.old.draft.declared action }
    requires executed { known.old.executed + turns_in (known_of known.old) ≤ 1048576 }
    requires printed { known.old.printed + turns_in (known_of known.old) * values_printed action ≤ 4194304 }
    ensures known { OnOk result (known_of known.new ≡ with_action number action (known_of known.old)) }
    ensures turns { OnOk result (known.new.turns.items ≡ turns_kept known.new.draft.open_repeats) }
{
    let turns = turns_now(known);
    known.executed += turns;
    known.printed += turns * values_printed(&action);
    known.draft.push(
        alloc,
        Statement {
            line: number,
            action,
        },
    )
}
