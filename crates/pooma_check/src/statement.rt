//! The tests of dimension, of ranges, of cells and of overlaps on a line.
ghost use Rattle.std.specs.Prelude.{◌≡◌, ◌↔◌, ◌≤◌, length, IsTrue};
ghost use Rattle.pooma_script.specs.Known.{layout_named};
ghost use Rattle.pooma_script.specs.Statements.{action_of, task_of};
ghost use Rattle.pooma_script.specs.Tests.{HasDimensions, HasNumbers, LiesInside, ReadsApartOf};
ghost use Rattle.pooma_check.specs.Kept.{known_of};

use crate::apart::others_are_apart;
use crate::axes::has_equal_axes;
use crate::cells::{all_are_readable, first_is_writable};
use crate::known::Known;
use crate::task::Task;
use pooma_parse::RawLine;
use pooma_script::conjunction::both;
use pooma_script::declaration::{are_axes, layout_has_axes, layout_has_numbers, stencil_has_axes};
use pooma_script::layout::{are_ordered, cuts_inside};
use pooma_script::names::Named;
use pooma_script::places::all_have_positions;
use pooma_script::stencil::are_within;
use pooma_view::cells_apart;

/// How many axes a layout has; what is none has none.
fn axes_of_layout(known: &Known<'_>, what: Option<Named>) -> usize
    ensures value { result ≡ length (layout_named (known_of known.now) what) }
    ensures few { result ≤ 3 }
{
    match what {
        Some(Named::Layout(n)) => match known.layouts.get(n) {
            Some(layout) => layout.physical().dims(),
            None => 0,
        },
        _ => 0,
    }
}

/// Whether a line has the axes that it has to: its lists an entry for each axis, its views as many as its statement.
pub fn has_dimensions(known: &Known<'_>, text: &[u8], form: &RawLine, task: &Task<'_>) -> bool
    requires task { task.now ≡ task_of (known_of known.now) text.now form.now }
    ensures { IsTrue result ↔ HasDimensions (known_of known.now) text.now form.now }
{
    match form {
        RawLine::Layout {
            domain,
            cutting,
            internal,
            external,
            ..
        } => layout_has_axes(
            domain.as_slice(),
            cutting,
            internal.as_slice(),
            external.as_slice(),
        ),
        RawLine::Brick { domain, .. } => are_axes(domain.len()),
        RawLine::Array { .. } => true,
        RawLine::Field { layout, faces, .. } => {
            let axes = axes_of_layout(known, known.names.named(text, *layout));
            faces.len() == 2 * axes
        }
        RawLine::Stencil {
            lower,
            upper,
            body,
            ..
        } => stencil_has_axes(lower.as_slice(), upper.as_slice(), body),
        RawLine::Assign { .. }
        | RawLine::Scalar { .. }
        | RawLine::Reduce { .. }
        | RawLine::PrintView { .. }
        | RawLine::PrintName { .. }
        | RawLine::Block
        | RawLine::Repeat { .. }
        | RawLine::End => has_equal_axes(known, task),
    }
}

/// Whether each range of a line has a number, each block a cell, each cut lies above the one before it, a repeat has a turn,
/// and each view and stencil's result a position.
pub fn has_numbers(known: &Known<'_>, text: &[u8], form: &RawLine, task: &Task<'_>) -> bool
    requires task { task.now ≡ task_of (known_of known.now) text.now form.now }
    ensures { IsTrue result ↔ HasNumbers (known_of known.now) text.now form.now }
{
    match form {
        RawLine::Layout {
            domain,
            cutting,
            ..
        } => layout_has_numbers(domain.as_slice(), cutting),
        RawLine::Brick { domain, .. } => are_ordered(domain.as_slice()),
        RawLine::Repeat { turns } => *turns >= 1,
        _ => all_have_positions(task.readings()),
    }
}

/// Whether each cut of a line is a number of its axis and not the first, each offset is within the extents, each cell of a view
/// is one of its array, and each cell that is written one that has a number of its own.
pub fn lies_inside(known: &Known<'_>, text: &[u8], form: &RawLine, task: &Task<'_>) -> bool
    requires task { task.now ≡ task_of (known_of known.now) text.now form.now }
    requires dimensions { HasDimensions (known_of known.now) text.now form.now }
    requires numbers { HasNumbers (known_of known.now) text.now form.now }
    ensures { IsTrue result ↔ LiesInside (known_of known.now) text.now form.now }
{
    match form {
        RawLine::Layout {
            domain,
            cutting,
            ..
        } => cuts_inside(domain.as_slice(), cutting),
        RawLine::Stencil {
            lower,
            upper,
            body,
            ..
        } => are_within(body, lower.as_slice(), upper.as_slice()),
        RawLine::Assign { .. } => both(
            all_are_readable(known, task.readings()),
            first_is_writable(known, task.readings()),
        ),
        _ => all_are_readable(known, task.readings()),
    }
}

/// Whether no cell that a line writes at a position is read at another one.
pub fn reads_apart(known: &Known<'_>, text: &[u8], form: &RawLine, task: &Task<'_>) -> bool
    requires task { task.now ≡ task_of (known_of known.now) text.now form.now }
    requires dimensions { HasDimensions (known_of known.now) text.now form.now }
    requires numbers { HasNumbers (known_of known.now) text.now form.now }
    requires inside { LiesInside (known_of known.now) text.now form.now }
    ensures { IsTrue result ↔ ReadsApartOf (action_of (known_of known.now) text.now form.now) }
{
    match form {
        RawLine::Assign { .. } => {
            // For what it promises: the old values of a target are read at their own positions.
            cells_apart();
            others_are_apart(known, task.readings())
        }
        _ => true,
    }
}
