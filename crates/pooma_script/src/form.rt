//! Tests of a line's form: whether it may stand where it does, and whether its names name what they have to.
ghost use Rattle.std.specs.Prelude.{◌≡◌, ◌↔◌, IsTrue};
ghost use Rattle.pooma_script.specs.Tests.{IsPlaced, has_names};

use crate::expression::names_fit;
use crate::names::{Names, is_array, is_layout, is_new, is_scalar};
use pooma_parse::RawLine;

/// Whether the line may stand where so many repeats are open: a declaration in none, and an end in one.
pub fn is_placed(open_repeats: usize, form: &RawLine) -> bool
    ensures { IsTrue result ↔ IsPlaced open_repeats form.now }
{
    match form {
        RawLine::Layout { .. }
        | RawLine::Brick { .. }
        | RawLine::Array { .. }
        | RawLine::Field { .. }
        | RawLine::Stencil { .. } => open_repeats == 0,
        RawLine::End => open_repeats > 0,
        _ => true,
    }
}

/// Whether what the line declares is new, or a scalar that is given a number again, and what it uses names what it has to.
pub fn has_names(names: &Names<'_>, text: &[u8], form: &RawLine) -> bool
    ensures { result ≡ has_names names.now text.now form.now }
{
    match form {
        RawLine::Layout { name, .. }
        | RawLine::Brick { name, .. }
        | RawLine::Stencil { name, .. } => { is_new(names.named(text, *name)) }
        RawLine::Array { name, layout } | RawLine::Field { name, layout, .. } => {
            is_new(names.named(text, *name)) && is_layout(names.named(text, *layout))
        }
        RawLine::Assign { target, value, .. } => {
            is_array(names.named(text, target.name)) && names_fit(names, text, value)
        }
        RawLine::Scalar { name, value } | RawLine::Reduce { name, value, .. } => {
            let what = names.named(text, *name);
            (is_new(what) || is_scalar(what)) && names_fit(names, text, value)
        }
        RawLine::PrintView { view } => is_array(names.named(text, view.name)),
        RawLine::PrintName { name } => {
            let what = names.named(text, *name);
            is_array(what) || is_scalar(what)
        }
        RawLine::Block | RawLine::Repeat { .. } | RawLine::End => true,
    }
}
