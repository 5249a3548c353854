//! How much the form of a line has, one test a limit.
ghost use Rattle.std.specs.Prelude.{◌↔◌, ◌≤◌, ◌≤ℤ◌, pos, length, IfSome, IsTrue};
ghost use Rattle.pooma_text.specs.Lines.{text_at};
ghost use Rattle.pooma_script.specs.Tests.{AreFew, HasFewExtents, HasFewGuards, HasFewPatches, HasNearBounds, name_declared};

use crate::cause::LimitName;
use crate::conjunction::both;
use crate::count::patches_in;
use crate::layout::{are_covering, are_near_zero, have_few_layers};
use crate::part::part;
use pooma_parse::RawLine;

/// Whether the line may have this number.
pub fn is_line_number(number: u32) -> bool
    ensures { IsTrue result ↔ (number ≤ 10000) }
{
    number <= 10_000
}

/// Whether the name that the line declares is not too long.
pub fn has_short_name(text: &[u8], form: &RawLine) -> bool
    ensures { IsTrue result ↔ IfSome (name_declared form.now) (λ name. length (text_at text.now name) ≤ 32) }
{
    match form {
        RawLine::Layout { name, .. }
        | RawLine::Brick { name, .. }
        | RawLine::Array { name, .. }
        | RawLine::Field { name, .. }
        | RawLine::Stencil { name, .. }
        | RawLine::Scalar { name, .. }
        | RawLine::Reduce { name, .. } => part(text, *name).len() <= 32,
        _ => true,
    }
}

/// Whether the bounds of the domain that the line has lie within plus and minus 1,000,000.
pub fn has_near_bounds(form: &RawLine) -> bool
    ensures { IsTrue result ↔ HasNearBounds form.now }
{
    match form {
        RawLine::Layout { domain, .. } | RawLine::Brick { domain, .. } => are_near_zero(
            domain.as_slice(),
        ),
        _ => true,
    }
}

/// Whether the layout of the line does not have too many patches.
pub fn has_few_patches(form: &RawLine) -> bool
    ensures { IsTrue result ↔ HasFewPatches form.now }
{
    match form {
        RawLine::Layout { cutting, .. } => patches_in(cutting) <= 256,
        _ => true,
    }
}

/// Whether the layout of the line has 0 to 8 guard layers on each axis, and no more external ones than numbers.
pub fn has_few_guards(form: &RawLine) -> bool
    ensures { IsTrue result ↔ HasFewGuards form.now }
{
    match form {
        RawLine::Layout {
            domain,
            internal,
            external,
            ..
        } => {
            let domain = domain.as_slice();
            let external = external.as_slice();
            let few = both(
                have_few_layers(domain, internal.as_slice()),
                have_few_layers(domain, external),
            );
            both(few, are_covering(domain, external))
        }
        _ => true,
    }
}

fn is_extent(n: i32) -> bool
    ensures { IsTrue result ↔ ((pos 0 ≤ℤ n) × (n ≤ℤ pos 8)) }
{
    (0..=8).contains(&n)
}

fn are_extents(list: &[i32]) -> bool
    ensures { IsTrue result ↔ AreFew LimitName.Extents list.now }
{
    list.iter().all(|n| is_extent(*n))
}

/// Whether the extents of the stencil of the line are 0 to 8.
pub fn has_few_extents(form: &RawLine) -> bool
    ensures { IsTrue result ↔ HasFewExtents form.now }
{
    match form {
        RawLine::Stencil { lower, upper, .. } => {
            both(are_extents(lower.as_slice()), are_extents(upper.as_slice()))
        }
        _ => true,
    }
}
