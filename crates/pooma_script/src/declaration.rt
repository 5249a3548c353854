//! Tests of what declarations say.
ghost use Rattle.std.specs.Prelude.{◌≡◌, ◌↔◌, length, All, IsTrue};
ghost use Rattle.pooma_domain.specs.Cells.{IsOrdered};
ghost use Rattle.pooma_script.specs.Bodies.{offsets_in};
ghost use Rattle.pooma_script.specs.Layouts.{axes_of, layers};
ghost use Rattle.pooma_script.specs.Tests.{AreAxes, HasParts, cut_count};

use crate::layout::{are_ordered, cut_count, has_parts};
use crate::stencil::have_axes;
use pooma_parse::{RawCutting, RawExpr};

/// Whether there may be so many axes: one to three.
pub fn are_axes(n: usize) -> bool
    ensures { IsTrue result ↔ AreAxes n }
{
    (1..=3).contains(&n)
}

/// Whether guard layers are given for each axis, or for none.
#[tactic(auto, using(crate::proofs::Guards::left_out_fit, crate::proofs::Guards::given_fit))]
fn layers_fit(domain: &[(i32, i32)], list: &[i32]) -> bool
    ensures { IsTrue result ↔ (length (layers (axes_of domain.now) list.now) ≡ length domain.now) }
{
    match list {
        [] => true,
        [_, ..] => list.len() == domain.len(),
    }
}

/// Whether a layout has one to three axes, and each of its lists an entry for each.
pub fn layout_has_axes(
    domain: &[(i32, i32)],
    cutting: &RawCutting,
    internal: &[i32],
    external: &[i32],
) -> bool
    ensures { IsTrue result ↔ (AreAxes (length domain.now) × (cut_count cutting.now ≡ length domain.now)
        × (length (layers (axes_of domain.now) internal.now) ≡ length domain.now)
        × (length (layers (axes_of domain.now) external.now) ≡ length domain.now)) }
{
    if !are_axes(domain.len()) {
        return false;
    }
    if cut_count(cutting) != domain.len() {
        return false;
    }
    if !layers_fit(domain, internal) {
        return false;
    }
    layers_fit(domain, external)
}

/// Whether a stencil has one to three axes, an upper extent for each, and offsets along all of them.
pub fn stencil_has_axes(lower: &[i32], upper: &[i32], body: &RawExpr) -> bool
    ensures { IsTrue result ↔ (AreAxes (length lower.now) × (length upper.now ≡ length lower.now)
        × All (λ offset. length offset ≡ length lower.now) (offsets_in body.now)) }
{
    if !are_axes(lower.len()) {
        return false;
    }
    if upper.len() != lower.len() {
        return false;
    }
    have_axes(body, lower.len())
}

/// Whether each axis of a layout has a number, each block one, and each cut lies above the one before it.
pub fn layout_has_numbers(domain: &[(i32, i32)], cutting: &RawCutting) -> bool
    ensures { IsTrue result ↔ (All IsOrdered (axes_of domain.now) × HasParts (axes_of domain.now) cutting.now) }
{
    are_ordered(domain) && has_parts(domain, cutting)
}
