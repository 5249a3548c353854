//! Tests of what the line of a layout says: its axes, how they are cut, and their guard layers.
ghost use Rattle.std.specs.Prelude.{◌≡◌, ◌↔◌, ◌≤◌, ◌^◌, pos, ◌≤ℤ◌, All, IsTrue};
ghost use Rattle.std.specs.List.{AllZip};
ghost use Rattle.pooma_domain.specs.Cells.{IsOrdered, axis_length, interval};
ghost use Rattle.pooma_layout.specs.Axes.{AreBorders, IsAscending, IsCovering};
ghost use Rattle.pooma_layout.specs.Blocks.{IsPartCount};
ghost use Rattle.pooma_script.specs.Layouts.{axes_of, layers};
ghost use Rattle.pooma_script.specs.Tests.{AreFew, CutsInside, HasParts, IsNearZero, cut_count};

use crate::cause::LimitName;
use crate::conjunction::both;
use pooma_parse::{RawCutting, RawList};

/// How many numbers an axis of these bounds has.
pub fn axis_len(bounds: (i32, i32)) -> u64
    ensures value { result ≡ axis_length (interval bounds.0 bounds.1) }
    ensures few { result ≤ 2 ^ 32 }
{
    let steps = i64::from(bounds.1) - i64::from(bounds.0);
    if steps < 0 { 0 } else { steps as u64 + 1 }
}

fn is_ordered(bounds: (i32, i32)) -> bool
    ensures { IsTrue result ↔ IsOrdered (interval bounds.0 bounds.1) }
{
    bounds.0 <= bounds.1
}

/// Whether each axis has a number.
pub fn are_ordered(domain: &[(i32, i32)]) -> bool
    ensures { IsTrue result ↔ All IsOrdered (axes_of domain.now) }
{
    match domain {
        [] => true,
        [bounds, axes @ ..] => both(is_ordered(*bounds), are_ordered(axes)),
    }
}

/// Whether an axis can be cut into so many blocks: at least one, and each has a number.
fn is_part_count(bounds: (i32, i32), parts: i32) -> bool
    ensures { IsTrue result ↔ IsPartCount (interval bounds.0 bounds.1) parts }
{
    if parts < 1 {
        return false;
    }
    parts as u64 <= axis_len(bounds)
}

/// Whether each axis can be cut into so many blocks.
fn are_part_counts(domain: &[(i32, i32)], blocks: &[i32]) -> bool
    ensures { IsTrue result ↔ AllZip IsPartCount (axes_of domain.now) blocks.now }
{
    match domain {
        [] => blocks.is_empty(),
        [bounds, axes @ ..] => match blocks {
            [] => false,
            [parts, others @ ..] => is_part_count(*bounds, *parts) && are_part_counts(axes, others),
        },
    }
}

/// Whether each number is above the one before it.
fn is_ascending(cuts: &[i32]) -> bool
    ensures { IsTrue result ↔ IsAscending cuts.now }
{
    for k in 1..cuts.len() {
        if cuts[k] <= cuts[k - 1] {
            return false;
        }
    }
    true
}

/// Whether each block has a number, or each cut is above the one before it.
pub fn has_parts(domain: &[(i32, i32)], cutting: &RawCutting) -> bool
    ensures { IsTrue result ↔ HasParts (axes_of domain.now) cutting.now }
{
    match cutting {
        RawCutting::Blocks(blocks) => are_part_counts(domain, blocks.as_slice()),
        RawCutting::Cuts(cuts) => cuts
            .as_slice()
            .iter()
            .all(|list| is_ascending(list.as_slice())),
    }
}

/// Whether each cut is a number of the axis, and not its first.
fn are_borders(bounds: (i32, i32), cuts: &[i32]) -> bool
    ensures { IsTrue result ↔ AreBorders (interval bounds.0 bounds.1) cuts.now }
{
    cuts.iter().all(|cut| bounds.0 < *cut && *cut <= bounds.1)
}

fn all_are_borders(domain: &[(i32, i32)], cuts: &[RawList<i32>]) -> bool
    ensures { IsTrue result ↔ AllZip AreBorders (axes_of domain.now) cuts.now }
{
    match domain {
        [] => cuts.is_empty(),
        [bounds, axes @ ..] => match cuts {
            [] => false,
            [list, others @ ..] => are_borders(*bounds, list.as_slice())
                && all_are_borders(axes, others),
        },
    }
}

/// Whether each cut is a number of its axis, and not its first.
pub fn cuts_inside(domain: &[(i32, i32)], cutting: &RawCutting) -> bool
    ensures { IsTrue result ↔ CutsInside (axes_of domain.now) cutting.now }
{
    match cutting {
        RawCutting::Blocks(_) => true,
        RawCutting::Cuts(cuts) => all_are_borders(domain, cuts.as_slice()),
    }
}

/// How many axes are cut.
pub fn cut_count(cutting: &RawCutting) -> usize
    ensures { result ≡ cut_count cutting.now }
{
    match cutting {
        RawCutting::Blocks(blocks) => blocks.len(),
        RawCutting::Cuts(cuts) => cuts.len(),
    }
}

/// Whether the bounds of each axis lie within plus and minus 1,000,000.
pub fn are_near_zero(domain: &[(i32, i32)]) -> bool
    ensures { IsTrue result ↔ All IsNearZero domain.now }
{
    domain.iter().all(|bounds| bounds.0.unsigned_abs() <= 1_000_000
        && bounds.1.unsigned_abs() <= 1_000_000)
}

/// Whether a number of guard layers is 0 to 8.
fn is_depth(layers: i32) -> bool
    ensures { IsTrue result ↔ ((pos 0 ≤ℤ layers) × (layers ≤ℤ pos 8)) }
{
    (0..=8).contains(&layers)
}

/// Whether each axis has 0 to 8 guard layers.
pub fn have_few_layers(domain: &[(i32, i32)], list: &[i32]) -> bool
    ensures { IsTrue result ↔ AreFew LimitName.Guards (layers (axes_of domain.now) list.now) }
{
    list.iter().all(|layers| is_depth(*layers))
}

/// Whether an axis has no more guard layers than numbers.
fn is_covering(bounds: (i32, i32), layers: i32) -> bool
    ensures { IsTrue result ↔ IsCovering (interval bounds.0 bounds.1) layers }
{
    if layers <= 0 {
        return true;
    }
    layers as u64 <= axis_len(bounds)
}

fn all_are_covering(domain: &[(i32, i32)], list: &[i32]) -> bool
    ensures { IsTrue result ↔ AllZip IsCovering (axes_of domain.now) list.now }
{
    match domain {
        [] => list.is_empty(),
        [bounds, axes @ ..] => match list {
            [] => false,
            [layers, others @ ..] => is_covering(*bounds, *layers)
                && all_are_covering(axes, others),
        },
    }
}

/// Whether each axis has no more guard layers than numbers.
#[tactic(auto, using(crate::proofs::Guards::left_out_covers))]
pub fn are_covering(domain: &[(i32, i32)], list: &[i32]) -> bool
    ensures { IsTrue result ↔ AllZip IsCovering (axes_of domain.now) (layers (axes_of domain.now) list.now) }
{
    match list {
        [] => true,
        [_, ..] => all_are_covering(domain, list),
    }
}
