//! Counts that are kept past the limits of the language: from `CAP` on they say no more than that they are as great.
ghost use Rattle.std.specs.Prelude.{◌≡◌, ◌*◌, min, length, map};
ghost use Rattle.pooma_domain.specs.Cells.{cells_of, count_of};
ghost use Rattle.pooma_layout.specs.Blocks.{product};
ghost use Rattle.pooma_script.specs.Layouts.{axes_of};
ghost use Rattle.pooma_script.specs.Tests.{parts_by};

use crate::layout::axis_len;
use pooma_domain::order_of_cells;
use pooma_parse::{RawCutting, RawList};

/// More than any limit of the language.
pub const CAP: u64 = 2_147_483_648;

/// The product of two counts, or `CAP` where it is greater.
pub fn times(a: u64, b: u64) -> u64
    ensures { result ≡ min (a * b) CAP }
{
    a.saturating_mul(b).min(CAP)
}

/// How many cells a domain has, or `CAP` where it has more.
pub fn cells_in(domain: &[(i32, i32)]) -> u64
    ensures { result ≡ min (length (cells_of (axes_of domain.now))) CAP }
{
    order_of_cells();
    match domain {
        [] => 1,
        [bounds, axes @ ..] => times(axis_len(*bounds), cells_in(axes)),
    }
}

fn blocks_in(blocks: &[i32]) -> u64
    ensures { result ≡ min (product (map count_of blocks.now)) CAP }
{
    match blocks {
        [] => 1,
        [parts, others @ ..] => times((*parts).max(0) as u64, blocks_in(others)),
    }
}

fn parts_in(cuts: &[RawList<i32>]) -> u64
    ensures { result ≡ min (product (parts_by (RawCutting.Cuts cuts.now))) CAP }
{
    match cuts {
        [] => 1,
        [list, others @ ..] => times(list.as_slice().len() as u64 + 1, parts_in(others)),
    }
}

/// How many patches a layout has that is cut so, or `CAP` where it has more.
pub fn patches_in(cutting: &RawCutting) -> u64
    ensures { result ≡ min (product (parts_by cutting.now)) CAP }
{
    match cutting {
        RawCutting::Blocks(blocks) => blocks_in(blocks.as_slice()),
        RawCutting::Cuts(cuts) => parts_in(cuts.as_slice()),
    }
}
