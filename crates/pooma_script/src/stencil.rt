//! Tests of what the line of a stencil says: its extents and its offsets.
ghost use Rattle.std.specs.Prelude.{◌≡◌, ◌↔◌, ◌≤◌, ◌≤ℤ◌, neg_ℤ, length, All, IsTrue};
ghost use Rattle.pooma_domain.specs.Cells.{IsIn};
ghost use Rattle.pooma_domain.specs.Operations.{reaches};
ghost use Rattle.pooma_script.specs.Bodies.{depth_in, offsets_in};

use crate::conjunction::both;
use pooma_parse::RawExpr;

/// Whether the body is no deeper than this, where a leaf is 1.
pub fn is_within_depth(body: &RawExpr, most: u32) -> bool
    ensures { IsTrue result ↔ (depth_in body.now ≤ most) }
{
    if most == 0 {
        return false;
    }
    let most = most - 1;
    match body {
        RawExpr::Number(_)
        | RawExpr::Index(_)
        | RawExpr::View(_)
        | RawExpr::Apply { .. }
        | RawExpr::At(_) => true,
        RawExpr::Neg(a) | RawExpr::Abs(a) => is_within_depth(a.get(), most),
        RawExpr::Bin(_, a, b) => is_within_depth(a.get(), most) && is_within_depth(b.get(), most),
        RawExpr::Where(c, a, b) => {
            is_within_depth(c.get(), most)
                && is_within_depth(a.get(), most)
                && is_within_depth(b.get(), most)
        }
    }
}

/// Whether each offset has so many numbers.
pub fn have_axes(body: &RawExpr, axes: usize) -> bool
    ensures { IsTrue result ↔ All (λ offset. length offset ≡ axes) (offsets_in body.now) }
{
    match body {
        RawExpr::At(offset) => offset.len() == axes,
        RawExpr::Number(_) | RawExpr::Index(_) | RawExpr::View(_) | RawExpr::Apply { .. } => true,
        RawExpr::Neg(a) | RawExpr::Abs(a) => have_axes(a.get(), axes),
        RawExpr::Bin(_, a, b) => both(have_axes(a.get(), axes), have_axes(b.get(), axes)),
        RawExpr::Where(c, a, b) => {
            let branches = both(have_axes(a.get(), axes), have_axes(b.get(), axes));
            both(have_axes(c.get(), axes), branches)
        }
    }
}

/// Whether a move goes down by at most a lower and up by at most an upper extent.
fn goes_within(low: i32, high: i32, by: i32) -> bool
    ensures { IsTrue result ↔ ((neg_ℤ low ≤ℤ by) × (by ≤ℤ high)) }
{
    if -i64::from(low) > i64::from(by) {
        return false;
    }
    by <= high
}

/// Whether a move by the offset goes down by at most the lower and up by at most the upper extent of each axis.
fn reach(lower: &[i32], upper: &[i32], offset: &[i32]) -> bool
    ensures { IsTrue result ↔ IsIn (reaches lower.now upper.now) offset.now }
{
    match lower {
        [] => offset.is_empty(),
        [low, lows @ ..] => match upper {
            [] => offset.is_empty(),
            [high, highs @ ..] => match offset {
                [] => false,
                [by, others @ ..] => goes_within(*low, *high, *by) && reach(lows, highs, others),
            },
        },
    }
}

/// Whether each offset is within the extents.
pub fn are_within(body: &RawExpr, lower: &[i32], upper: &[i32]) -> bool
    ensures { IsTrue result ↔ All (IsIn (reaches lower.now upper.now)) (offsets_in body.now) }
{
    match body {
        RawExpr::At(offset) => reach(lower, upper, offset.as_slice()),
        RawExpr::Number(_) | RawExpr::Index(_) | RawExpr::View(_) | RawExpr::Apply { .. } => true,
        RawExpr::Neg(a) | RawExpr::Abs(a) => are_within(a.get(), lower, upper),
        RawExpr::Bin(_, a, b) => both(
            are_within(a.get(), lower, upper),
            are_within(b.get(), lower, upper),
        ),
        RawExpr::Where(c, a, b) => {
            let branches = both(
                are_within(a.get(), lower, upper),
                are_within(b.get(), lower, upper),
            );
            both(are_within(c.get(), lower, upper), branches)
        }
    }
}
