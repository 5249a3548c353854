//! The lesser and the greater number, and comparisons.
ghost use Rattle.std.specs.Prelude.{◌≡◌, length, not, Ok, int_le, int_lt};
ghost use Rattle.std.specs.Int.{int_max, int_min};
ghost use Rattle.std.specs.Ordering.{int_eq};
ghost use Rattle.pooma_lanes.specs.Orders.{as_number, holds};
ghost use Rattle.pooma_lanes.specs.Rows.{IsEach, IsOfLength, number_at};

use crate::kernel::{self, Checked, CheckedLanes};
use crate::row::Row;
use pooma_num::FaultKind;
use std::simd::prelude::*;

/// A comparison.
#[derive(Clone, Copy, Debug, PartialEq, Eq)]
pub enum Compare {
    /// The first number is below the second.
    Less,
    /// The first number is not above the second.
    LessEq,
    /// The first number is above the second.
    Greater,
    /// The first number is not below the second.
    GreaterEq,
    /// The numbers are the same.
    Equal,
    /// The numbers are not the same.
    Unequal,
}

struct Min;

impl Checked for Min {
    ghost answers = { λ a b r. r ≡ Ok (int_min a b) };

    #[inline(always)]
    fn one(a: i64, b: i64) -> Result<i64, FaultKind> {
        Ok(a.min(b))
    }
}

impl CheckedLanes for Min {
    #[inline(always)]
    fn block(a: i64x8, b: i64x8) -> (i64x8, bool) {
        (a.simd_min(b), true)
    }
}

struct Max;

impl Checked for Max {
    ghost answers = { λ a b r. r ≡ Ok (int_max a b) };

    #[inline(always)]
    fn one(a: i64, b: i64) -> Result<i64, FaultKind> {
        Ok(a.max(b))
    }
}

impl CheckedLanes for Max {
    #[inline(always)]
    fn block(a: i64x8, b: i64x8) -> (i64x8, bool) {
        (a.simd_max(b), true)
    }
}

struct Less;

impl Checked for Less {
    ghost answers = { λ a b r. r ≡ Ok (as_number (int_lt a b)) };

    #[inline(always)]
    fn one(a: i64, b: i64) -> Result<i64, FaultKind> {
        Ok(i64::from(a < b))
    }
}

impl CheckedLanes for Less {
    #[inline(always)]
    fn block(a: i64x8, b: i64x8) -> (i64x8, bool) {
        let numbers = a.simd_lt(b).select(i64x8::splat(1), i64x8::splat(0));
        (numbers, true)
    }
}

struct LessEq;

impl Checked for LessEq {
    ghost answers = { λ a b r. r ≡ Ok (as_number (int_le a b)) };

    #[inline(always)]
    fn one(a: i64, b: i64) -> Result<i64, FaultKind> {
        Ok(i64::from(a <= b))
    }
}

impl CheckedLanes for LessEq {
    #[inline(always)]
    fn block(a: i64x8, b: i64x8) -> (i64x8, bool) {
        let numbers = a.simd_le(b).select(i64x8::splat(1), i64x8::splat(0));
        (numbers, true)
    }
}

struct Equal;

impl Checked for Equal {
    ghost answers = { λ a b r. r ≡ Ok (as_number (int_eq a b)) };

    #[inline(always)]
    fn one(a: i64, b: i64) -> Result<i64, FaultKind> {
        Ok(i64::from(a == b))
    }
}

impl CheckedLanes for Equal {
    #[inline(always)]
    fn block(a: i64x8, b: i64x8) -> (i64x8, bool) {
        let numbers = a.simd_eq(b).select(i64x8::splat(1), i64x8::splat(0));
        (numbers, true)
    }
}

struct Unequal;

impl Checked for Unequal {
    ghost answers = { λ a b r. r ≡ Ok (as_number (not (int_eq a b))) };

    #[inline(always)]
    fn one(a: i64, b: i64) -> Result<i64, FaultKind> {
        Ok(i64::from(a != b))
    }
}

impl CheckedLanes for Unequal {
    #[inline(always)]
    fn block(a: i64x8, b: i64x8) -> (i64x8, bool) {
        let numbers = a.simd_ne(b).select(i64x8::splat(1), i64x8::splat(0));
        (numbers, true)
    }
}

/// The lesser number at each place.
#[tactic(auto, using(crate::proofs::Places::each_done))]
pub fn min_rows(a: Row, b: Row, out: &mut [i64])
    requires left { IsOfLength a (length out.old) }
    requires right { IsOfLength b (length out.old) }
    ensures { IsEach (λ k. int_min (number_at a.entry k) (number_at b.entry k)) out.new }
{
    let _ = kernel::by_lanes::<Min>(a, b, out);
}

/// The greater number at each place.
#[tactic(auto, using(crate::proofs::Places::each_done))]
pub fn max_rows(a: Row, b: Row, out: &mut [i64])
    requires left { IsOfLength a (length out.old) }
    requires right { IsOfLength b (length out.old) }
    ensures { IsEach (λ k. int_max (number_at a.entry k) (number_at b.entry k)) out.new }
{
    let _ = kernel::by_lanes::<Max>(a, b, out);
}

/// 1 at each place where the comparison holds, and 0 at the others.
#[tactic(auto, using(crate::proofs::Places::each_done))]
pub fn compare_rows(op: Compare, a: Row, b: Row, out: &mut [i64])
    requires left { IsOfLength a (length out.old) }
    requires right { IsOfLength b (length out.old) }
    ensures { IsEach (λ k. as_number (holds op (number_at a.entry k) (number_at b.entry k))) out.new }
{
    let _ = match op {
        Compare::Less => kernel::by_lanes::<Less>(a, b, out),
        Compare::LessEq => kernel::by_lanes::<LessEq>(a, b, out),
        Compare::Greater => kernel::by_lanes::<Less>(b, a, out),
        Compare::GreaterEq => kernel::by_lanes::<LessEq>(b, a, out),
        Compare::Equal => kernel::by_lanes::<Equal>(a, b, out),
        Compare::Unequal => kernel::by_lanes::<Unequal>(a, b, out),
    };
}
