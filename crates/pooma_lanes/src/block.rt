//! Blocks of numbers: a row is worked through eight numbers at a time.
ghost use Rattle.std.specs.Prelude.{◌≡◌, ◌+◌, ◌≤◌, length, ℕ, pos, slice_index_or, IsTrue};
ghost use Rattle.std.specs.Simd.Lanes.{put_chunk};
ghost use Rattle.pooma_lanes.specs.Blocks.{HaveSigns, IsBlock, IsBlockOf};

use std::simd::prelude::*;

/// The numbers at the places from `at` on.
#[inline(always)]
pub(crate) fn load(numbers: &[i64], at: usize) -> i64x8
    requires { at + 8 ≤ length numbers.now }
    ensures { IsBlockOf (λ k. slice_index_or numbers.now k (pos 0)) at result }
{
    i64x8::from_array([
        numbers[at],
        numbers[at + 1],
        numbers[at + 2],
        numbers[at + 3],
        numbers[at + 4],
        numbers[at + 5],
        numbers[at + 6],
        numbers[at + 7],
    ])
}

/// One number in each lane.
#[inline(always)]
pub(crate) fn of_one(number: i64) -> i64x8
    ensures { IsBlockOf (λ _. number) 0 result }
{
    i64x8::splat(number)
}

/// Writes the numbers of a block to the places from `at` on.
#[inline(always)]
pub(crate) fn store(block: i64x8, out: &mut [i64], at: usize)
    requires block { IsBlock block }
    requires room { at + 8 ≤ length out.old }
    ensures { out.new ≡ put_chunk at out.old block }
{
    block.copy_to_slice(&mut out[at..])
}

/// Whether in each lane the total has the sign of one of its two parts: then it is their exact sum.
#[inline(always)]
pub(crate) fn signs_hold(total: i64x8, a: i64x8, b: i64x8) -> bool
    requires total { IsBlock total }
    requires left { IsBlock a }
    requires right { IsBlock b }
    ensures { IsTrue result → HaveSigns total a b }
{
    let zero = i64x8::splat(0);
    let total = total.simd_lt(zero);
    let wrong = (total ^ a.simd_lt(zero)) & (total ^ b.simd_lt(zero));
    !wrong.any()
}
