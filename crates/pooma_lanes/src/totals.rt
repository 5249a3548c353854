//! The sum of a row, exactly.
ghost use Rattle.std.specs.Prelude.{◌≡◌, ◌+◌, ◌+ℤ◌, ◌*◌, ◌^◌, ◌≤◌, length, take, unsigned_abs};
ghost use Rattle.pooma_lanes.specs.Blocks.{IsBlock};
ghost use Rattle.pooma_lanes.specs.Totals.{sum_of};

use crate::block;
use crate::kernel::CheckedLanes;
use crate::sums::Sum;
use std::simd::prelude::*;

/// The sum of the numbers, exactly.
pub fn sum_row(numbers: &[i64]) -> i128
    requires { length numbers.now ≤ 2 ^ 23 }
    ensures exact { result ≡ sum_of numbers.now }
    ensures bound { unsigned_abs result ≤ length numbers.now * 2 ^ 63 }
{
    let (total, at) = sum_of_blocks(numbers);
    total + sum_one_by_one(&numbers[at..])
}

/// The same by the plain loop.
#[inline(always)]
fn sum_one_by_one(numbers: &[i64]) -> i128
    requires { length numbers.now ≤ 2 ^ 23 }
    ensures exact { result ≡ sum_of numbers.now }
    ensures bound { unsigned_abs result ≤ length numbers.now * 2 ^ 63 }
{
    let mut total = 0;
    for number in numbers {
        total += i128::from(*number);
    }
    total
}

/// The sum of the numbers of a block.
#[inline(always)]
fn sum_of_lanes(block: i64x8) -> i128
    requires { IsBlock block }
    ensures exact { result ≡ sum_of block }
    ensures bound { unsigned_abs result ≤ 2 ^ 66 }
{
    sum_one_by_one(&block.to_array())
}

/// Adds a block to the lanes' sums. Where one would overflow, these go to the total, and the lanes begin anew with the block.
#[inline(always)]
fn with_block(total: i128, sums: i64x8, block: i64x8) -> (i128, i64x8)
    requires room { unsigned_abs total ≤ 2 ^ 100 }
    requires sums { IsBlock sums }
    requires block { IsBlock block }
    ensures exact { result.0 +ℤ sum_of result.1 ≡ (total +ℤ sum_of sums) +ℤ sum_of block }
    ensures block { IsBlock result.1 }
    ensures bound { unsigned_abs result.0 ≤ unsigned_abs total + 2 ^ 66 }
{
    let (more, holds) = Sum::block(sums, block);
    if holds {
        return (total, more);
    }
    (total + sum_of_lanes(sums), block)
}

/// The sum of the numbers that make up whole blocks, and how many they are. Each lane has a sum of its own, of 64 bits.
#[inline(always)]
fn sum_of_blocks(numbers: &[i64]) -> (i128, usize)
    requires { length numbers.now ≤ 2 ^ 23 }
    ensures within { result.1 ≤ length numbers.now }
    ensures exact { result.0 ≡ sum_of (take result.1 numbers.now) }
    ensures bound { unsigned_abs result.0 ≤ result.1 * 2 ^ 63 }
{
    let mut total = 0;
    let mut sums = i64x8::splat(0);
    let mut at = 0;
    while numbers.len() - at >= 8 {
        (total, sums) = with_block(total, sums, block::load(numbers, at));
        at += 8;
    }
    (total + sum_of_lanes(sums), at)
}
