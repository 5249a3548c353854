//! The operands of a kernel, and the place at which one stops.
ghost use Rattle.std.specs.Prelude.{◌≡◌, ◌+◌, ◌≤◌, ◌<◌};
ghost use Rattle.pooma_lanes.specs.Rows.{HasPlaces, number_at};
ghost use Rattle.pooma_lanes.specs.Blocks.{IsBlockOf};

use crate::block;
use std::simd::prelude::*;

/// A place of a row, counted from 0.
#[derive(Clone, Copy, Debug, PartialEq, Eq)]
pub struct Place(pub usize);

/// An operand: a number for each place of the row, or one number for all of them.
#[derive(Clone, Copy)]
pub enum Row<'a> {
    /// The numbers of the places in turn.
    Numbers(&'a [i64]),
    /// The same number at each place.
    One(i64),
}

impl<'a> Row<'a> {
    /// The number at a place.
    #[inline(always)]
    pub(crate) fn number(self, k: usize) -> i64
        requires { HasPlaces self (k + 1) }
        ensures { result ≡ number_at self.entry k }
    {
        match self {
            Row::Numbers(numbers) => numbers[k],
            Row::One(number) => number,
        }
    }

    /// The numbers at the places from `at` on that make up one block.
    #[inline(always)]
    pub(crate) fn block(self, at: usize) -> i64x8
        requires { HasPlaces self (at + 8) }
        ensures { IsBlockOf (number_at self.entry) at result }
    {
        match self {
            Row::Numbers(numbers) => block::load(numbers, at),
            Row::One(number) => block::of_one(number),
        }
    }
}
