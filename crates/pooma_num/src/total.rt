//! Sums that are exact, whatever their parts.
ghost use Rattle.std.specs.Prelude.{◌≡◌, ◌+◌, ◌*◌, ◌^◌, ◌<◌, ◌≤◌, pos, unsigned_abs};
ghost use Rattle.pooma_num.specs.Exact.{IsExact};
ghost use Rattle.pooma_num.specs.Sum.{merged, pushed};

use crate::fault::FaultKind;
use std::marker::Model;

/// The sum of at most 2^23 numbers of 64 bits, and how many they are. Only `finish` can overflow: what stands between may
/// pass 64 bits.
#[derive(Clone, Copy, Debug, PartialEq, Eq)]
pub struct Total {
    number: i128,
    count: u32,
}

impl Model for Total {
    ghost use Rattle.std.specs.Prelude.{◌*◌, ◌^◌, ◌≤◌, unsigned_abs};
    ghost use Rattle.pooma_num.specs.Sum.{Sum};

    ghost Value = { Sum };

    ghost view = { λ t. record { number = t.number; count = t.count } };

    ghost invariant = { λ t. (unsigned_abs t.number ≤ t.count * 2 ^ 63) × (t.count ≤ 2 ^ 23) };

    ghost inverse = { λ s. record { number = s.number; count = s.count } };
}

impl Total {
    /// The sum of no numbers.
    pub fn new() -> Total
        ensures { result ≡ record { number = pos 0; count = 0 } }
    {
        Total {
            number: 0,
            count: 0,
        }
    }

    /// How many numbers were added.
    pub fn count(&self) -> u32
        ensures count { result ≡ self.now.count }
        ensures limit { result ≤ 2 ^ 23 }
    {
        self.count
    }

    /// Adds one number.
    pub fn push(&mut self, v: i64)
        requires { self.old.count < 2 ^ 23 }
        ensures { self.new ≡ pushed self.old v }
    {
        self.number += i128::from(v);
        self.count += 1;
    }

    /// Adds a row of `count` numbers by its sum, which is then one addition for all of them.
    pub fn add_row(&mut self, sum: i128, count: u32)
        requires room { self.old.count + count ≤ 2 ^ 23 }
        requires sum_of_64_bits { unsigned_abs sum ≤ count * 2 ^ 63 }
        ensures { self.new ≡ merged self.old (record { number = sum; count = count }) }
    {
        self.number += sum;
        self.count += count;
    }

    /// Adds the numbers of another total.
    pub fn merge(&mut self, other: Total)
        requires { self.old.count + other.count ≤ 2 ^ 23 }
        ensures { self.new ≡ merged self.old other }
    {
        self.number += other.number;
        self.count += other.count;
    }

    /// The sum, or `Overflow` exactly where it doesn't fit 64 bits.
    pub fn finish(self) -> Result<i64, FaultKind>
        ensures { IsExact result self.number }
    {
        i64::try_from(self.number).map_err(|_| FaultKind::Overflow)
    }
}
