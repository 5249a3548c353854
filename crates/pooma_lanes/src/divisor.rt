//! Quotients by one number without a division: by a shift, or by the high half of a product with a constant that is worked out
//! once (Granlund and Montgomery, 1994).
ghost use Rattle.std.specs.Prelude.{◌≡◌, ◌≢◌, ℕ, ◌+◌, ◌*◌, ◌/◌, ◌^◌, ◌<◌, ◌≤◌, pos, true, false, neg_ℤ, unsigned_abs, int_div, int_rem, if◌then◌else◌};
ghost use Rattle.pooma_num.specs.Exact.{IsExactDivision};
ghost use Rattle.pooma_lanes.specs.Divisors.{quotient_by, shift_of};

use pooma_num::FaultKind;
use std::marker::Model;

/// How a quotient of natural numbers is found.
#[derive(Clone, Copy)]
enum Way {
    /// By a shift, where the divisor is a power of two.
    Shift(u32),
    /// By the high half of the product with a factor, and a shift.
    Product(u64, u32),
}

/// A divisor that is not 0, with what takes the place of a division by it.
#[derive(Drop)]
pub struct Divisor {
    number: i64,
    size: u64,
    way: Way,
}

impl Model for Divisor {
    ghost use Rattle.std.specs.Prelude.{◌≡◌, ℕ, ℤ, ◌/◌, ◌^◌, ◌<◌, ◌≤◌, unsigned_abs};
    ghost use Rattle.pooma_lanes.specs.Divisors.{quotient_by, shift_of};

    ghost Value = { ℤ };

    ghost view = { λ d. d.number };

    ghost invariant = { λ d. (d.size ≡ unsigned_abs d.number) × (0 < d.size) × (shift_of d.way < 64) × ((a : ℕ) → a ≤ 2 ^ 63 → quotient_by d.way a ≡ a / d.size) × (d.size ≤ 2 ^ 63) };
}

impl Way {
    // With 2^k the greatest power of two that is not above the size, the factor is the next number above 2^(64 + k) / size. What
    // it is too large by adds less than one unit to a quotient of a number up to 2^63.
    fn of(size: u64) -> Way
        requires some { 0 < size }
        requires size { size ≤ 2 ^ 63 }
        ensures shift { shift_of result < 64 }
        ensures exact { (a : ℕ) → a ≤ 2 ^ 63 → quotient_by result a ≡ a / size }
    {
        let shift = size.ilog2();
        let power = 1u64 << shift;
        if size == power {
            return Way::Shift(shift);
        }
        let factor = (u128::from(power) << 64) / u128::from(size) + 1;
        Way::Product(factor as u64, shift)
    }

    #[inline(always)]
    fn quotient(self, a: u64) -> u64
        requires shift { shift_of self < 64 }
        requires number { a ≤ 2 ^ 63 }
        ensures { result ≡ quotient_by self a }
    {
        match self {
            Way::Shift(shift) => a >> shift,
            Way::Product(factor, shift) => {
                let product = u128::from(a) * u128::from(factor);
                (product >> 64) as u64 >> shift
            }
        }
    }
}

/// The size with a sign: of a size of 2^63 only the negative number is there.
#[inline(always)]
fn signed(size: u64, is_negative: bool) -> i64
    requires { size ≤ 2 ^ 63 }
    ensures negative { is_negative ≡ true → result ≡ neg_ℤ (pos size) }
    ensures positive { is_negative ≡ false → size < 2 ^ 63 → result ≡ pos size }
{
    if is_negative {
        return size.wrapping_neg().cast_signed();
    }
    size.cast_signed()
}

impl Divisor {
    /// The divisor with its constant, which takes one division.
    pub fn new(number: i64) -> Divisor
        requires { number ≢ pos 0 }
        ensures { result ≡ number }
    {
        let size = number.unsigned_abs();
        Divisor {
            number,
            size,
            way: Way::of(size),
        }
    }

    /// The quotient, cut toward zero. `Overflow` exactly where the least number is divided by -1.
    #[inline(always)]
    pub(crate) fn quotient(&self, a: i64) -> Result<i64, FaultKind>
        ensures { IsExactDivision result self.now (int_div a self.now) }
    {
        if self.number == -1 {
            return pooma_num::neg(a);
        }
        let size = self.way.quotient(a.unsigned_abs());
        Ok(signed(size, (a < 0) != (self.number < 0)))
    }

    /// What the division leaves, with the sign of `a`.
    #[inline(always)]
    pub(crate) fn remainder(&self, a: i64) -> i64
        ensures { result ≡ int_rem a self.now }
    {
        let size = a.unsigned_abs();
        let left = size - self.way.quotient(size) * self.size;
        signed(left, a < 0)
    }
}
