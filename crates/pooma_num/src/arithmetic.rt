//! The arithmetic of 64 bits, which answers the exact number or names its fault.
ghost use Rattle.std.specs.Prelude.{◌≡◌, ◌↔◌, pos, negsuc, ◌+ℤ◌, ◌-ℤ◌, ◌*ℤ◌, neg_ℤ, unsigned_abs, int_div, int_rem, IsErr, IsErrOf};
ghost use Rattle.pooma_num.specs.Exact.{IsExact, IsExactDivision};

use crate::fault::FaultKind;

/// The sum, or `Overflow` exactly where it doesn't fit.
pub fn add(a: i64, b: i64) -> Result<i64, FaultKind>
    ensures { IsExact result (a +ℤ b) }
{
    a.checked_add(b).ok_or(FaultKind::Overflow)
}

/// The difference, or `Overflow` exactly where it doesn't fit.
pub fn sub(a: i64, b: i64) -> Result<i64, FaultKind>
    ensures { IsExact result (a -ℤ b) }
{
    a.checked_sub(b).ok_or(FaultKind::Overflow)
}

/// The product, or `Overflow` exactly where it doesn't fit.
pub fn mul(a: i64, b: i64) -> Result<i64, FaultKind>
    ensures { IsExact result (a *ℤ b) }
{
    a.checked_mul(b).ok_or(FaultKind::Overflow)
}

/// The quotient, cut toward zero. `ZeroDivisor` exactly where `b` is 0, and `Overflow` exactly where the least number is
/// divided by -1.
pub fn div(a: i64, b: i64) -> Result<i64, FaultKind>
    ensures exact { IsExactDivision result b (int_div a b) }
    ensures overflow { IsErrOf result FaultKind.Overflow ↔ ((a ≡ i64.MIN) × (b ≡ negsuc 0)) }
{
    if b == 0 {
        return Err(FaultKind::ZeroDivisor);
    }
    a.checked_div(b).ok_or(FaultKind::Overflow)
}

/// What `div` leaves, with the sign of `a`. `ZeroDivisor` exactly where `b` is 0. There is no overflow: by -1 it leaves 0.
pub fn rem(a: i64, b: i64) -> Result<i64, FaultKind>
    ensures exact { IsExactDivision result b (int_rem a b) }
    ensures no_overflow { ¬ (IsErrOf result FaultKind.Overflow) }
{
    if b == 0 {
        return Err(FaultKind::ZeroDivisor);
    }
    // At -1 the machine's division could overflow, and nothing is left.
    if b == -1 { Ok(0) } else { Ok(a % b) }
}

/// The number with the other sign, or `Overflow` exactly at the least number.
pub fn neg(a: i64) -> Result<i64, FaultKind>
    ensures exact { IsExact result (neg_ℤ a) }
    ensures overflow { IsErr result ↔ (a ≡ i64.MIN) }
{
    a.checked_neg().ok_or(FaultKind::Overflow)
}

/// The number without its sign, or `Overflow` exactly at the least number.
pub fn abs(a: i64) -> Result<i64, FaultKind>
    ensures exact { IsExact result (pos (unsigned_abs a)) }
    ensures overflow { IsErr result ↔ (a ≡ i64.MIN) }
{
    a.checked_abs().ok_or(FaultKind::Overflow)
}
