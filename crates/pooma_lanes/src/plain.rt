//! What is done place by place: products, quotients, signs and bits.
//!
//! A vector of two lanes has no product and no quotient of 64 bits. Of the others the compiler is given the plain loop.
ghost use Rattle.std.specs.Prelude.{◌≡◌, length, pos, ◌*ℤ◌, neg_ℤ, int_div, int_rem, unsigned_abs, Ok};
ghost use Rattle.std.specs.Int.{int_bit_and, int_bit_or, w64};
ghost use Rattle.pooma_num.specs.Exact.{IsExact, IsExactDivision};
ghost use Rattle.pooma_lanes.specs.Rows.{IsDone, IsEach, IsOfLength, number_at};

use crate::kernel::{self, Checked};
use crate::row::{Place, Row};
use pooma_num::FaultKind;

struct Product;

impl Checked for Product {
    ghost answers = { λ a b r. IsExact r (a *ℤ b) };

    #[inline(always)]
    fn one(a: i64, b: i64) -> Result<i64, FaultKind> {
        pooma_num::mul(a, b)
    }
}

struct Quotient;

impl Checked for Quotient {
    ghost answers = { λ a b r. IsExactDivision r b (int_div a b) };

    #[inline(always)]
    fn one(a: i64, b: i64) -> Result<i64, FaultKind> {
        pooma_num::div(a, b)
    }
}

struct Remainder;

impl Checked for Remainder {
    ghost answers = { λ a b r. IsExactDivision r b (int_rem a b) };

    #[inline(always)]
    fn one(a: i64, b: i64) -> Result<i64, FaultKind> {
        pooma_num::rem(a, b)
    }
}

struct Negation;

impl Checked for Negation {
    ghost answers = { λ a b r. IsExact r (neg_ℤ a) };

    #[inline(always)]
    fn one(a: i64, _b: i64) -> Result<i64, FaultKind> {
        pooma_num::neg(a)
    }
}

struct Magnitude;

impl Checked for Magnitude {
    ghost answers = { λ a b r. IsExact r (pos (unsigned_abs a)) };

    #[inline(always)]
    fn one(a: i64, _b: i64) -> Result<i64, FaultKind> {
        pooma_num::abs(a)
    }
}

struct BitAnd;

impl Checked for BitAnd {
    ghost answers = { λ a b r. r ≡ Ok (int_bit_and w64 a b) };

    #[inline(always)]
    fn one(a: i64, b: i64) -> Result<i64, FaultKind> {
        Ok(a & b)
    }
}

struct BitOr;

impl Checked for BitOr {
    ghost answers = { λ a b r. r ≡ Ok (int_bit_or w64 a b) };

    #[inline(always)]
    fn one(a: i64, b: i64) -> Result<i64, FaultKind> {
        Ok(a | b)
    }
}

/// The product at each place. `Err` is as in `add_rows`.
pub fn mul_rows(a: Row, b: Row, out: &mut [i64]) -> Result<(), Place>
    requires left { IsOfLength a (length out.old) }
    requires right { IsOfLength b (length out.old) }
    ensures { IsDone (λ k r. IsExact r (number_at a.entry k *ℤ number_at b.entry k)) result out.old out.new }
{
    kernel::one_by_one::<Product>(a, b, out)
}

/// The quotient at each place, cut toward zero. `Err` names the least place whose divisor is 0 or whose quotient doesn't fit; the
/// places below it then have their quotients and the others are as before.
pub fn div_rows(a: Row, b: Row, out: &mut [i64]) -> Result<(), Place>
    requires left { IsOfLength a (length out.old) }
    requires right { IsOfLength b (length out.old) }
    ensures { IsDone (λ k r. IsExactDivision r (number_at b.entry k) (int_div (number_at a.entry k) (number_at b.entry k))) result out.old out.new }
{
    kernel::one_by_one::<Quotient>(a, b, out)
}

/// What the division at each place leaves, with the sign of the first number. `Err` names the least place whose divisor is 0; the
/// places below it then have what is left and the others are as before.
pub fn rem_rows(a: Row, b: Row, out: &mut [i64]) -> Result<(), Place>
    requires left { IsOfLength a (length out.old) }
    requires right { IsOfLength b (length out.old) }
    ensures { IsDone (λ k r. IsExactDivision r (number_at b.entry k) (int_rem (number_at a.entry k) (number_at b.entry k))) result out.old out.new }
{
    kernel::one_by_one::<Remainder>(a, b, out)
}

/// Each number with the other sign. `Err` is as in `add_rows`.
pub fn neg_rows(a: Row, out: &mut [i64]) -> Result<(), Place>
    requires { IsOfLength a (length out.old) }
    ensures { IsDone (λ k r. IsExact r (neg_ℤ (number_at a.entry k))) result out.old out.new }
{
    kernel::one_by_one::<Negation>(a, a, out)
}

/// Each number without its sign. `Err` is as in `add_rows`.
pub fn abs_rows(a: Row, out: &mut [i64]) -> Result<(), Place>
    requires { IsOfLength a (length out.old) }
    ensures { IsDone (λ k r. IsExact r (pos (unsigned_abs (number_at a.entry k)))) result out.old out.new }
{
    kernel::one_by_one::<Magnitude>(a, a, out)
}

/// The bits that both numbers have at each place.
#[tactic(auto, using(crate::proofs::Places::each_done))]
pub fn and_rows(a: Row, b: Row, out: &mut [i64])
    requires left { IsOfLength a (length out.old) }
    requires right { IsOfLength b (length out.old) }
    ensures { IsEach (λ k. int_bit_and w64 (number_at a.entry k) (number_at b.entry k)) out.new }
{
    let _ = kernel::one_by_one::<BitAnd>(a, b, out);
}

/// The bits that either number has at each place.
#[tactic(auto, using(crate::proofs::Places::each_done))]
pub fn or_rows(a: Row, b: Row, out: &mut [i64])
    requires left { IsOfLength a (length out.old) }
    requires right { IsOfLength b (length out.old) }
    ensures { IsEach (λ k. int_bit_or w64 (number_at a.entry k) (number_at b.entry k)) out.new }
{
    let _ = kernel::one_by_one::<BitOr>(a, b, out);
}
