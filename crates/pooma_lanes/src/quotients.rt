//! Quotients by one number for a whole row.
ghost use Rattle.std.specs.Prelude.{length, int_div, int_rem};
ghost use Rattle.pooma_num.specs.Exact.{IsExactDivision};
ghost use Rattle.pooma_lanes.specs.Rows.{IsDone, IsEach, IsOfLength, number_at};

use crate::divisor::Divisor;
use crate::row::{Place, Row};

/// The quotient by the divisor at each place, cut toward zero. `Err` names the least place whose quotient doesn't fit, which is the
/// least number by -1; the places below it then have their quotients and the others are as before.
pub fn div_rows_by(a: Row, by: &Divisor, out: &mut [i64]) -> Result<(), Place>
    requires { IsOfLength a (length out.old) }
    ensures { IsDone (λ k r. IsExactDivision r by.now (int_div (number_at a.entry k) by.now)) result out.old out.new }
{
    for k in 0..out.len() {
        match by.quotient(a.number(k)) {
            Ok(number) => out[k] = number,
            Err(_) => return Err(Place(k)),
        }
    }
    Ok(())
}

/// What the division by the divisor leaves at each place, with the sign of the number.
pub fn rem_rows_by(a: Row, by: &Divisor, out: &mut [i64])
    requires { IsOfLength a (length out.old) }
    ensures { IsEach (λ k. int_rem (number_at a.entry k) by.now) out.new }
{
    for k in 0..out.len() {
        out[k] = by.remainder(a.number(k));
    }
}
