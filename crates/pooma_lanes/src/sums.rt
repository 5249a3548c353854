//! Sums and differences.
ghost use Rattle.std.specs.Prelude.{◌≡◌, length, ◌+ℤ◌, ◌-ℤ◌};
ghost use Rattle.pooma_num.specs.Exact.{IsExact};
ghost use Rattle.pooma_lanes.specs.Rows.{IsDone, IsOfLength, number_at};

use crate::block;
use crate::kernel::{self, Checked, CheckedLanes};
use crate::row::{Place, Row};
use pooma_num::FaultKind;
use std::simd::prelude::*;

pub(crate) struct Sum;

impl Checked for Sum {
    ghost answers = { λ a b r. IsExact r (a +ℤ b) };

    #[inline(always)]
    fn one(a: i64, b: i64) -> Result<i64, FaultKind> {
        pooma_num::add(a, b)
    }
}

impl CheckedLanes for Sum {
    #[inline(always)]
    fn block(a: i64x8, b: i64x8) -> (i64x8, bool) {
        let sums = a + b;
        (sums, block::signs_hold(sums, a, b))
    }
}

struct Difference;

impl Checked for Difference {
    ghost answers = { λ a b r. IsExact r (a -ℤ b) };

    #[inline(always)]
    fn one(a: i64, b: i64) -> Result<i64, FaultKind> {
        pooma_num::sub(a, b)
    }
}

impl CheckedLanes for Difference {
    // The first number is the total of the difference and the second.
    #[inline(always)]
    fn block(a: i64x8, b: i64x8) -> (i64x8, bool) {
        let differences = a - b;
        (differences, block::signs_hold(a, differences, b))
    }
}

/// The sum at each place. `Err` names the least place whose sum doesn't fit; the places below it then have their sums and the
/// others are as before.
pub fn add_rows(a: Row, b: Row, out: &mut [i64]) -> Result<(), Place>
    requires left { IsOfLength a (length out.old) }
    requires right { IsOfLength b (length out.old) }
    ensures { IsDone (λ k r. IsExact r (number_at a.entry k +ℤ number_at b.entry k)) result out.old out.new }
{
    kernel::by_lanes::<Sum>(a, b, out)
}

/// The first number less the second at each place. `Err` is as in `add_rows`.
pub fn sub_rows(a: Row, b: Row, out: &mut [i64]) -> Result<(), Place>
    requires left { IsOfLength a (length out.old) }
    requires right { IsOfLength b (length out.old) }
    ensures { IsDone (λ k r. IsExact r (number_at a.entry k -ℤ number_at b.entry k)) result out.old out.new }
{
    kernel::by_lanes::<Difference>(a, b, out)
}
