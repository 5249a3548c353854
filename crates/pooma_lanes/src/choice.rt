//! The choice between two numbers at each place.
ghost use Rattle.std.specs.Prelude.{length, pos, if◌then◌else◌};
ghost use Rattle.std.specs.Ordering.{int_eq};
ghost use Rattle.pooma_lanes.specs.Rows.{IsEach, IsOfLength, number_at};

use crate::row::Row;

/// At each place the number of `a`, or that of `b` where `chosen` is 0.
pub fn select_rows(chosen: Row, a: Row, b: Row, out: &mut [i64])
    requires chosen { IsOfLength chosen (length out.old) }
    requires left { IsOfLength a (length out.old) }
    requires right { IsOfLength b (length out.old) }
    ensures { IsEach (λ k. if int_eq (number_at chosen.entry k) (pos 0) then number_at b.entry k else number_at a.entry k) out.new }
{
    for k in 0..out.len() {
        let (yes, no) = (a.number(k), b.number(k));
        out[k] = if chosen.number(k) == 0 { no } else { yes };
    }
}
