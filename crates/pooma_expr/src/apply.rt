//! What an operator makes of two numbers.
ghost use Rattle.std.specs.Prelude.{◌≡◌};
ghost use Rattle.pooma_expr.specs.Values.{result_of};

use crate::tree::Op;
use pooma_num::{FaultKind, add, div, mul, rem, sub};

/// What the operator makes of two numbers, or the fault.
#[inline(always)]
pub(crate) fn apply(op: Op, x: i64, y: i64) -> Result<i64, FaultKind>
    ensures { result ≡ result_of op x y }
{
    match op {
        Op::Add => add(x, y),
        Op::Sub => sub(x, y),
        Op::Mul => mul(x, y),
        Op::Div => div(x, y),
        Op::Rem => rem(x, y),
        Op::Min => Ok(x.min(y)),
        Op::Max => Ok(x.max(y)),
        Op::Less => Ok(i64::from(x < y)),
        Op::LessEq => Ok(i64::from(x <= y)),
        Op::Greater => Ok(i64::from(x > y)),
        Op::GreaterEq => Ok(i64::from(x >= y)),
        Op::Equal => Ok(i64::from(x == y)),
        Op::Unequal => Ok(i64::from(x != y)),
        Op::BitAnd => Ok(x & y),
        Op::BitOr => Ok(x | y),
    }
}
