//! The loops of the kernels, over what is done with two numbers and with two blocks of them.
ghost use Rattle.std.specs.Prelude.{◌≡◌, ◌+◌, ◌≤◌, length};
ghost use Rattle.pooma_lanes.specs.Rows.{IsDone, IsDoneFrom, IsDoneUpTo, IsOfLength, number_at};

use crate::block;
use crate::row::{Place, Row};
use pooma_num::FaultKind;
use std::simd::prelude::*;

/// What may be done with two numbers, or answer a fault.
pub(crate) trait Checked {
    ghost use Rattle.std.specs.Prelude.{ℤ, Result};
    ghost use Rattle.pooma_num.specs.declared.fault.FaultKind.{FaultKind};

    ghost answers: { ℤ → ℤ → Result ℤ FaultKind → Type 0 };

    /// What is answered at one place.
    fn one(a: i64, b: i64) -> Result<i64, FaultKind>
        ensures { answers a b result };
}

/// The same with a block of numbers at a time.
pub(crate) trait CheckedLanes: Checked {
    ghost use Rattle.std.specs.Prelude.{IsTrue};
    ghost use Rattle.pooma_lanes.specs.Blocks.{Answers, IsBlock};

    /// Results for a block, and whether they hold: they do unless a place has a fault.
    fn block(a: i64x8, b: i64x8) -> (i64x8, bool)
        requires left { IsBlock a }
        requires right { IsBlock b }
        ensures block { IsBlock result.0 }
        ensures exact { IsTrue result.1 → Answers Self.answers a b result.0 };
}

/// Does the places from `start` on one by one, up to the first that has a fault.
#[inline(always)]
pub(crate) fn rest<K: Checked>(a: Row, b: Row, out: &mut [i64], start: usize) -> Result<(), Place>
    requires left { IsOfLength a (length out.old) }
    requires right { IsOfLength b (length out.old) }
    requires start { start ≤ length out.old }
    ensures { IsDoneFrom (λ k r. K.answers (number_at a.entry k) (number_at b.entry k) r) start result out.old out.new }
{
    for k in start..out.len() {
        match K::one(a.number(k), b.number(k)) {
            Ok(number) => out[k] = number,
            Err(_) => return Err(Place(k)),
        }
    }
    Ok(())
}

/// Does the blocks from the first on as long as they have no fault, and answers how many places that were.
#[inline(always)]
fn blocks<K: CheckedLanes>(a: Row, b: Row, out: &mut [i64]) -> usize
    requires left { IsOfLength a (length out.old) }
    requires right { IsOfLength b (length out.old) }
    ensures within { result ≤ length out.old }
    ensures done { IsDoneUpTo (λ k r. K.answers (number_at a.entry k) (number_at b.entry k) r) out.old out.new result }
{
    let mut at = 0;
    while out.len() - at >= 8 {
        let (results, holds) = K::block(a.block(at), b.block(at));
        if !holds {
            break;
        }
        block::store(results, out, at);
        at += 8;
    }
    at
}

/// Does the whole row, by blocks as far as no place has a fault, and the places that are left one by one.
#[inline(always)]
pub(crate) fn by_lanes<K: CheckedLanes>(a: Row, b: Row, out: &mut [i64]) -> Result<(), Place>
    requires left { IsOfLength a (length out.old) }
    requires right { IsOfLength b (length out.old) }
    ensures { IsDone (λ k r. K.answers (number_at a.entry k) (number_at b.entry k) r) result out.old out.new }
{
    let at = blocks::<K>(a, b, out);
    rest::<K>(a, b, out, at)
}

/// Does the whole row place by place.
#[inline(always)]
pub(crate) fn one_by_one<K: Checked>(a: Row, b: Row, out: &mut [i64]) -> Result<(), Place>
    requires left { IsOfLength a (length out.old) }
    requires right { IsOfLength b (length out.old) }
    ensures { IsDone (λ k r. K.answers (number_at a.entry k) (number_at b.entry k) r) result out.old out.new }
{
    rest::<K>(a, b, out, 0)
}
