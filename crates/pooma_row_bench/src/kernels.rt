//! What is measured: a kernel of rows, and the loop that one would write by hand in its place.

use pooma_lanes::{
    Compare, Divisor, Row, abs_rows, add_rows, and_rows, compare_rows, div_rows, div_rows_by,
    max_rows, min_rows, mul_rows, neg_rows, or_rows, rem_rows, rem_rows_by, select_rows, sub_rows,
};

/// A kernel over two rows of the same length.
pub(crate) trait Kernel {
    /// What it does, in words.
    fn name(&self) -> &'static str;

    /// Sets each place of `out`, and answers whether all results fit. False for rows of other lengths.
    fn by_lanes(&self, a: &[i64], b: &[i64], out: &mut [i64]) -> bool;

    /// What the loop by hand does with the two numbers of a place. None where the result does not fit.
    fn one(&self, x: i64, y: i64) -> Option<i64>;
}

/// The same by a loop over plain slices. It ends at the first place whose result does not fit.
#[inline(always)]
pub(crate) fn by_hand<K: Kernel>(kernel: &K, a: &[i64], b: &[i64], out: &mut [i64]) -> bool {
    for ((to, x), y) in out.iter_mut().zip(a).zip(b) {
        let Some(z) = kernel.one(*x, *y) else {
            return false;
        };
        *to = z;
    }
    true
}

pub(crate) struct Addition;

impl Kernel for Addition {
    fn name(&self) -> &'static str {
        "addition"
    }

    fn by_lanes(&self, a: &[i64], b: &[i64], out: &mut [i64]) -> bool {
        if a.len() != out.len() || b.len() != out.len() {
            return false;
        }
        add_rows(Row::Numbers(a), Row::Numbers(b), out).is_ok()
    }

    #[inline(always)]
    fn one(&self, x: i64, y: i64) -> Option<i64> {
        x.checked_add(y)
    }
}

pub(crate) struct Subtraction;

impl Kernel for Subtraction {
    fn name(&self) -> &'static str {
        "subtraction"
    }

    fn by_lanes(&self, a: &[i64], b: &[i64], out: &mut [i64]) -> bool {
        if a.len() != out.len() || b.len() != out.len() {
            return false;
        }
        sub_rows(Row::Numbers(a), Row::Numbers(b), out).is_ok()
    }

    #[inline(always)]
    fn one(&self, x: i64, y: i64) -> Option<i64> {
        x.checked_sub(y)
    }
}

pub(crate) struct Minimum;

impl Kernel for Minimum {
    fn name(&self) -> &'static str {
        "minimum"
    }

    fn by_lanes(&self, a: &[i64], b: &[i64], out: &mut [i64]) -> bool {
        if a.len() != out.len() || b.len() != out.len() {
            return false;
        }
        min_rows(Row::Numbers(a), Row::Numbers(b), out);
        true
    }

    #[inline(always)]
    fn one(&self, x: i64, y: i64) -> Option<i64> {
        Some(x.min(y))
    }
}

pub(crate) struct Maximum;

impl Kernel for Maximum {
    fn name(&self) -> &'static str {
        "maximum"
    }

    fn by_lanes(&self, a: &[i64], b: &[i64], out: &mut [i64]) -> bool {
        if a.len() != out.len() || b.len() != out.len() {
            return false;
        }
        max_rows(Row::Numbers(a), Row::Numbers(b), out);
        true
    }

    #[inline(always)]
    fn one(&self, x: i64, y: i64) -> Option<i64> {
        Some(x.max(y))
    }
}

pub(crate) struct Less;

impl Kernel for Less {
    fn name(&self) -> &'static str {
        "comparison"
    }

    fn by_lanes(&self, a: &[i64], b: &[i64], out: &mut [i64]) -> bool {
        if a.len() != out.len() || b.len() != out.len() {
            return false;
        }
        compare_rows(Compare::Less, Row::Numbers(a), Row::Numbers(b), out);
        true
    }

    #[inline(always)]
    fn one(&self, x: i64, y: i64) -> Option<i64> {
        Some(i64::from(x < y))
    }
}

pub(crate) struct Multiplication;

impl Kernel for Multiplication {
    fn name(&self) -> &'static str {
        "multiplication"
    }

    fn by_lanes(&self, a: &[i64], b: &[i64], out: &mut [i64]) -> bool {
        if a.len() != out.len() || b.len() != out.len() {
            return false;
        }
        mul_rows(Row::Numbers(a), Row::Numbers(b), out).is_ok()
    }

    #[inline(always)]
    fn one(&self, x: i64, y: i64) -> Option<i64> {
        x.checked_mul(y)
    }
}

pub(crate) struct Division;

impl Kernel for Division {
    fn name(&self) -> &'static str {
        "division by a row"
    }

    fn by_lanes(&self, a: &[i64], b: &[i64], out: &mut [i64]) -> bool {
        if a.len() != out.len() || b.len() != out.len() {
            return false;
        }
        div_rows(Row::Numbers(a), Row::Numbers(b), out).is_ok()
    }

    #[inline(always)]
    fn one(&self, x: i64, y: i64) -> Option<i64> {
        x.checked_div(y)
    }
}

pub(crate) struct Remainder;

impl Kernel for Remainder {
    fn name(&self) -> &'static str {
        "remainder by a row"
    }

    fn by_lanes(&self, a: &[i64], b: &[i64], out: &mut [i64]) -> bool {
        if a.len() != out.len() || b.len() != out.len() {
            return false;
        }
        rem_rows(Row::Numbers(a), Row::Numbers(b), out).is_ok()
    }

    #[inline(always)]
    fn one(&self, x: i64, y: i64) -> Option<i64> {
        x.checked_rem(y)
    }
}

pub(crate) struct And;

impl Kernel for And {
    fn name(&self) -> &'static str {
        "and"
    }

    fn by_lanes(&self, a: &[i64], b: &[i64], out: &mut [i64]) -> bool {
        if a.len() != out.len() || b.len() != out.len() {
            return false;
        }
        and_rows(Row::Numbers(a), Row::Numbers(b), out);
        true
    }

    #[inline(always)]
    fn one(&self, x: i64, y: i64) -> Option<i64> {
        Some(x & y)
    }
}

pub(crate) struct Or;

impl Kernel for Or {
    fn name(&self) -> &'static str {
        "or"
    }

    fn by_lanes(&self, a: &[i64], b: &[i64], out: &mut [i64]) -> bool {
        if a.len() != out.len() || b.len() != out.len() {
            return false;
        }
        or_rows(Row::Numbers(a), Row::Numbers(b), out);
        true
    }

    #[inline(always)]
    fn one(&self, x: i64, y: i64) -> Option<i64> {
        Some(x | y)
    }
}

pub(crate) struct Selection;

impl Kernel for Selection {
    fn name(&self) -> &'static str {
        "selection"
    }

    fn by_lanes(&self, a: &[i64], b: &[i64], out: &mut [i64]) -> bool {
        if a.len() != out.len() || b.len() != out.len() {
            return false;
        }
        select_rows(Row::Numbers(a), Row::Numbers(b), Row::One(7), out);
        true
    }

    #[inline(always)]
    fn one(&self, x: i64, y: i64) -> Option<i64> {
        Some(if x != 0 { y } else { 7 })
    }
}

pub(crate) struct Negation;

impl Kernel for Negation {
    fn name(&self) -> &'static str {
        "negation"
    }

    fn by_lanes(&self, a: &[i64], b: &[i64], out: &mut [i64]) -> bool {
        if a.len() != out.len() || b.len() != out.len() {
            return false;
        }
        neg_rows(Row::Numbers(a), out).is_ok()
    }

    #[inline(always)]
    fn one(&self, x: i64, _y: i64) -> Option<i64> {
        x.checked_neg()
    }
}

pub(crate) struct Magnitude;

impl Kernel for Magnitude {
    fn name(&self) -> &'static str {
        "absolute value"
    }

    fn by_lanes(&self, a: &[i64], b: &[i64], out: &mut [i64]) -> bool {
        if a.len() != out.len() || b.len() != out.len() {
            return false;
        }
        abs_rows(Row::Numbers(a), out).is_ok()
    }

    #[inline(always)]
    fn one(&self, x: i64, _y: i64) -> Option<i64> {
        x.checked_abs()
    }
}

/// Division by one number that is known beforehand.
#[derive(Drop)]
pub(crate) struct DivisionBy {
    pub(crate) number: i64,
    pub(crate) divisor: Divisor,
}

impl Kernel for DivisionBy {
    fn name(&self) -> &'static str {
        "division by one number"
    }

    fn by_lanes(&self, a: &[i64], _b: &[i64], out: &mut [i64]) -> bool {
        if a.len() != out.len() {
            return false;
        }
        div_rows_by(Row::Numbers(a), &self.divisor, out).is_ok()
    }

    #[inline(always)]
    fn one(&self, x: i64, _y: i64) -> Option<i64> {
        x.checked_div(self.number)
    }
}

/// The remainder by one number that is known beforehand.
#[derive(Drop)]
pub(crate) struct RemainderBy {
    pub(crate) number: i64,
    pub(crate) divisor: Divisor,
}

impl Kernel for RemainderBy {
    fn name(&self) -> &'static str {
        "remainder by one number"
    }

    fn by_lanes(&self, a: &[i64], _b: &[i64], out: &mut [i64]) -> bool {
        if a.len() != out.len() {
            return false;
        }
        rem_rows_by(Row::Numbers(a), &self.divisor, out);
        true
    }

    #[inline(always)]
    fn one(&self, x: i64, _y: i64) -> Option<i64> {
        x.checked_rem(self.number)
    }
}
