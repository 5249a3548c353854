//! The edges of 64 bits, by values from outside.

use pooma_num::FaultKind::{Overflow, ZeroDivisor};
use pooma_num::{FaultKind, Total, abs, add, div, mul, neg, rem, sub};

const LEAST: i64 = i64::MIN;

const MOST: i64 = i64::MAX;

#[test]
fn arithmetic_at_the_edges(rt: HostRuntime) {
    assert!(rt;
        [
            add(MOST, 1),
            sub(LEAST, 1),
            mul(LEAST, -1),
            mul(3_037_000_500, 3_037_000_500),
            neg(LEAST),
            abs(LEAST)
        ] == [Err(Overflow); 6]
    );
    assert!(rt;
        [add(MOST, LEAST), sub(-1, LEAST), neg(MOST), abs(-7)]
            == [Ok(-1), Ok(MOST), Ok(-MOST), Ok(7)]
    );
}

// Two numbers, the quotient and the remainder.
const QUOTIENTS: &[(i64, i64, Result<i64, FaultKind>, Result<i64, FaultKind>)] = &[
    (7, 2, Ok(3), Ok(1)),
    (-7, 2, Ok(-3), Ok(-1)),
    (7, -2, Ok(-3), Ok(1)),
    (-7, -2, Ok(3), Ok(-1)),
    (LEAST, -1, Err(Overflow), Ok(0)),
    (0, 0, Err(ZeroDivisor), Err(ZeroDivisor)),
    (LEAST, 0, Err(ZeroDivisor), Err(ZeroDivisor)),
];

#[test]
fn division_at_the_edges(rt: HostRuntime) {
    for (a, b, quotient, left) in QUOTIENTS {
        assert_eq!(rt; (a, b, div(*a, *b), rem(*a, *b)), (a, b, *quotient, *left));
    }
}

#[test]
fn a_total_passes_64_bits_on_its_way(rt: HostRuntime) {
    let mut total = Total::new();
    total.push(MOST);
    total.push(MOST);
    assert!(rt; total.finish() == Err(Overflow));
    let mut other = Total::new();
    other.push(LEAST);
    other.push(1);
    total.merge(other);
    assert!(rt; (total.finish(), total.count()) == (Ok(MOST), 4));
}

#[test]
fn a_row_is_added_by_its_sum(rt: HostRuntime) {
    let mut total = Total::new();
    total.push(-1);
    total.add_row(2 * i128::from(MOST), 2);
    assert!(rt; (total.finish(), total.count()) == (Err(Overflow), 3));
    total.add_row(i128::from(LEAST), 1);
    assert!(rt; (total.finish(), total.count()) == (Ok(MOST - 2), 4));
}
