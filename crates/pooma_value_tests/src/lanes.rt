//! Rows of numbers: the edges of 64 bits, lengths around a block, and both forms of an operand.

use pooma_lanes::{
    Compare, Divisor, Place, Row, abs_rows, add_rows, and_rows, compare_rows, div_rows,
    div_rows_by, max_rows, min_rows, mul_rows, neg_rows, or_rows, rem_rows, rem_rows_by,
    select_rows, sub_rows, sum_row,
};

const LEAST: i64 = i64::MIN;

const MOST: i64 = i64::MAX;

#[test]
fn the_least_place_is_named(rt: HostRuntime) {
    let mut a = [1i64; 20];
    a[5] = MOST;
    a[13] = MOST;
    let mut out = [7i64; 20];
    let answer = add_rows(Row::Numbers(&a), Row::One(1), &mut out);
    assert!(rt; answer == Err(Place(5)));
    assert!(rt; out == [2, 2, 2, 2, 2, 7, 7, 7, 7, 7, 7, 7, 7, 7, 7, 7, 7, 7, 7, 7]);
}

#[test]
fn the_least_place_of_a_tail_is_named(rt: HostRuntime) {
    let mut a = [1i64; 11];
    a[9] = LEAST;
    let mut out = [7i64; 11];
    let answer = sub_rows(Row::Numbers(&a), Row::One(1), &mut out);
    assert!(rt; answer == Err(Place(9)));
    assert!(rt; out == [0, 0, 0, 0, 0, 0, 0, 0, 0, 7, 7]);
}

#[test]
fn comparisons_and_sums(rt: HostRuntime) {
    let mut out = [7i64; 3];
    compare_rows(
        Compare::Less,
        Row::Numbers(&[1, 2, 3]),
        Row::Numbers(&[2, 2, 2]),
        &mut out,
    );
    assert!(rt; out == [1, 0, 0]);
    assert!(rt; sum_row(&[MOST, MOST, LEAST]) == 9_223_372_036_854_775_806);
    assert!(rt; sum_row(&[MOST; 17]) == 17 * 9_223_372_036_854_775_807);
    assert!(rt; sum_row(&[LEAST; 16]) == -16 * 9_223_372_036_854_775_808);
}

// 0, or the greatest number, which makes a sum overflow at the place that is asked for.
fn sums_stop_at(length: usize, at: usize) -> bool {
    let mut numbers = [1i64; 9];
    if at >= 9 || length > 9 {
        return false;
    }
    numbers[at] = MOST;
    let mut out = [0i64; 9];
    add_rows(
        Row::One(1),
        Row::Numbers(&numbers[..length]),
        &mut out[..length],
    ) == Err(Place(at))
}

#[test]
fn each_place_of_each_length_can_stop_a_sum(rt: HostRuntime) {
    for length in 1..10 {
        for at in 0..length {
            assert!(rt; sums_stop_at(length, at));
        }
    }
}

#[test]
fn rows_of_no_length(rt: HostRuntime) {
    let none: [i64; 0] = [];
    let row = Row::Numbers(&none);
    let out: &mut [i64] = &mut [];
    assert!(rt; add_rows(row, row, out) == Ok(()));
    assert!(rt; sub_rows(row, Row::One(1), out) == Ok(()));
    assert!(rt; mul_rows(row, row, out) == Ok(()));
    assert!(rt; div_rows(row, Row::One(0), out) == Ok(()));
    assert!(rt; rem_rows(row, Row::One(0), out) == Ok(()));
    assert!(rt; neg_rows(Row::One(LEAST), out) == Ok(()));
    assert!(rt; abs_rows(row, out) == Ok(()));
    assert!(rt; div_rows_by(row, &Divisor::new(3), out) == Ok(()));
    assert!(rt; sum_row(&none) == 0);
}

// One number of each operand, the lesser, the greater, both bits, either bits, and the first where the second is not 0.
const PAIRS: &[(i64, i64, [i64; 5])] = &[
    (-1, 1, [-1, 1, 1, -1, -1]),
    (LEAST, MOST, [LEAST, MOST, 0, -1, LEAST]),
    (6, 0, [0, 6, 0, 6, 0]),
    (-7, -7, [-7, -7, -7, -7, -7]),
];

fn pair(a: i64, b: i64) -> [i64; 5] {
    let (x, y) = (Row::One(a), Row::One(b));
    let mut rows = [[0i64; 9]; 5];
    min_rows(x, y, &mut rows[0]);
    max_rows(x, y, &mut rows[1]);
    and_rows(x, y, &mut rows[2]);
    or_rows(x, y, &mut rows[3]);
    select_rows(y, x, y, &mut rows[4]);
    [rows[0][8], rows[1][7], rows[2][0], rows[3][4], rows[4][8]]
}

#[test]
fn pairs_of_numbers(rt: HostRuntime) {
    for (a, b, expected) in PAIRS {
        assert_eq!(rt; (a, b, pair(*a, *b)), (a, b, *expected));
    }
}

const DIVISORS: &[i64] = &[
    1,
    -1,
    2,
    -2,
    3,
    7,
    -7,
    1024,
    10,
    LEAST,
    MOST,
    -3,
    4_611_686_018_427_387_904,
    4_611_686_018_427_387_905,
];

const DIVIDENDS: [i64; 9] = [
    0,
    1,
    -1,
    6,
    -7,
    20,
    MOST,
    LEAST + 1,
    9_223_372_036_854_775_800,
];

fn same_by_either_way(divisor: i64, number: i64) -> bool {
    if divisor == 0 {
        return false;
    }
    let by = Divisor::new(divisor);
    let mut numbers = DIVIDENDS;
    numbers[3] = number;
    let (row, one) = (Row::Numbers(&numbers), Row::One(divisor));
    let (mut x, mut y) = ([5i64; 9], [5i64; 9]);
    let quotients = div_rows_by(row, &by, &mut x) == div_rows(row, one, &mut y) && x == y;
    rem_rows_by(row, &by, &mut x);
    quotients && rem_rows(row, one, &mut y) == Ok(()) && x == y
}

#[test]
fn a_divisor_known_beforehand_divides_as_any(rt: HostRuntime) {
    for divisor in DIVISORS {
        assert_eq!(rt;
            (divisor, same_by_either_way(*divisor, LEAST)),
            (divisor, true)
        );
        assert_eq!(rt; (divisor, same_by_either_way(*divisor, 6)), (divisor, true));
    }
}

#[test]
fn only_minus_one_has_no_quotient_of_the_least_number(rt: HostRuntime) {
    let mut out = [5i64; 1];
    assert!(rt; div_rows_by(Row::One(LEAST), &Divisor::new(-1), &mut out) == Err(Place(0)));
    assert!(rt; out == [5]);
    assert!(rt; div_rows_by(Row::One(LEAST), &Divisor::new(-7), &mut out) == Ok(()));
    assert!(rt; out == [1_317_624_576_693_539_401]);
}
