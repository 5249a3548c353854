//! How long a kernel took over many rows, beside the loop by hand.

use crate::kernels::{Kernel, by_hand};
use std::time::{Clock, Duration, Instant};
use std::{fmt, io};

// So many picoseconds are a nanosecond.
const PICOSECONDS: u128 = 1000;

/// How long a kernel took over many numbers in rows of one length, and whether the loop by hand came to the same.
#[derive(Clone, Copy, Debug)]
pub(crate) struct Sample {
    numbers: usize,
    by_lanes: Duration,
    by_hand: Duration,
    pub(crate) is_same: bool,
}

impl Sample {
    // The least time of each of the two.
    pub(crate) fn or_less(self, other: Sample) -> Sample {
        Sample {
            numbers: self.numbers,
            by_lanes: self.by_lanes.min(other.by_lanes),
            by_hand: self.by_hand.min(other.by_hand),
            is_same: self.is_same && other.is_same,
        }
    }
}

impl fmt::Display for Sample {
    fn fmt<W: fmt::Write>(&self, f: &mut fmt::Formatter<W>) -> fmt::Result {
        let numbers = (self.numbers as u128).max(1);
        let by_hand = self.by_hand.as_nanos().max(1);
        write!(
            f,
            "{} picoseconds a number by lanes, {} by hand, {} hundredths",
            self.by_lanes.as_nanos().saturating_mul(PICOSECONDS) / numbers,
            by_hand.saturating_mul(PICOSECONDS) / numbers,
            self.by_lanes.as_nanos().saturating_mul(100) / by_hand
        )
    }
}

// The kernel over all rows of the length of `out`. The sum of the last numbers of the rows, of which 64 bits are kept.
fn rows_by_lanes<K: Kernel>(kernel: &K, a: &[i64], b: &[i64], out: &mut [i64]) -> i64 {
    let length = out.len().max(1);
    let mut sum = 0i64;
    for (x, y) in a.chunks_exact(length).zip(b.chunks_exact(length)) {
        if kernel.by_lanes(x, y, out) {
            sum = sum.wrapping_add(out.last().copied().unwrap_or(0));
        }
    }
    sum
}

// The loop by hand over the same rows.
fn rows_by_hand<K: Kernel>(kernel: &K, a: &[i64], b: &[i64], out: &mut [i64]) -> i64 {
    let length = out.len().max(1);
    let mut sum = 0i64;
    for (x, y) in a.chunks_exact(length).zip(b.chunks_exact(length)) {
        if by_hand(kernel, x, y, out) {
            sum = sum.wrapping_add(out.last().copied().unwrap_or(0));
        }
    }
    sum
}

/// One turn of a kernel over the numbers in rows of the length of `out`, and one of the loop by hand.
pub(crate) fn timed<K: Kernel, R: Clock>(
    rt: &R,
    kernel: &K,
    a: &[i64],
    b: &[i64],
    out: &mut [i64],
) -> io::Result<Sample> {
    let begun = Instant::now(rt)?;
    let sum = rows_by_lanes(kernel, a, b, out);
    let between = Instant::now(rt)?;
    let other = rows_by_hand(kernel, a, b, out);
    let ended = Instant::now(rt)?;
    Ok(Sample {
        numbers: a.len(),
        by_lanes: between.duration_since(begun),
        by_hand: ended.duration_since(between),
        is_same: sum == other,
    })
}
