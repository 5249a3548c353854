//! How long the same work took in two ways.

use std::time::Duration;
use std::{fmt, io};

// So many picoseconds are a nanosecond.
const PICOSECONDS: u128 = 1000;

// How long cells took through the crates that are measured, and in plain vectors by hand.
#[derive(Clone, Copy, Debug)]
pub(crate) struct Sample {
    cells: u32,
    measured: Duration,
    by_hand: Duration,
    // The sum of the numbers, of which 64 bits are kept.
    sum: i64,
    // Whether both came to the same.
    is_same: bool,
}

impl Sample {
    // How long each of the two took, and the sums that came of them.
    pub(crate) fn new(cells: u32, times: [Duration; 2], sums: [i64; 2]) -> Sample {
        Sample {
            cells,
            measured: times[0],
            by_hand: times[1],
            sum: sums[0],
            is_same: sums[0] == sums[1],
        }
    }

    // The least time of each of the two.
    pub(crate) fn or_less(self, other: Sample) -> Sample {
        Sample {
            cells: self.cells,
            measured: self.measured.min(other.measured),
            by_hand: self.by_hand.min(other.by_hand),
            sum: self.sum,
            is_same: self.is_same && other.is_same && self.sum == other.sum,
        }
    }

    // Writes what came of it, and how long it took.
    pub(crate) fn print<R: Print + Eprint>(&self, rt: &R, name: &str) -> io::Result<()> {
        let by_hand = if self.is_same {
            "the same"
        } else {
            "something else"
        };
        println!(rt;
            "{name}: {} cells, sum {}, by hand {by_hand}",
            self.cells, self.sum
        )?;
        eprintln!(rt; "{name}: {self}")
    }
}

impl fmt::Display for Sample {
    fn fmt<W: fmt::Write>(&self, f: &mut fmt::Formatter<W>) -> fmt::Result {
        let cells = u128::from(self.cells).max(1);
        write!(
            f,
            "{} picoseconds a cell, {} by hand",
            self.measured.as_nanos().saturating_mul(PICOSECONDS) / cells,
            self.by_hand.as_nanos().saturating_mul(PICOSECONDS) / cells
        )
    }
}

/// The error of a measurement that memory did not suffice for, or whose case is not as it was written.
pub(crate) fn failed() -> io::Error {
    io::Error::from(io::ErrorKind::OutOfMemory)
}
