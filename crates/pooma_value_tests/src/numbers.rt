//! Numbers for the reads of a code, the same at each position.
ghost use Rattle.std.specs.Prelude.{pos, slice_index_or};

use pooma_domain::Cell;
use pooma_expr::Reads;

/// A number for each read; those without one have 0.
#[derive(Clone, Copy)]
pub(crate) struct Numbers<'a> {
    pub(crate) numbers: &'a [i64],
}

impl Reads for Numbers<'_> {
    ghost number = { λ reads read p. slice_index_or reads.numbers.now read (pos 0) };

    ghost can_ask = { λ reads read p. Unit {0} };

    fn value(&self, read: usize, _p: &Cell) -> i64 {
        if read < self.numbers.len() {
            self.numbers[read]
        } else {
            0
        }
    }
}
