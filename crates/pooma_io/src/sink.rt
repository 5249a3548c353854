//! Sinks: what bytes are written to.
ghost use Rattle.std.specs.Prelude.{◌<◌, ◌≤◌, ℕ, List, Option, length, IfOk};
ghost use Rattle.std.specs.Io.KnownBytes.{WriteAppends};
ghost use Rattle.pooma_io.specs.Outside.{HasCause};

use crate::source::Failed;

/// What bytes are written to.
pub trait Sink {
    /// The bytes that the sink holds, where it tells them.
    ghost held: { Self → Option (List ℕ) };

    /// How often the sink has failed. It stands still at 2^64 - 1.
    ghost faults: { Self → ℕ };

    /// Appends the first bytes of the piece to what is held, and answers how many: at least one of a piece that is not
    /// empty. A failed write appends nothing. It takes no memory.
    fn write(&mut self, piece: &[u8]) -> Result<usize, Failed>
        ensures within { IfOk result (λ n. n ≤ length piece.now) }
        ensures some { IfOk result (λ n. 0 < length piece.now → 0 < n) }
        ensures bytes { WriteAppends (held self.old) (held self.new) result piece.now }
        ensures cause { HasCause (faults self.old) (faults self.new) result };
}
