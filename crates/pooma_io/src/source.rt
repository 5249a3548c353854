//! What bytes are read from.
ghost use Rattle.std.specs.Prelude.{◌≤◌, ℕ, List, Option, None, length, IfOk};
ghost use Rattle.std.specs.Io.KnownBytes.{ReadConsumes};
ghost use Rattle.pooma_io.specs.Outside.{CountsCall, HasCause};

/// A read or a write failed. The count of faults of the object has risen, or stands at its last value.
#[derive(Clone, Copy, Debug, PartialEq, Eq)]
pub struct Failed;

/// What bytes are read from.
pub trait Source {
    /// The bytes that are left to read, where the source tells them.
    ghost left: { Self → Option (List ℕ) };

    /// How often the source has failed. It stands still at 2^64 - 1.
    ghost faults: { Self → ℕ };

    /// How often it was read, where the source tells it. It may stop telling it, for good.
    ghost reads: { Self → Option ℕ } = { λ _. None };

    /// Takes the first bytes that are left into the front of the buffer, and answers how many. 0 into a buffer that is
    /// not empty is the end of the input. A failed read takes nothing. It takes no memory.
    fn read(&mut self, buf: &mut [u8]) -> Result<usize, Failed>
        ensures within { IfOk result (λ n. n ≤ length buf.old) }
        ensures bytes { ReadConsumes (left self.old) (left self.new) result buf.new }
        ensures cause { HasCause (faults self.old) (faults self.new) result }
        ensures counted { CountsCall (reads self.old) (reads self.new) };
}
