//! Reading a source to its end.
ghost use Rattle.std.specs.Prelude.{◌≡◌, ◌+◌, ◌≤◌, IfOk, OnOk, OnErr, IsErrOf, vec_len};
ghost use Rattle.std.specs.Io.KnownBytes.{Consumes, IsAtEnd};
ghost use Rattle.pooma_io.specs.Outside.{CountsAtMost, HasRisen, TakesAtMost, TakesExactly};

use crate::source::{Failed, Source};
use std::alloc::{AllocError, Global};
use thiserror::Error;

/// Why not all of a source was read.
#[derive(Clone, Copy, Debug, PartialEq, Eq, Error)]
pub enum ReadAllError {
    /// A read of the source failed: its count of faults rose in this call, or stands at its last value.
    #[error("a read failed")]
    ReadFault,
    /// More bytes came than the limit allows.
    #[error("too many bytes")]
    TooLong,
    /// There was no memory to keep the bytes in.
    #[error("out of memory")]
    OutOfMemory,
}

impl From<Failed> for ReadAllError {
    ghost use Rattle.std.specs.Prelude.{◌≡◌};
    ghost use Rattle.pooma_io.specs.declared.reading.ReadAllError.TheVariants.{ReadFault};

    ghost from_gives = { λ _ e. e ≡ ReadFault };

    fn from(_: Failed) -> Self {
        ReadAllError::ReadFault
    }
}

impl From<AllocError> for ReadAllError {
    ghost use Rattle.std.specs.Prelude.{◌≡◌};
    ghost use Rattle.pooma_io.specs.declared.reading.ReadAllError.TheVariants.{OutOfMemory};

    ghost from_gives = { λ _ e. e ≡ OutOfMemory };

    fn from(_: AllocError) -> Self {
        ReadAllError::OutOfMemory
    }
}

/// How many bytes one read asks for at most.
const CHUNK: usize = 4096;

/// All bytes up to the end of the source, in their order; `limit` is the most that there may be.
///
/// It reads until a read gives no byte, or the first byte past the limit came, and never behind that: an open pipe is not
/// waited for. After an error the bytes that were taken are lost: the source goes on behind them.
pub fn read_all<S: Source>(
    alloc: Global,
    source: &mut S,
    limit: usize,
) -> Result<Vec<u8>, ReadAllError>
    // All that was left, to its end.
    ensures bytes { IfOk result (λ bytes. Consumes (S.left source.old) (S.left source.new) bytes.items) }
    ensures end { OnOk result (IsAtEnd (S.left source.new)) }
    ensures within { IfOk result (λ bytes. vec_len bytes ≤ limit) }

    // An error takes bytes from the front alone, one past the limit at most, and each has its cause.
    ensures taken { OnErr result (TakesAtMost (limit + 1) (S.left source.old) (S.left source.new)) }
    ensures too_long { IsErrOf result ReadAllError.TooLong → TakesExactly (limit + 1) (S.left source.old) (S.left source.new) }
    ensures fault { IsErrOf result ReadAllError.ReadFault → HasRisen (S.faults source.old) (S.faults source.new) }
    ensures later { S.faults source.old ≤ S.faults source.new }

    // Each read takes a byte at least, but for the one that finds the end, behind which there is none.
    ensures few_reads { CountsAtMost (S.reads source.old) (S.reads source.new) (limit + 1) }
    ensures no_read_behind { IfOk result (λ bytes. CountsAtMost (S.reads source.old) (S.reads source.new) (vec_len bytes + 1)) }
{
    let mut bytes = Vec::new(alloc);
    let mut buf = [0; CHUNK];
    'reads: loop {
        let most = (limit - bytes.len()).min(CHUNK - 1) + 1;
        let n = source.read(&mut buf[..most])?;
        if n == 0 {
            return Ok(bytes);
        }
        if n > limit - bytes.len() {
            return Err(ReadAllError::TooLong);
        }
        bytes.extend_from_slice(&buf[..n])?;
    }
}
