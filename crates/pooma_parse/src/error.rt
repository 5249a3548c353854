//! Why a line gives no form.

use std::alloc::AllocError;
use thiserror::Error;

/// Why a line gives no form.
#[derive(Clone, Copy, Debug, PartialEq, Eq, Error)]
pub enum LineError {
    /// The line is not blank, and is no line of the grammar.
    #[error("no line of the language")]
    Syntax,
    /// There was no memory for the tokens or the form.
    #[error("out of memory")]
    OutOfMemory,
}

impl From<AllocError> for LineError {
    ghost use Rattle.std.specs.Prelude.{◌≡◌};
    ghost use Rattle.pooma_parse.specs.declared.error.LineError.TheVariants.{OutOfMemory};

    ghost from_gives = { λ _ e. e ≡ OutOfMemory };

    fn from(_: AllocError) -> LineError {
        LineError::OutOfMemory
    }
}
