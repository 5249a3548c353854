//! Refusals.
ghost use Rattle.std.specs.Prelude.{◌≡◌};

use pooma_script::{Cause, CheckError, Refusal};

/// The error that a line is refused.
pub fn refuse(line: u32, cause: Cause) -> CheckError
    ensures { result ≡ CheckError.Refused (record { line = line; cause = cause }) }
{
    CheckError::Refused(Refusal { line, cause })
}
