//! What is written of a script.
ghost use Rattle.std.specs.Prelude.{◌≡◌, IfOk};
ghost use Rattle.pooma_top.specs.Output.{refused_output, shown};

use crate::cause::cause_text;
use crate::status::Status;
use pooma_check::Refusal;
use pooma_print::refusal_text;
use std::alloc::{AllocError, Global};

/// What is to be written, and the status that it ends with.
#[derive(Debug, Drop)]
pub struct Answer {
    pub text: Vec<u8>,
    pub status: Status,
}

/// The answer that a script is refused. The only error is want of memory.
pub fn answer_refused(alloc: Global, refused: Refusal) -> Result<Answer, AllocError>
    ensures { IfOk result (λ answer. shown answer ≡ refused_output refused.line refused.cause) }
{
    let mut text = Vec::new(alloc);
    refusal_text(alloc, &mut text, refused.line, cause_text(refused.cause))?;
    Ok(Answer {
        text,
        status: Status::Refused,
    })
}
