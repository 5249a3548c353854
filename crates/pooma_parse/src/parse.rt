//! A line as its form.
ghost use Rattle.std.specs.Prelude.{◌≡◌, All, IfOk, IfSome, IfNone, IsErrOf, MatchResult, Option, Some, None};
ghost use Rattle.pooma_text.specs.Lines.{IsPart};
ghost use Rattle.pooma_text.specs.Tokens.{IsBlankLine};
ghost use Rattle.pooma_parse.specs.declared.form.RawLine.{RawLine};
ghost use Rattle.pooma_parse.specs.Lines.{Spells};
ghost use Rattle.pooma_parse.specs.Spans.{names_of};

use crate::cursor::Cursor;
use crate::error::LineError;
use crate::form::RawLine;
use crate::line::form;
use pooma_text::{TokenError, tokens};
use std::alloc::Global;

/// The form that a line spells, or None where the line is blank.
///
/// The line has no line end. `Syntax` is answered where the line is not blank and spells no form: it has a byte that
/// begins no token, more than 4,096 tokens, or tokens that the grammar doesn't have, which are also those with a token
/// inside more than 64 parentheses and minuses. Whether a line may stand where it does, as a declaration in a repeat or
/// an `end`, is not looked at. The names are parts of the line.
pub fn parse_line(alloc: Global, line: &[u8]) -> Result<Option<RawLine>, LineError>
    ensures form { IfOk result (λ answer. IfSome answer (λ form. Spells line.now form)) }
    ensures names { IfOk result (λ answer. IfSome answer (λ form. All (IsPart line.now) (names_of form))) }
    ensures blank { IfOk result (λ answer. IfNone answer (IsBlankLine line.now)) }
    ensures not_blank { IsErrOf result LineError.Syntax → IsBlankLine line.now → ⊥ }
    ensures no_form { IsErrOf result LineError.Syntax → (form : RawLine) → Spells line.now form → ⊥ }

    // A line that spells a form or is blank gets no other answer, unless memory runs out.
    ensures only_form { (form : RawLine) → Spells line.now form
        → MatchResult result (λ answer. answer ≡ Some form) (λ e. e ≡ LineError.OutOfMemory) }
    ensures only_blank { IsBlankLine line.now → MatchResult result (λ answer. answer ≡ None) (λ e. e ≡ LineError.OutOfMemory) }
{
    let tokens = match tokens(alloc, line) {
        Ok(tokens) => tokens,
        Err(TokenError::BadByte { .. }) => return Err(LineError::Syntax),
        Err(TokenError::TooMany) => return Err(LineError::Syntax),
        Err(TokenError::OutOfMemory) => return Err(LineError::OutOfMemory),
    };
    if tokens.is_empty() {
        return Ok(None);
    }
    match form(alloc, &Cursor::new(line, &tokens)) {
        Ok(form) => Ok(Some(form)),
        Err(error) => Err(error),
    }
}
