//! The program of a script, line after line.
ghost use Rattle.std.specs.Prelude.{◌≡◌, ◌+◌, ◌≤◌, [], length, map, All, IfErr, IfOk};
ghost use Rattle.pooma_text.specs.Lines.{IsPart, lines_of, text_at};
ghost use Rattle.pooma_script.specs.Known.{nothing_known};
ghost use Rattle.pooma_script.specs.Refusals.{IfRefused};
ghost use Rattle.pooma_script.specs.Scripts.{IsScript, Read, Refused, Runs, script_at_end};
ghost use Rattle.pooma_check.specs.Kept.{IsKept, known_of};

use crate::known::{Known, nothing};
use crate::line::read_line;
use crate::refusal::refuse;
use pooma_model::Program;
use pooma_script::{Cause, CheckError, LimitName};
use pooma_text::{Span, lines};
use std::alloc::Global;

/// The most bytes of a script.
const MOST_BYTES: usize = 1_048_576;

/// The program that the bytes of a script are, with its repeats not yet written out, or the first line that is refused and
/// why: of its causes the first in the order of `Cause`.
///
/// A repeat without an end is told of the line after the last. A script of more than 1,048,576 bytes is refused at line 0 and
/// not looked at. Besides, the only error is want of memory. `docs/LANGUAGE.md` has the causes and limits in prose.
pub fn check(alloc: Global, bytes: &[u8]) -> Result<Program, CheckError>
    ensures program { IfOk result (λ program. IsScript bytes.now (Runs program)) }
    ensures refused { IfErr result (λ error. IfRefused error (λ line why. IsScript bytes.now (Refused line why))) }
{
    if bytes.len() > MOST_BYTES {
        return Err(refuse(0, Cause::Limit(LimitName::ScriptBytes)));
    }
    let spans = lines(alloc, bytes)?;
    let known = read_lines(alloc, bytes, &spans)?;
    finish(known, spans.len() as u32 + 1)
}

// What is known after all lines.
fn read_lines<'a>(alloc: Global, bytes: &'a [u8], spans: &[Span]) -> Result<Known<'a>, CheckError>
    requires lines { map (text_at bytes.now) spans.now ≡ lines_of bytes.now }
    requires parts { All (IsPart bytes.now) spans.now }
    requires few { length spans.now ≤ 1048576 }
    ensures kept { IfOk result IsKept }
    ensures read { IfOk result (λ known. Read 1 nothing_known (lines_of bytes.now) (script_at_end (length spans.now + 1) (known_of known))) }
    ensures refused { IfErr result (λ error. IfRefused error (λ line why. Read 1 nothing_known (lines_of bytes.now) (Refused line why))) }
{
    let mut known = nothing(alloc);
    for (n, span) in spans.iter().enumerate() {
        let text = &bytes[span.start..span.end];
        if let Err(error) = read_line(alloc, &mut known, n as u32 + 1, text) {
            return Err(error);
        }
    }
    Ok(known)
}

// The program, where each repeat has its end. The number is that of the line after the last.
fn finish(known: Known<'_>, number: u32) -> Result<Program, CheckError>
    requires kept { IsKept known }
    ensures program { IfOk result (λ program. script_at_end number (known_of known.entry) ≡ Runs program) }
    ensures refused { IfErr result (λ error. IfRefused error (λ line why. script_at_end number (known_of known.entry) ≡ Refused line why)) }
{
    if known.draft.open_repeats() > 0 {
        return Err(refuse(number, Cause::OpenRepeat));
    }
    Ok(known.draft.finish())
}
