//! What becomes of a line.
ghost use Rattle.std.specs.Prelude.{◌≡◌, ◌<◌, ◌≤◌, IfErr, OnOk};
ghost use Rattle.pooma_script.specs.Refusals.{IfRefused};
ghost use Rattle.pooma_script.specs.Scripts.{Becomes, Goes, Stops, form_outcome};
ghost use Rattle.pooma_script.specs.Statements.{task_of};
ghost use Rattle.pooma_check.specs.Kept.{IsKept, known_of};
ghost use Rattle.pooma_check.specs.Sound.{IsSound};

use crate::after::take;
use crate::known::Known;
use crate::limit::{Verdict, within_limits};
use crate::refusal::refuse;
use crate::sound::positions_if_sound;
use pooma_domain::BoxN;
use pooma_parse::{LineError, RawLine, parse_line};
use pooma_script::{Cause, CheckError, LimitName};
use std::alloc::Global;

/// The most lines of a script.
const MOST_LINES: u32 = 10_000;

/// Does what the line of this number says, counted from 1.
pub fn read_line<'a>(
    alloc: Global,
    known: &mut Known<'a>,
    number: u32,
    text: &'a [u8],
) -> Result<(), CheckError>
    requires kept { IsKept known.old }
    requires few_scalars { known.old.draft.declared.scalars < number }
    ensures kept { OnOk result (IsKept known.new) }
    ensures few_scalars { OnOk result (known.new.draft.declared.scalars ≤ number) }
    ensures goes { OnOk result (Becomes number (known_of known.old) text.now (Goes (known_of known.new))) }
    ensures refused { IfErr result (λ error. IfRefused error (λ line why. (line ≡ number) × Becomes number (known_of known.old) text.now (Stops why))) }
{
    match parse_line(alloc, text) {
        Ok(None) => read_blank(number),
        Ok(Some(form)) => {
            let answer = read_form(alloc, known, number, text, &form);
            drop(form);
            answer
        }
        Err(LineError::Syntax) => Err(refuse(number, Cause::Syntax)),
        Err(LineError::OutOfMemory) => Err(CheckError::OutOfMemory),
    }
}

// A blank line, of which there may be too many.
fn read_blank(number: u32) -> Result<(), CheckError>
    ensures goes { OnOk result (number ≤ MOST_LINES) }
    ensures refused { IfErr result (λ error. IfRefused error (λ line why. (line ≡ number) × (MOST_LINES < number) × (why ≡ Cause.Limit LimitName.Lines))) }
{
    if number > MOST_LINES {
        return Err(refuse(number, Cause::Limit(LimitName::Lines)));
    }
    Ok(())
}

// Does what a line of this form says, where it has no cause to be refused.
fn read_form<'a>(
    alloc: Global,
    known: &mut Known<'a>,
    number: u32,
    text: &'a [u8],
    form: &RawLine,
) -> Result<(), CheckError>
    requires kept { IsKept known.old }
    requires few_scalars { known.old.draft.declared.scalars < number }
    ensures kept { OnOk result (IsKept known.new) }
    ensures few_scalars { OnOk result (known.new.draft.declared.scalars ≤ number) }
    ensures goes { OnOk result (form_outcome number (known_of known.old) text.now form.now (Goes (known_of known.new))) }
    ensures refused { IfErr result (λ error. IfRefused error (λ line why. (line ≡ number) × form_outcome number (known_of known.old) text.now form.now (Stops why))) }
{
    match positions_if_sound(alloc, known, text, form)? {
        Err(cause) => Err(refuse(number, cause)),
        Ok(positions) => read_sound(alloc, known, number, text, form, &positions),
    }
}

// Does what a line of this form says that has no cause but maybe a limit, at its positions.
fn read_sound<'a>(
    alloc: Global,
    known: &mut Known<'a>,
    number: u32,
    text: &'a [u8],
    form: &RawLine,
    positions: &BoxN,
) -> Result<(), CheckError>
    requires kept { IsKept known.old }
    requires few_scalars { known.old.draft.declared.scalars < number }
    requires sound { IsSound (known_of known.old) text.now form.now }
    requires positions { positions.now ≡ (task_of (known_of known.old) text.now form.now).positions }
    ensures kept { OnOk result (IsKept known.new) }
    ensures few_scalars { OnOk result (known.new.draft.declared.scalars ≤ number) }
    ensures goes { OnOk result (form_outcome number (known_of known.old) text.now form.now (Goes (known_of known.new))) }
    ensures refused { IfErr result (λ error. IfRefused error (λ line why. (line ≡ number) × form_outcome number (known_of known.old) text.now form.now (Stops why))) }
{
    match within_limits(alloc, number, known, text, form, positions)? {
        Verdict::Stops(name) => Err(refuse(number, Cause::Limit(name))),
        Verdict::Goes(does) => {
            take(alloc, known, number, text, form, does)?;
            Ok(())
        }
    }
}
