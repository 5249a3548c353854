//! The positions of a line, or its first cause before the limits.
ghost use Rattle.std.specs.Prelude.{◌≡◌, ℕ, length, All, IfErr, IfOk, IsTrue, Some};
ghost use Rattle.pooma_script.specs.Causes.{IsFirstFailed};
ghost use Rattle.pooma_script.specs.Statements.{task_of};
ghost use Rattle.pooma_script.specs.Tests.{IsPlaced, Passes, has_names};
ghost use Rattle.pooma_check.specs.Kept.{IsKept, known_of};
ghost use Rattle.pooma_check.specs.Sound.{IsSound, early_causes};

use crate::apart::{has_equal_lengths, positions_of_task};
use crate::known::Known;
use crate::seen::all_seen;
use crate::statement::{has_dimensions, has_numbers, lies_inside, reads_apart};
use crate::task::{Task, gather};
use pooma_domain::BoxN;
use pooma_parse::RawLine;
use pooma_script::Cause;
use pooma_script::form::{has_names, is_placed};
use std::alloc::{AllocError, Global};

/// The positions of what the line does, or the first cause that it has before the limits. The only error is want of memory.
pub fn positions_if_sound(
    alloc: Global,
    known: &Known<'_>,
    text: &[u8],
    form: &RawLine,
) -> Result<Result<BoxN, Cause>, AllocError>
    requires kept { IsKept known.now }
    ensures cause { IfOk result (λ found. IfErr found (λ why. (number : ℕ)
        → IsFirstFailed (Passes number (known_of known.now) text.now form.now) early_causes (Some why))) }
    ensures sound { IfOk result (λ found. IfOk found (λ _. IsSound (known_of known.now) text.now form.now)) }
    ensures positions { IfOk result (λ found. IfOk found (λ positions.
        positions ≡ (task_of (known_of known.now) text.now form.now).positions)) }
{
    if !is_placed(known.draft.open_repeats(), form) {
        return Ok(Err(Cause::Syntax));
    }
    if !has_names(&known.names, text, form) {
        return Ok(Err(Cause::Name));
    }
    let task = gather(alloc, known, text, form)?;
    Ok(positions_if_fit(known, text, form, &task))
}

// The same, where the line may stand and its names fit.
fn positions_if_fit(
    known: &Known<'_>,
    text: &[u8],
    form: &RawLine,
    task: &Task<'_>,
) -> Result<BoxN, Cause>
    requires kept { IsKept known.now }
    requires placed { IsPlaced (length known.now.draft.open_repeats) form.now }
    requires names { IsTrue (has_names known.now.names text.now form.now) }
    requires task { task.now ≡ task_of (known_of known.now) text.now form.now }
    ensures cause { IfErr result (λ why. (number : ℕ)
        → IsFirstFailed (Passes number (known_of known.now) text.now form.now) early_causes (Some why)) }
    ensures sound { IfOk result (λ _. IsSound (known_of known.now) text.now form.now) }
    ensures positions { IfOk result (λ positions. positions ≡ (task_of (known_of known.now) text.now form.now).positions) }
{
    if !has_dimensions(known, text, form, task) {
        return Err(Cause::Dimension);
    }
    if !has_numbers(known, text, form, task) {
        return Err(Cause::Empty);
    }
    if !lies_inside(known, text, form, task) {
        return Err(Cause::Outside);
    }
    if !has_equal_lengths(known, task) {
        return Err(Cause::Unequal);
    }
    if !reads_apart(known, text, form, task) {
        return Err(Cause::Overlap);
    }
    all_seen(known, task.readings());
    Ok(positions_of_task(known, task))
}
