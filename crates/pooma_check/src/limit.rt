//! Whether a line is within the limits, and what it does then.
ghost use Rattle.std.specs.Prelude.{◌≡◌, ◌↔◌, ℕ, List, [], ◌∷◌, None, Some, IfOk, IsTrue};
ghost use Rattle.std.specs.List.{list_all};
ghost use Rattle.std.specs.Option.{ForSome};
ghost use Rattle.pooma_parse.specs.declared.form.RawLine.{RawLine};
ghost use Rattle.pooma_script.specs.Causes.{IsFirstFailed};
ghost use Rattle.pooma_script.specs.Known.{declared_in};
ghost use Rattle.pooma_script.specs.Limits.{is_early, late_limits, line_limits};
ghost use Rattle.pooma_script.specs.Statements.{action_of, task_of};
ghost use Rattle.pooma_script.specs.Tests.{IsWithin};
ghost use Rattle.pooma_check.specs.Kept.{IsKept, known_of};
ghost use Rattle.pooma_check.specs.Measures.{CanBeCut};
ghost use Rattle.pooma_check.specs.Sound.{IsSound};
ghost use Rattle.pooma_check.specs.Verdicts.{GoesWith, StopsAt};

use crate::action::action;
use crate::amount::{
    allocates_few, has_few_arrays, has_few_cells, has_few_repeats, is_shallow, reads_few,
};
use crate::known::Known;
use crate::parts::has_few_parts;
use crate::total::{executes_few, prints_few};
use pooma_domain::BoxN;
use pooma_model::Action;
use pooma_parse::RawLine;
use pooma_script::LimitName;
use pooma_script::size::{
    has_few_extents, has_few_guards, has_few_patches, has_near_bounds, has_short_name,
    is_line_number,
};
use std::alloc::{AllocError, Global};

/// What is found of the limits of a line.
#[derive(Debug, Drop)]
pub enum Verdict {
    /// The first limit that it passes.
    Stops(LimitName),
    /// It passes none, and this is what it does.
    Goes(Option<Action>),
}

/// Whether the line is within a limit that is told before the line's action is made.
fn is_within(limit: LimitName, number: u32, known: &Known<'_>, text: &[u8], form: &RawLine) -> bool
    requires kept { IsKept known.now }
    requires early { IsTrue (is_early limit) }
    ensures { IsTrue result ↔ IsWithin limit number (known_of known.now) text.now form.now }
{
    match limit {
        LimitName::ScriptBytes => true,
        LimitName::Lines => is_line_number(number),
        LimitName::Name => has_short_name(text, form),
        LimitName::Arrays => has_few_arrays(known, text, form),
        LimitName::Coordinate => has_near_bounds(form),
        LimitName::Patches => has_few_patches(form),
        LimitName::Guards => has_few_guards(form),
        LimitName::Extents => has_few_extents(form),
        LimitName::ArrayCells => has_few_cells(known, text, form),
        LimitName::AllocatedCells => allocates_few(known, text, form),
        LimitName::Views => reads_few(known, text, form),
        LimitName::Depth => is_shallow(known, text, form),
        LimitName::Repeats => has_few_repeats(known, text, form),
        LimitName::Parts | LimitName::Statements | LimitName::PrintedValues => unreachable!(),
    }
}

/// The first of these limits that the line passes. None where it passes none.
fn first_passed(
    limits: &[LimitName],
    number: u32,
    known: &Known<'_>,
    text: &[u8],
    form: &RawLine,
) -> Option<LimitName>
    requires kept { IsKept known.now }
    requires early { IsTrue (list_all is_early limits.now) }
    ensures { IsFirstFailed (λ limit. IsWithin limit number (known_of known.now) text.now form.now) limits.now result }
{
    match limits {
        [] => None,
        [limit, others @ ..] => {
            if !is_within(*limit, number, known, text, form) {
                return Some(*limit);
            }
            first_passed(others, number, known, text, form)
        }
    }
}

/// The first of the limits that the line passes by its action, which is told with it.
fn first_passed_by_action(
    alloc: Global,
    known: &Known<'_>,
    does: &Option<Action>,
) -> Result<Option<LimitName>, AllocError>
    requires kept { IsKept known.now }
    requires cut { ForSome does.now (CanBeCut (declared_in (known_of known.now))) }
    ensures { IfOk result (λ found. (number : ℕ) (text : List ℕ) (form : RawLine) → does.now ≡ action_of (known_of known.now) text form
        → IsFirstFailed (λ limit. IsWithin limit number (known_of known.now) text form) late_limits found) }
{
    if !has_few_parts(alloc, known, does)? {
        return Ok(Some(LimitName::Parts));
    }
    if !executes_few(known, does) {
        return Ok(Some(LimitName::Statements));
    }
    if !prints_few(known, does) {
        return Ok(Some(LimitName::PrintedValues));
    }
    Ok(None)
}

/// The first limit that a line without another cause passes, or what it does at its positions. The action is made once the limits
/// are looked at that do not need it, so it has at most 64 views and a depth of 256. The only error is want of memory.
pub fn within_limits(
    alloc: Global,
    number: u32,
    known: &Known<'_>,
    text: &[u8],
    form: &RawLine,
    positions: &BoxN,
) -> Result<Verdict, AllocError>
    requires kept { IsKept known.now }
    requires sound { IsSound (known_of known.now) text.now form.now }
    requires positions { positions.now ≡ (task_of (known_of known.now) text.now form.now).positions }
    ensures stops { IfOk result (λ verdict. StopsAt verdict (λ name.
        IsFirstFailed (λ limit. IsWithin limit number (known_of known.now) text.now form.now) line_limits (Some name))) }
    ensures goes { IfOk result (λ verdict. GoesWith verdict (λ does.
        IsFirstFailed (λ limit. IsWithin limit number (known_of known.now) text.now form.now) line_limits None
        × (does ≡ action_of (known_of known.now) text.now form.now))) }
{
    let early = [
        LimitName::Lines,
        LimitName::Name,
        LimitName::Arrays,
        LimitName::Coordinate,
        LimitName::Patches,
        LimitName::Guards,
        LimitName::Extents,
        LimitName::ArrayCells,
        LimitName::AllocatedCells,
        LimitName::Views,
        LimitName::Depth,
        LimitName::Repeats,
    ];
    if let Some(limit) = first_passed(&early, number, known, text, form) {
        return Ok(Verdict::Stops(limit));
    }
    let does = action(alloc, known, text, form, positions)?;
    match first_passed_by_action(alloc, known, &does) {
        Ok(None) => Ok(Verdict::Goes(does)),
        Ok(Some(limit)) => {
            drop(does);
            Ok(Verdict::Stops(limit))
        }
        Err(error) => {
            drop(does);
            Err(error)
        }
    }
}
