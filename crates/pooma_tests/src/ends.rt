//! Sources and sinks that fail.
ghost use Rattle.std.specs.Prelude.{◌≤◌};

use crate::run::{Ended, run_between};
use pooma_io::{MemorySink, MemorySource, SureSink, SureSource};
use pooma_top::Status;
use std::alloc::{AllocError, Global};

const SCRIPT: &[u8] = b"brick A (0:3)\nA = 7\nprint A\n";

const TEXT: &[u8] = b"7 7 7 7\n";

/// Runs the script from a source that gives `step` bytes a call, where one call fails.
fn read_in_steps(alloc: Global, step: usize, failing: u32) -> Result<Ended, AllocError>
    requires { 1 ≤ step }
{
    let failing = vec![in alloc; failing]?;
    let mut source = MemorySource::new(Vec::from_slice(alloc, SCRIPT)?, step, failing);
    let mut sink = SureSink::new(alloc, 100)?;
    let status = run_between(alloc, &["run", "1"], &mut source, &mut sink)?;
    let text = Vec::from_slice(alloc, sink.held())?;
    Ok(Ended { status, text })
}

/// Runs a script into a sink with so much room that takes `step` bytes a call, where one call fails; none for 0.
fn written_in_steps(
    alloc: Global,
    script: &[u8],
    room: usize,
    step: usize,
    failing: u32,
) -> Result<Ended, AllocError>
    requires { 1 ≤ step }
{
    let failing = vec![in alloc; failing]?;
    let mut source = SureSource::new(Vec::from_slice(alloc, script)?);
    let mut sink = MemorySink::new(alloc, room, step, failing)?;
    let status = run_between(alloc, &["run", "1"], &mut source, &mut sink)?;
    let text = Vec::from_slice(alloc, sink.held())?;
    Ok(Ended { status, text })
}

// Whether a read of the script in steps is a fault that writes nothing where this call fails, which is one of those that are
// made, and else is done.
fn fails_as_it_should(alloc: Global, step: usize, failing: u32) -> Result<bool, AllocError>
    requires { 1 ≤ step }
{
    // The script has 28 bytes, and one read more finds its end.
    let reads = SCRIPT.len().div_ceil(step) + 1;
    let ended = read_in_steps(alloc, step, failing)?;
    if failing as usize <= reads {
        Ok(ended.status == Status::ReadFault && ended.text.is_empty())
    } else {
        Ok(ended.status == Status::Done && ended.text.as_slice() == TEXT)
    }
}

// The first step and call, if any, at which it does not.
fn first_wrong_read(alloc: Global) -> Result<Option<(usize, u32)>, AllocError> {
    for step in [1usize, 3, 5, 7, 28] {
        for failing in 1..31u32 {
            if !fails_as_it_should(alloc, step.max(1), failing)? {
                return Ok(Some((step, failing)));
            }
        }
    }
    Ok(None)
}

#[test]
fn a_failing_read_is_a_read_fault_and_writes_nothing(rt: HostRuntime) {
    let wrong = first_wrong_read(rt.alloc());
    assert!(rt; wrong == Ok(None), "{wrong:?}");
}

// Whether a write of the text in steps leaves what the calls before this one took, where it is one of those that are made.
fn leaves_a_front(alloc: Global, step: usize, failing: u32) -> Result<bool, AllocError>
    requires step { 1 ≤ step }
    requires failing { 1 ≤ failing }
{
    let writes = TEXT.len().div_ceil(step);
    let ended = written_in_steps(alloc, SCRIPT, 100, step, failing)?;
    if failing as usize > writes {
        return Ok(ended.status == Status::Done && ended.text.as_slice() == TEXT);
    }
    let held = (failing as usize - 1).saturating_mul(step);
    Ok(
        ended.status == Status::WriteFault
            && ended.text.len() == held
            && TEXT.starts_with(&ended.text),
    )
}

// The first step and call, if any, at which it does not.
fn first_wrong_write(alloc: Global) -> Result<Option<(usize, u32)>, AllocError> {
    for step in [1usize, 3, 5, 7, 8] {
        for failing in 1..10u32 {
            if !leaves_a_front(alloc, step.max(1), failing)? {
                return Ok(Some((step, failing)));
            }
        }
    }
    Ok(None)
}

#[test]
fn a_failing_write_leaves_a_front_of_the_text(rt: HostRuntime) {
    let wrong = first_wrong_write(rt.alloc());
    assert!(rt; wrong == Ok(None), "{wrong:?}");
}

// Whether a sink with so much room holds as much of the text as it has room for.
fn holds_what_it_can(alloc: Global, room: usize) -> Result<bool, AllocError> {
    let ended = written_in_steps(alloc, SCRIPT, room, 100, 0)?;
    let whole = room >= TEXT.len();
    let held = if whole { TEXT.len() } else { room };
    let status = if whole {
        Status::Done
    } else {
        Status::WriteFault
    };
    Ok(ended.status == status && ended.text.len() == held && TEXT.starts_with(&ended.text))
}

// The first room, if any, with which it does not.
fn first_wrong_room(alloc: Global) -> Result<Option<usize>, AllocError> {
    for room in 0..10usize {
        if !holds_what_it_can(alloc, room)? {
            return Ok(Some(room));
        }
    }
    Ok(None)
}

#[test]
fn a_full_sink_holds_what_it_has_room_for(rt: HostRuntime) {
    let wrong = first_wrong_room(rt.alloc());
    assert!(rt; wrong == Ok(None), "{wrong:?}");
}

// Whether a run into a sink with so much room, which takes so many bytes a call and fails at one, ends so.
fn ends_so(
    alloc: Global,
    script: &[u8],
    ends: (usize, usize, u32),
    status: Status,
    text: &[u8],
) -> Result<bool, AllocError> {
    let ended = written_in_steps(alloc, script, ends.0, ends.1.max(1), ends.2)?;
    Ok(ended.status == status && ended.text.as_slice() == text)
}

const TWO_LINES: &[u8] = b"brick A (0:3)\nA = 7\nprint A\nprint A\n";

fn two_lines(alloc: Global) -> Result<[bool; 2], AllocError> {
    Ok([
        ends_so(alloc, TWO_LINES, (100, 5, 2), Status::WriteFault, b"7 7 7")?,
        ends_so(
            alloc,
            TWO_LINES,
            (100, 5, 0),
            Status::Done,
            b"7 7 7 7\n7 7 7 7\n",
        )?,
    ])
}

#[test]
fn two_lines_in_steps_of_five(rt: HostRuntime) {
    assert!(rt; two_lines(rt.alloc()) == Ok([true; 2]));
}

fn cut_short(alloc: Global) -> Result<[bool; 2], AllocError> {
    Ok([
        ends_so(
            alloc,
            b"scalar a = 1 / 0\n",
            (10, 100, 0),
            Status::WriteFault,
            b"fault line",
        )?,
        ends_so(
            alloc,
            b"A = 1\n",
            (7, 100, 0),
            Status::WriteFault,
            b"refused",
        )?,
    ])
}

#[test]
fn a_write_fault_comes_in_place_of_a_fault_and_of_a_refusal(rt: HostRuntime) {
    assert!(rt; cut_short(rt.alloc()) == Ok([true; 2]));
}
