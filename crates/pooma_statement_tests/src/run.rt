//! Runs of scripts: what is asked of the picker, and what is told of the windows.

ghost use Rattle.std.specs.Prelude.{◌≡◌, ◌≤◌, ℕ, ℤ, List, Some, Contains, IfOk, map, slice_get};
ghost use Rattle.pooma_machine.specs.declared.journal.Entry.{Entry};
ghost use Rattle.pooma_machine.specs.Told.{Window};
ghost use Rattle.pooma_model.specs.declared.statement.Statement.{Statement};
ghost use Rattle.pooma_run.specs.Served.{entries_in};
ghost use Rattle.pooma_split.specs.Serving.{IsPositionOf, Serve};

use pooma_check::check;
use pooma_machine::{EventKind, ListJournal};
use pooma_model::Program;
use pooma_run::{
    First, ListPicker, Picker, program_is_sound, run_one, told_windows_are_first,
    windows_serve_positions,
};
use std::alloc::{AllocError, Global};

// Runs a script. Whether it is a program that writes this text and ends without a fault.
fn writes<P: Picker>(
    alloc: Global,
    script: &[u8],
    picker: &mut P,
    journal: &mut ListJournal,
    text: &[u8],
) -> Result<bool, AllocError> {
    let Ok(program) = check(alloc, script) else {
        return Ok(false);
    };
    let ended = run_one(alloc, &program, picker, journal)?;
    Ok(!ended.faulted() && ended.bytes() == text)
}

// Whether these questions were asked, each with its list and its answer.
fn asked_are(picker: &ListPicker, expected: &[(&[u32], usize)]) -> bool {
    for (k, (ready, answer)) in expected.iter().enumerate() {
        if k >= picker.questions() || picker.ready(k) != *ready || picker.answer(k) != *answer {
            return false;
        }
    }
    picker.questions() == expected.len()
}

// Whether these are the only window's events, each with its entry.
fn events_are(journal: &ListJournal, expected: &[(EventKind, u32)]) -> bool {
    if journal.windows() != 1 {
        return false;
    }
    for (event, row) in journal.events(0).iter().zip(expected) {
        if (event.kind, event.entry) != *row || event.seat != 0 {
            return false;
        }
    }
    journal.events(0).len() == expected.len()
}

// Each patch is set, and then again from the next one: so the third entry stands behind the first, and the fourth behind the second.
const SHIFTED: &[u8] =
    b"layout L (0:7) blocks (2)\narray A on L\nA = index(0)\nA[0:6:2] = A[1:7:2]\nprint A\n";

const QUESTIONS: &[(&[u32], usize)] = &[(&[0, 1], 1), (&[0, 3], 1), (&[0], 0), (&[2], 0)];

const EVENTS: &[(EventKind, u32)] = &[
    (EventKind::Request, 0),
    (EventKind::Request, 1),
    (EventKind::Request, 2),
    (EventKind::Request, 3),
    (EventKind::Dispatch, 1),
    (EventKind::Release, 1),
    (EventKind::Dispatch, 3),
    (EventKind::Release, 3),
    (EventKind::Dispatch, 0),
    (EventKind::Release, 0),
    (EventKind::Dispatch, 2),
    (EventKind::Release, 2),
];

fn shifted(alloc: Global) -> Result<bool, AllocError> {
    let mut picker = ListPicker::new(alloc, true);
    let mut journal = ListJournal::new(alloc);
    let written = writes(
        alloc,
        SHIFTED,
        &mut picker,
        &mut journal,
        b"1 1 3 3 5 5 7 7\n",
    )?;
    Ok(written && asked_are(&picker, QUESTIONS) && events_are(&journal, EVENTS))
}

#[test]
fn the_last_place_of_each_list(rt: HostRuntime) {
    assert!(rt; shifted(rt.alloc()) == Ok(true));
}

const ONE_ENTRY: &[(EventKind, u32)] = &[
    (EventKind::Request, 0),
    (EventKind::Dispatch, 0),
    (EventKind::Release, 0),
];

fn one_entry(alloc: Global) -> Result<bool, AllocError> {
    let mut journal = ListJournal::new(alloc);
    let script = b"brick A (0:3)\nA = 7\nprint A\n";
    let written = writes(alloc, script, &mut First, &mut journal, b"7 7 7 7\n")?;
    Ok(written && events_are(&journal, ONE_ENTRY) && statement_is(&journal, 0))
}

// Whether the first entry of the first window is of this statement.
fn statement_is(journal: &ListJournal, statement: u32) -> bool {
    if journal.windows() == 0 {
        return false;
    }
    match journal.entries(0) {
        [entry] => entry.statement == statement,
        _ => false,
    }
}

#[test]
fn one_window_of_one_entry(rt: HostRuntime) {
    assert!(rt; one_entry(rt.alloc()) == Ok(true));
}

// Runs a program, and keeps its windows. What is promised of them is concluded from public clauses alone: each position of each
// statement, up to that of the last entry, is served by an entry of its statement.
fn run_serving(alloc: Global, program: &Program) -> Result<ListJournal, AllocError>
    ensures { IfOk result (λ told. (last : Entry) (number : ℕ) (s : Statement) (p : List ℤ)
        → Contains (entries_in (map (λ (window : Window). window.entries) told)) last → number ≤ last.statement
        → slice_get program.now.order number ≡ Some s → IsPositionOf s.action p
        → (entry : Entry) × Contains (entries_in (map (λ (window : Window). window.entries) told)) entry × (entry.statement ≡ number)
        × Serve program.now.declared s.action p entry.requests) }
{
    program_is_sound(program);
    told_windows_are_first();
    windows_serve_positions();
    let mut journal = ListJournal::new(alloc);
    let _ended = run_one(alloc, program, &mut First, &mut journal)?;
    Ok(journal)
}

fn serves(alloc: Global, script: &[u8], entries: usize) -> Result<bool, AllocError> {
    let Ok(program) = check(alloc, script) else {
        return Ok(false);
    };
    let journal = run_serving(alloc, &program)?;
    Ok(journal.windows() == 1 && journal.entries(0).len() == entries)
}

#[test]
fn each_position_served_by_what_was_told(rt: HostRuntime) {
    assert!(rt; serves(rt.alloc(), SHIFTED, 4) == Ok(true));
}
