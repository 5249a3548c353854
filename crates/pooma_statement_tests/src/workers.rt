//! Works of a window that wait for one another: two workers do them at the same time, and what is told of the window says so.

use pooma_check::check;
use pooma_machine::{Event, EventKind, ListJournal};
use pooma_run::run_many;
use pooma_worker::Gate;
use std::alloc::{AllocError, Global};
use std::sync::Wait;
use std::sync::atomic::{AtomicU64, Ordering};
use std::thread::Threads;

// How often a gate looks for the others before it gives up.
const LIMIT: u32 = 200_000_000;

// A gate that notes each entry that comes, and at which one entry, or each, waits until so many of the first four came.
#[derive(Drop)]
struct Meeting {
    // The entry that waits. None where each does.
    held: Option<u32>,
    works: u64,
    // How often each came.
    came: [AtomicU64; 4],
    // Whether one gave up.
    missed: AtomicU64,
}

impl Meeting {
    fn of(held: Option<u32>, works: u64) -> Meeting {
        Meeting {
            held,
            works,
            came: [
                AtomicU64::new(0),
                AtomicU64::new(0),
                AtomicU64::new(0),
                AtomicU64::new(0),
            ],
            missed: AtomicU64::new(0),
        }
    }

    // How many came.
    fn count(&self) -> u64 {
        let mut count = 0u64;
        for came in &self.came {
            count = count.saturating_add(came.load(Ordering::SeqCst).min(1));
        }
        count
    }

    // Waits until so many came.
    fn wait(&self) {
        for _ in 0..LIMIT {
            if self.count() == self.works {
                return;
            }
        }
        self.missed.store(1, Ordering::SeqCst);
    }
}

impl Gate for Meeting {
    fn before(&self, entry: u32) {
        if entry > 3 {
            return;
        }
        self.came[entry as usize].store(1, Ordering::SeqCst);
        match self.held {
            Some(held) if held != entry => {}
            _ => self.wait(),
        }
    }
}

// The place of the event of this kind of an entry, or how many events there are.
fn place_of(events: &[Event], kind: EventKind, entry: u32) -> usize {
    for (place, event) in events.iter().enumerate() {
        if (event.kind, event.entry) == (kind, entry) {
            return place;
        }
    }
    events.len()
}

// Whether the first entries, so many, were all dispatched before this one was released.
fn are_dispatched_before(events: &[Event], count: u32, held: u32) -> bool {
    let released = place_of(events, EventKind::Release, held);
    for entry in 0..count {
        if place_of(events, EventKind::Dispatch, entry) >= released {
            return false;
        }
    }
    released < events.len()
}

// Whether the worker that had this entry did nothing else meanwhile: no event between its dispatch and its release is of the seat
// of these two.
fn is_alone_at_its_seat(events: &[Event], held: u32) -> bool {
    let dispatched = place_of(events, EventKind::Dispatch, held);
    let released = place_of(events, EventKind::Release, held);
    let Some(own) = events.get(dispatched) else {
        return false;
    };
    for (place, event) in events.iter().enumerate() {
        if dispatched < place && place < released && event.seat == own.seat {
            return false;
        }
    }
    matches!(events.get(released), Some(last) if last.seat == own.seat)
}

// Whether the events are of the seats 0 and 1 alone.
fn are_of_two_seats(events: &[Event]) -> bool {
    for event in events {
        if event.seat > 1 {
            return false;
        }
    }
    true
}

// Sets the cells of an array, one a patch, by two workers with this gate, and tells the journal. None where it is no program or
// comes to a fault or a text.
fn set_by_two<R: Threads + Wait + Sync>(
    rt: &R,
    alloc: Global,
    script: &[u8],
    gate: &Meeting,
    journal: &mut ListJournal,
) -> Result<Option<()>, AllocError> {
    let Ok(program) = check(alloc, script) else {
        return Ok(None);
    };
    let ended = run_many(rt, alloc, &program, 2, gate, journal)?;
    if ended.faulted() || !ended.bytes().is_empty() {
        return Ok(None);
    }
    Ok(Some(()))
}

// The events of the one window that was told, which has so many entries.
fn events_of(journal: &ListJournal, entries: usize) -> Option<&[Event]> {
    if journal.windows() != 1 || journal.entries(0).len() != entries {
        return None;
    }
    Some(journal.events(0))
}

const TWO: &[u8] = b"layout L (0:1) blocks (2)\narray A on L\nA = 1\n";

const FOUR: &[u8] = b"layout L (0:3) blocks (4)\narray A on L\nA = 1\n";

// Two works that wait for one another: whether one gave up, and whether both were dispatched before either was released.
fn two_meet<R: Threads + Wait + Sync>(
    rt: &R,
    alloc: Global,
) -> Result<Option<(u64, bool)>, AllocError> {
    let gate = Meeting::of(None, 2);
    let mut journal = ListJournal::new(alloc);
    let Some(()) = set_by_two(rt, alloc, TWO, &gate, &mut journal)? else {
        return Ok(None);
    };
    let Some(events) = events_of(&journal, 2) else {
        return Ok(None);
    };
    let met = are_dispatched_before(events, 2, 0)
        && are_dispatched_before(events, 2, 1)
        && are_of_two_seats(events);
    Ok(Some((gate.missed.load(Ordering::SeqCst), met)))
}

#[test]
fn two_works_wait_for_one_another(rt: HostRuntime) {
    assert!(rt; two_meet(&rt, rt.alloc()) == Ok(Some((0, true))));
}

// Four works, of which this one waits until the others came: whether it gave up, and whether what is told follows the gate.
fn held_by_one<R: Threads + Wait + Sync>(
    rt: &R,
    alloc: Global,
    held: u32,
) -> Result<Option<(u64, [bool; 3])>, AllocError> {
    let gate = Meeting::of(Some(held), 4);
    let mut journal = ListJournal::new(alloc);
    let Some(()) = set_by_two(rt, alloc, FOUR, &gate, &mut journal)? else {
        return Ok(None);
    };
    let Some(events) = events_of(&journal, 4) else {
        return Ok(None);
    };
    let follows = [
        are_dispatched_before(events, 4, held),
        is_alone_at_its_seat(events, held),
        are_of_two_seats(events),
    ];
    Ok(Some((gate.missed.load(Ordering::SeqCst), follows)))
}

#[test]
fn one_work_waits_for_three(rt: HostRuntime) {
    for held in 0..4u32 {
        assert_eq!(rt;
            (held, held_by_one(&rt, rt.alloc(), held)),
            (held, Ok(Some((0, [true; 3]))))
        );
    }
}
