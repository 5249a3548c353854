ghost use Rattle.std.specs.Prelude.{◌≡◌, ◌<◌, ◌+◌, ◌++◌, ◌∷◌, [], IfOk, IfSome, length};
ghost use Rattle.pooma_machine.specs.Values.{IsComplete};

use pooma_machine::{
    Became, DispatchError, Entry, Event, EventKind, Journal, ListJournal, Machine, Mode, Request,
    Work,
};
use std::alloc::{AllocError, Global};
use std::slice;
use std::sync::Arc;

// A work over one number: it answers the number that it reads, and adds one to the number that it writes.
#[derive(Drop)]
struct Small {
    statement: u32,
    asks: Request,
}

impl Work for Small {
    type Value = u64;

    type Outcome = u64;

    type Content = u64;

    type Shape = ();

    ghost use Rattle.std.specs.Prelude.{◌+◌, ◌%◌, ◌^◌, ◌∷◌, [], unwrap_or, slice_get, true};

    ghost content = { λ v. v };

    ghost ready = { λ v. true };

    ghost meaning = { record { statement = λ w. w.statement; requests = λ w. w.asks ∷ []; new_value = λ w v rs. (v + 1) % 2 ^ 64; outcome = λ w v rs. unwrap_or (slice_get rs 0) 0; shape = λ v. tt; fits = λ w s rs. true } };

    fn requests(&self) -> &[Request] {
        slice::from_ref(&self.asks)
    }

    fn statement(&self) -> u32 {
        self.statement
    }

    fn perform(&self, write: Option<&mut u64>, reads: &[Arc<u64>]) -> u64 {
        let seen = match reads.first() {
            Some(value) => **value,
            None => 0,
        };
        if let Some(value) = write {
            *value = value.wrapping_add(1);
        }
        seen
    }

    fn copied(alloc: Global, value: &u64) -> Result<u64, AllocError> {
        let _ = alloc;
        Ok(*value)
    }

    fn prepared(_alloc: Global, _value: &mut u64) -> Result<(), AllocError> {
        Ok(())
    }
}

// A machine of so many objects, each of which is 0.
fn opened(alloc: Global, objects: usize) -> Option<Machine<Small>>
    ensures plan { IfSome result (λ machine. length machine.plan ≡ 0) }
    ensures opening { IfSome result (λ machine. length machine.opening ≡ objects) }
{
    let mut values = Vec::new(alloc);
    for _ in 0..objects {
        values.push(Arc::new(alloc, 0u64).ok()?).ok()?;
    }
    Machine::new(alloc, values).ok()
}

// Requests an entry over one object, whose statement has the number of the entry.
fn ask(alloc: Global, machine: &mut Machine<Small>, object: u32, mode: Mode) -> Option<u32>
    requires there { object < length machine.old.opening }
    requires few { length machine.old.plan < 100 }
    ensures entry { IfSome result (λ entry. entry ≡ length machine.old.plan) }
    ensures plan { IfSome result (λ entry. length machine.new.plan ≡ length machine.old.plan + 1) }
    ensures opening { machine.new.opening ≡ machine.old.opening }
{
    let statement = machine.issued();
    let asks = Request { object, mode };
    let work = Arc::new(alloc, Small { statement, asks }).ok()?;
    machine.request(alloc, 0, work).ok()
}

// Requests so many entries that read one object.
fn ask_reads(alloc: Global, machine: &mut Machine<Small>, object: u32, times: u32) -> Option<()>
    requires there { object < length machine.old.opening }
    requires few { length machine.old.plan + times < 100 }
    ensures plan { IfSome result (λ done. length machine.new.plan ≡ length machine.old.plan + times) }
    ensures opening { machine.new.opening ≡ machine.old.opening }
{
    for _ in 0..times {
        ask(alloc, machine, object, Mode::Read)?;
    }
    Some(())
}

// Dispatches an entry, does its work and releases it, and answers what became ready. None where it is not dispatched.
fn run(alloc: Global, machine: &mut Machine<Small>, j: u32) -> Option<Became>
    requires { j < length machine.old.plan }
    ensures plan { machine.new.plan ≡ machine.old.plan }
    ensures opening { machine.new.opening ≡ machine.old.opening }
{
    match machine.dispatch(alloc, 0, j) {
        Ok(loan) => Some(machine.release(0, loan.perform())),
        Err(_) => None,
    }
}

// What a dispatch of the entry is refused with, if it is.
fn refusal(alloc: Global, machine: &mut Machine<Small>, seat: u32, j: u32) -> Option<DispatchError>
    requires { j < length machine.old.plan }
    ensures plan { machine.new.plan ≡ machine.old.plan }
    ensures opening { machine.new.opening ≡ machine.old.opening }
{
    machine.dispatch(alloc, seat, j).err()
}

// A machine of one object, which an entry asks to write, two to read, and one to write; and the numbers of these entries.
fn asked(alloc: Global) -> Option<(Machine<Small>, [u32; 4])>
    ensures plan { IfSome result (λ asked. length asked.0.plan ≡ 4) }
    ensures opening { IfSome result (λ asked. length asked.0.opening ≡ 1) }
{
    let mut machine = opened(alloc, 1)?;
    machine.reserve(alloc, 4).ok()?;
    let write = ask(alloc, &mut machine, 0, Mode::Write)?;
    let read = ask(alloc, &mut machine, 0, Mode::Read)?;
    let other_read = ask(alloc, &mut machine, 0, Mode::Read)?;
    let last = ask(alloc, &mut machine, 0, Mode::Write)?;
    Some((machine, [write, read, other_read, last]))
}

// Four requests, the first write done whole, and both reads dispatched.
const EIGHT_EVENTS: &[(EventKind, u32, u32)] = &[
    (EventKind::Request, 0, 0),
    (EventKind::Request, 1, 0),
    (EventKind::Request, 2, 0),
    (EventKind::Request, 3, 0),
    (EventKind::Dispatch, 0, 0),
    (EventKind::Release, 0, 0),
    (EventKind::Dispatch, 1, 0),
    (EventKind::Dispatch, 2, 1),
];

// Whether the history has these kinds, entries and seats.
fn are_events(history: &[Event], rows: &[(EventKind, u32, u32)]) -> bool {
    for (event, (kind, entry, seat)) in history.iter().zip(rows) {
        if (event.kind, event.entry, event.seat) != (*kind, *entry, *seat) {
            return false;
        }
    }
    history.len() == rows.len()
}

// What dispatches of the last entry, of both reads by two seats, of the last and of a read again are refused with, once the
// first write was done; with the numbers of the entries, and whether the history is that of the table.
fn write_and_reads(alloc: Global) -> Option<([Option<DispatchError>; 4], [u32; 4], bool)> {
    let (mut machine, entries) = asked(alloc)?;
    run(alloc, &mut machine, 0)?;
    let refusals = [
        refusal(alloc, &mut machine, 0, 1),
        refusal(alloc, &mut machine, 1, 2),
        refusal(alloc, &mut machine, 0, 3),
        refusal(alloc, &mut machine, 1, 1),
    ];
    Some((
        refusals,
        entries,
        are_events(machine.history(), EIGHT_EVENTS),
    ))
}

#[test]
fn a_write_two_reads_and_a_write_of_one_object(rt: HostRuntime) {
    let held = DispatchError::NotReady { object: 0, by: 1 };
    let again = DispatchError::Already { seat: 0 };
    let refusals = [None, None, Some(held), Some(again)];
    assert!(rt; write_and_reads(rt.alloc()) == Some((refusals, [0, 1, 2, 3], true)));
}

// What the last entry is refused with while the first is not released, and whether its release makes just both reads ready.
fn before_and_behind_a_write(alloc: Global) -> Option<(Option<DispatchError>, bool)> {
    let (mut machine, _) = asked(alloc)?;
    let early = refusal(alloc, &mut machine, 0, 3);
    let became = run(alloc, &mut machine, 0)?;
    Some((
        early,
        became.entries() == [1, 2].as_slice() && !became.more(),
    ))
}

#[test]
fn the_first_write_holds_back_all_others(rt: HostRuntime) {
    let held = DispatchError::NotReady { object: 0, by: 0 };
    assert!(rt; before_and_behind_a_write(rt.alloc()) == Some((Some(held), true)));
}

// What each of the four entries counts.
fn counts(machine: &Machine<Small>) -> [u64; 4]
    requires { length machine.now.plan ≡ 4 }
{
    [
        machine.count(0),
        machine.count(1),
        machine.count(2),
        machine.count(3),
    ]
}

// What the entries of one object count before and behind the release of the first write.
fn counts_around_a_write(alloc: Global) -> Option<[[u64; 4]; 2]> {
    let (mut machine, _) = asked(alloc)?;
    let before = counts(&machine);
    run(alloc, &mut machine, 0)?;
    Some([before, counts(&machine)])
}

#[test]
fn a_read_counts_writes_and_a_write_counts_all(rt: HostRuntime) {
    assert!(rt; counts_around_a_write(rt.alloc()) == Some([[0, 1, 1, 3], [0, 0, 0, 2]]));
}

// A work over two numbers that reads the one and adds one to the other: reads the first and writes the second, or back.
#[derive(Drop)]
struct Taking {
    back: bool,
}

const FORTH: &[Request] = &[
    Request {
        object: 0,
        mode: Mode::Read,
    },
    Request {
        object: 1,
        mode: Mode::Write,
    },
];

const BACK: &[Request] = &[
    Request {
        object: 0,
        mode: Mode::Write,
    },
    Request {
        object: 1,
        mode: Mode::Read,
    },
];

impl Work for Taking {
    type Value = u64;

    type Outcome = ();

    type Content = u64;

    type Shape = ();

    ghost use Rattle.std.specs.Prelude.{◌+◌, ◌%◌, ◌^◌, ◌∷◌, [], true, if◌then◌else◌};
    ghost use Rattle.pooma_queue.specs.declared.queue.Mode.TheVariants.{Read, Write};

    ghost content = { λ v. v };

    ghost ready = { λ v. true };

    ghost meaning = { record { statement = λ w. 0; requests = λ w. if w.back then (record { object = 0; mode = Write }) ∷ (record { object = 1; mode = Read }) ∷ [] else (record { object = 0; mode = Read }) ∷ (record { object = 1; mode = Write }) ∷ []; new_value = λ w v rs. (v + 1) % 2 ^ 64; outcome = λ w v rs. tt; shape = λ v. tt; fits = λ w s rs. true } };

    fn requests(&self) -> &[Request] {
        if self.back { BACK } else { FORTH }
    }

    fn statement(&self) -> u32 {
        0
    }

    fn perform(&self, write: Option<&mut u64>, _reads: &[Arc<u64>]) {
        if let Some(value) = write {
            *value = value.wrapping_add(1);
        }
    }

    fn copied(_alloc: Global, value: &u64) -> Result<u64, AllocError> {
        Ok(*value)
    }

    fn prepared(_alloc: Global, _value: &mut u64) -> Result<(), AllocError> {
        Ok(())
    }
}

// Requests an entry over both objects.
fn take(alloc: Global, machine: &mut Machine<Taking>, back: bool) -> Option<u32>
    requires both { length machine.old.opening ≡ 2 }
    requires few { length machine.old.plan < 100 }
    ensures plan { IfSome result (λ entry. length machine.new.plan ≡ length machine.old.plan + 1) }
    ensures opening { machine.new.opening ≡ machine.old.opening }
{
    let work = Arc::new(alloc, Taking { back }).ok()?;
    machine.request(alloc, 0, work).ok()
}

// What an entry counts that writes the object that the one before it reads, and reads the one that it writes.
fn count_over_two(alloc: Global) -> Option<u64> {
    let mut values = Vec::new(alloc);
    values.push(Arc::new(alloc, 0u64).ok()?).ok()?;
    values.push(Arc::new(alloc, 0u64).ok()?).ok()?;
    let mut machine = Machine::new(alloc, values).ok()?;
    take(alloc, &mut machine, false)?;
    take(alloc, &mut machine, true)?;
    Some(machine.count(1))
}

#[test]
fn an_entry_counts_each_object_of_a_conflict(rt: HostRuntime) {
    assert!(rt; count_over_two(rt.alloc()) == Some(2));
}

// A machine of two objects, of which entries ask to write the first, the second and the first; and their numbers.
fn asked_over_two(alloc: Global) -> Option<(Machine<Small>, [u32; 3])>
    ensures plan { IfSome result (λ asked. length asked.0.plan ≡ 3) }
    ensures opening { IfSome result (λ asked. length asked.0.opening ≡ 2) }
{
    let mut machine = opened(alloc, 2)?;
    let first = ask(alloc, &mut machine, 0, Mode::Write)?;
    let second = ask(alloc, &mut machine, 1, Mode::Write)?;
    let third = ask(alloc, &mut machine, 0, Mode::Write)?;
    Some((machine, [first, second, third]))
}

// The least ready entry from the first, the second and the third one on, and the least one that is not released.
fn least_over_two(alloc: Global) -> Option<([Option<u32>; 4], [u32; 3])> {
    let (machine, entries) = asked_over_two(alloc)?;
    let least = [
        machine.ready_from(0),
        machine.ready_from(1),
        machine.ready_from(2),
        machine.least_unreleased(),
    ];
    Some((least, entries))
}

#[test]
fn the_least_ready_entry_over_two_objects(rt: HostRuntime) {
    let least = [Some(0), Some(1), None, Some(0)];
    assert!(rt; least_over_two(rt.alloc()) == Some((least, [0, 1, 2])));
}

// The same machine, where all three entries were run in turn.
fn run_over_two(alloc: Global) -> Option<Machine<Small>>
    ensures plan { IfSome result (λ machine. length machine.plan ≡ 3) }
{
    let (mut machine, _) = asked_over_two(alloc)?;
    run(alloc, &mut machine, 0)?;
    run(alloc, &mut machine, 1)?;
    run(alloc, &mut machine, 2)?;
    Some(machine)
}

// The outcomes of the first entry and of one that is not there, and the two objects. None where not all were released.
fn ends_over_two(alloc: Global) -> Option<([Option<u64>; 2], [u64; 2])> {
    let machine = run_over_two(alloc)?;
    let outcomes = [machine.outcome(0).copied(), machine.outcome(3).copied()];
    if !machine.all_released() {
        return None;
    }
    match machine.finish(alloc).ok()?.as_slice() {
        [one, other] => Some((outcomes, [**one, **other])),
        _ => None,
    }
}

#[test]
fn objects_and_outcomes_over_two_objects(rt: HostRuntime) {
    assert!(rt; ends_over_two(rt.alloc()) == Some(([Some(0), None], [2, 1])));
}

// The journal that was told of the machine's window.
fn journal_of(alloc: Global, machine: &Machine<Small>) -> Option<ListJournal>
    requires { IsComplete machine.now.plan machine.now.history }
    ensures { IfSome result (λ journal. length journal ≡ 1) }
{
    let mut journal = ListJournal::new(alloc);
    journal.window(alloc, machine).ok()?;
    Some(journal)
}

// Whether the entries are of these statements, and each asks to write one object.
fn are_writes(entries: &[Entry], rows: &[(u32, u32)]) -> bool {
    for (entry, (statement, object)) in entries.iter().zip(rows) {
        let asks = Request {
            object: *object,
            mode: Mode::Write,
        };
        if entry.statement != *statement || entry.requests.as_slice() != [asks].as_slice() {
            return false;
        }
    }
    entries.len() == rows.len()
}

// How many windows a journal of this machine has, and whether the first has the entries and the events of the tables.
fn journal_of_two(alloc: Global) -> Option<(usize, [bool; 2])> {
    let machine = run_over_two(alloc)?;
    if !machine.all_released() {
        return None;
    }
    let journal = journal_of(alloc, &machine)?;
    let are_entries = are_writes(journal.entries(0), &[(0, 0), (1, 1), (2, 0)]);
    Some((
        journal.windows(),
        [are_entries, are_events(journal.events(0), NINE_EVENTS)],
    ))
}

// Three requests, and then each entry dispatched and released in turn.
const NINE_EVENTS: &[(EventKind, u32, u32)] = &[
    (EventKind::Request, 0, 0),
    (EventKind::Request, 1, 0),
    (EventKind::Request, 2, 0),
    (EventKind::Dispatch, 0, 0),
    (EventKind::Release, 0, 0),
    (EventKind::Dispatch, 1, 0),
    (EventKind::Release, 1, 0),
    (EventKind::Dispatch, 2, 0),
    (EventKind::Release, 2, 0),
];

#[test]
fn a_journal_has_the_entries_and_the_events_of_a_window(rt: HostRuntime) {
    assert!(rt; journal_of_two(rt.alloc()) == Some((1, [true, true])));
}

// How many entries the release of a write tells that 17 reads wait for, the first and the last of them, and whether there
// are more.
fn told_of_many(alloc: Global) -> Option<(usize, [Option<u32>; 2], bool)> {
    let mut machine = opened(alloc, 1)?;
    ask(alloc, &mut machine, 0, Mode::Write)?;
    ask_reads(alloc, &mut machine, 0, 17)?;
    let became = run(alloc, &mut machine, 0)?;
    let told = became.entries();
    let ends = [told.first().copied(), told.last().copied()];
    Some((told.len(), ends, became.more()))
}

#[test]
fn a_release_tells_the_sixteen_least_that_became_ready(rt: HostRuntime) {
    assert!(rt; told_of_many(rt.alloc()) == Some((16, [Some(1), Some(16)], true)));
}
