//! Windows whose entries all ask for one object, beside one whose entries ask for many.
ghost use Rattle.std.specs.Prelude.{◌≡◌, ◌<◌, ◌≤◌, All, length};

use crate::increment::Increment;
use crate::window::{MOST_ENTRIES, OBJECTS, opened};
use pooma_machine::{Machine, Mode};
use std::alloc::Global;
use std::io;
use std::sync::Arc;
use std::time::{Clock, Duration, Instant};

// How many entries ask for many objects, and how many for one.
const FEW: u32 = 4_096;

const MANY: u32 = 65_536;

// How often each window is timed; the least time counts.
const TURNS: usize = 3;

// The seat of all events.
const SEAT: u32 = 0;

// What the entries of a window ask for.
#[derive(Clone, Copy, Debug)]
enum Asked {
    // A write of one object and a read of another, which differ from entry to entry.
    Many,
    // A write of one object.
    OneToWrite,
    // A read of one object.
    OneToRead,
}

impl Asked {
    fn work(self, entry: u32) -> Increment
        requires { entry ≤ MOST_ENTRIES }
        ensures { All (λ request. request.object < OBJECTS) result }
    {
        match self {
            Asked::Many => Increment::of_entry(entry),
            Asked::OneToWrite => Increment::of_first_object(Mode::Write),
            Asked::OneToRead => Increment::of_first_object(Mode::Read),
        }
    }
}

// Requests a work, where the machine may have one more.
fn request_one(alloc: Global, machine: &mut Machine<Increment>, work: Increment) -> Option<()>
    requires there { length machine.old.opening ≡ OBJECTS }
    requires objects { All (λ request. request.object < OBJECTS) work }
    ensures { machine.new.opening ≡ machine.old.opening }
{
    if machine.issued() == u32::MAX {
        return None;
    }
    let work = Arc::new(alloc, work).ok()?;
    match machine.request(alloc, SEAT, work) {
        Ok(_) => Some(()),
        Err(_) => None,
    }
}

// Requests so many.
fn request_each(
    alloc: Global,
    machine: &mut Machine<Increment>,
    asked: Asked,
    count: u32,
) -> Option<()>
    requires there { length machine.old.opening ≡ OBJECTS }
    requires few { count ≤ MOST_ENTRIES }
{
    for entry in 0..count {
        request_one(alloc, machine, asked.work(entry))?;
    }
    Some(())
}

// Dispatches, performs and releases so many entries, each time the least that is ready.
fn run_each(alloc: Global, machine: &mut Machine<Increment>, count: u32) -> Option<()> {
    for _ in 0..count {
        let entry = machine.ready_from(0)?;
        let loan = machine.dispatch(alloc, SEAT, entry).ok()?;
        machine.release(SEAT, loan.perform());
    }
    Some(())
}

// How long a window took, from its first request to its last release. None where not all entries were released.
fn window<R: Clock>(rt: &R, alloc: Global, asked: Asked, count: u32) -> io::Result<Option<Duration>>
    requires { count ≤ MOST_ENTRIES }
{
    let mut machine = opened(alloc)?;
    let begun = Instant::now(rt)?;
    let requested = request_each(alloc, &mut machine, asked, count);
    let ran = run_each(alloc, &mut machine, count);
    let ended = Instant::now(rt)?;
    if requested.is_none() || ran.is_none() || !machine.all_released() {
        return Ok(None);
    }
    Ok(Some(ended.duration_since(begun)))
}

// The least time of some windows, in picoseconds an entry.
fn report_window<R: Clock + AllocGlobal + Print + Eprint>(
    rt: &R,
    name: &str,
    asked: Asked,
    count: u32,
) -> io::Result<()>
    requires { count ≤ MOST_ENTRIES }
{
    let mut least = Duration::MAX;
    for _ in 0..TURNS {
        let Some(time) = window(rt, rt.alloc(), asked, count)? else {
            return Err(io::Error::from(io::ErrorKind::OutOfMemory));
        };
        least = least.min(time);
    }
    let each = least.as_nanos() / u128::from(count).max(1);
    println!(rt; "{name}: {count} entries, all released")?;
    eprintln!(rt; "{name}: {each} nanoseconds an entry")
}

/// Runs a window of entries that ask for many objects, and two of more entries that ask for one, and writes how long an entry took.
pub fn report<R: Clock + AllocGlobal + Print + Eprint>(rt: &R) -> io::Result<()> {
    report_window(rt, "many objects", Asked::Many, FEW)?;
    report_window(rt, "one object, written", Asked::OneToWrite, MANY)?;
    report_window(rt, "one object, read", Asked::OneToRead, MANY)
}
