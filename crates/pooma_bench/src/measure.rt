ghost use Rattle.std.specs.Prelude.{◌≡◌, ◌*◌, ◌≤◌, IfOk};

use crate::window::{MOST_ENTRIES, OBJECTS, opened, request_all, run_all, sum_of};
use std::time::{Clock, Instant};
use std::{fmt, io};

/// What was done in a window, in numbers.
#[derive(Clone, Copy, Debug, PartialEq, Eq)]
pub struct Tally {
    /// How many entries it had.
    pub entries: u32,
    /// How many events its history has.
    pub events: usize,
    /// The sum of the objects' values at its end.
    pub sum: u64,
}

impl fmt::Display for Tally {
    ghost use Rattle.std.specs.Prelude.{Some};
    ghost use Rattle.pooma_bench.specs.Texts.{tally_text};

    ghost output = { λ tally. Some (tally_text tally) };

    fn fmt<W: fmt::Write>(&self, f: &mut fmt::Formatter<W>) -> fmt::Result {
        let Tally {
            entries,
            events,
            sum,
        } = self;
        write!(
            f,
            "machine: {entries} entries over {OBJECTS} objects, {events} events, sum {sum}"
        )
    }
}

/// How many microseconds the parts of a window took.
#[derive(Clone, Copy, Debug)]
pub struct Times {
    /// Requesting all entries.
    pub requesting: u128,
    /// Dispatching, performing and releasing them.
    pub running: u128,
    /// Taking the objects out of the machine.
    pub finishing: u128,
    /// All of these.
    pub total: u128,
}

impl fmt::Display for Times {
    ghost use Rattle.std.specs.Prelude.{Some};
    ghost use Rattle.pooma_bench.specs.Texts.{times_text};

    ghost output = { λ times. Some (times_text times) };

    fn fmt<W: fmt::Write>(&self, f: &mut fmt::Formatter<W>) -> fmt::Result {
        let Times {
            requesting,
            running,
            finishing,
            total,
        } = self;
        write!(
            f,
            "microseconds: requesting {requesting}, running {running}, finishing {finishing}, total {total}"
        )
    }
}

/// Runs one window of so many entries: each adds one to an object and has a request, a dispatch and a release.
pub fn measure<R: Clock + AllocGlobal>(rt: &R, entries: u32) -> io::Result<(Tally, Times)>
    requires { entries ≤ MOST_ENTRIES }
    ensures { IfOk result (λ pair. pair.0 ≡ record { entries = entries; events = 3 * entries; sum = entries }) }
{
    let mut machine = opened(rt.alloc())?;
    let begun = Instant::now(rt)?;
    request_all(rt.alloc(), &mut machine, entries)?;
    let requested = Instant::now(rt)?;
    run_all(rt.alloc(), &mut machine)?;
    let ran = Instant::now(rt)?;
    let events = machine.history().len();
    let objects = machine.finish(rt.alloc())?;
    let finished = Instant::now(rt)?;
    let tally = Tally {
        entries,
        events,
        sum: sum_of(&objects),
    };
    let times = Times {
        requesting: requested.duration_since(begun).as_micros(),
        running: ran.duration_since(requested).as_micros(),
        finishing: finished.duration_since(ran).as_micros(),
        total: finished.duration_since(begun).as_micros(),
    };
    Ok((tally, times))
}

/// Runs one window of so many entries, and writes what was done in it to standard output, and how long its parts took to standard
/// error. The error is that of a write or of the clock, or want of memory.
pub fn report<R: Clock + AllocGlobal + Print + Eprint>(rt: &R, entries: u32) -> io::Result<()>
    requires { entries ≤ MOST_ENTRIES }
{
    let (tally, times) = measure(rt, entries)?;
    println!(rt; "{tally}")?;
    eprintln!(rt; "{times}")
}
