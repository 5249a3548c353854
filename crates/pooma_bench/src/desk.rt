ghost use Rattle.std.specs.Prelude.{◌≡◌, ◌+◌, ◌<◌, ◌≤◌, IfSome, length};
ghost use Rattle.std.specs.Thread.{IsSync};
ghost use Rattle.pooma_desk.specs.Tokens.{IsSamePass, plan_of};

use crate::increment::Increment;
use crate::window::{OBJECTS, opened};
use pooma_desk::{Desk, Pass};
use pooma_machine::{DispatchError, Machine};
use std::alloc::Global;
use std::sync::{Arc, Wait};
use std::thread::Threads;
use std::time::{Clock, Duration, Instant};
use std::{fmt, io, thread};

/// How many works are requested, dispatched and released each time, by all threads together.
const WORKS: u32 = 40_000;

// How many threads there are at the most.
const MOST_THREADS: u32 = 4;

// How often each is timed; the least time counts.
const TURNS: usize = 5;

// How many nanoseconds a second has.
const NANOSECONDS: u128 = 1_000_000_000;

// The seat of the machine alone.
const SEAT: u32 = 0;

// Dispatches, performs and releases an entry, where nothing holds it back. Whether nothing did.
fn try_once<R: Wait>(
    rt: &R,
    alloc: Global,
    desk: &Desk<Increment>,
    pass: Pass<Increment>,
    j: u32,
) -> Option<(Pass<Increment>, bool)>
    requires from { pass.from ≡ desk.now }
    requires issued { j < length (plan_of pass) }
    ensures same { IfSome result (λ r. IsSamePass pass r.0) }
{
    let (pass, answer) = desk.dispatch(rt, alloc, pass, j);
    match answer {
        Ok(loan) => {
            let (pass, _) = desk.release(rt, pass, loan.perform());
            Some((pass, true))
        }
        Err(DispatchError::NotReady { .. }) => Some((pass, false)),
        Err(_) => None,
    }
}

// Does an entry once nothing holds it back.
fn when_ready<R: Wait>(
    rt: &R,
    alloc: Global,
    desk: &Desk<Increment>,
    pass: Pass<Increment>,
    j: u32,
) -> Option<Pass<Increment>>
    requires from { pass.from ≡ desk.now }
    ensures same { IfSome result (λ next. IsSamePass pass next) }
{
    let mut pass = pass;
    for _ in rt.forever() {
        let (looked, seen) = desk.look(rt, pass, 0);
        if j >= seen.issued {
            return None;
        }
        let (next, done) = try_once(rt, alloc, desk, looked, j)?;
        if done {
            return Some(next);
        }
        pass = next;
        thread::yield_now();
    }
    unreachable!()
}

// Requests the work of this number, and does it, as a rule at once.
fn one_work<R: Wait>(
    rt: &R,
    alloc: Global,
    desk: &Desk<Increment>,
    pass: Pass<Increment>,
    k: u32,
) -> Option<Pass<Increment>>
    requires from { pass.from ≡ desk.now }
    requires there { length pass.from.machine.opening ≡ OBJECTS }
    requires few { k < WORKS }
    ensures same { IfSome result (λ next. IsSamePass pass next) }
{
    let work = Arc::new(alloc, Increment::of_entry(k)).ok()?;
    let (pass, answer) = desk.request(rt, alloc, pass, work);
    let entry = answer.ok()?;
    let (pass, done) = try_once(rt, alloc, desk, pass, entry)?;
    if done {
        return Some(pass);
    }
    when_ready(rt, alloc, desk, pass, entry)
}

// So many works, beginning with one that is far from those of other seats.
fn works<R: Wait>(
    rt: &R,
    alloc: Global,
    desk: &Desk<Increment>,
    pass: Pass<Increment>,
    count: u32,
) -> Option<Pass<Increment>>
    requires from { pass.from ≡ desk.now }
    requires there { length pass.from.machine.opening ≡ OBJECTS }
    requires few { count ≤ WORKS }
    ensures same { IfSome result (λ next. IsSamePass pass next) }
{
    let first = pass.seat() % MOST_THREADS * (WORKS / MOST_THREADS);
    let mut pass = pass;
    for k in 0..count {
        pass = one_work(rt, alloc, desk, pass, (first + k) % WORKS)?;
    }
    Some(pass)
}

// Splits so many passes off, each of which does so many works in a thread of its own, as the pass itself does in this one. Then
// all are joined into it.
#[cycle(together)]
fn together<R: Threads + Wait + Sync>(
    rt: &R,
    alloc: Global,
    desk: &Desk<Increment>,
    pass: Pass<Increment>,
    others: u32,
    count: u32,
) -> Option<Pass<Increment>>
    requires from { pass.from ≡ desk.now }
    requires there { length pass.from.machine.opening ≡ OBJECTS }
    requires few { count ≤ WORKS }
    requires left { others ≤ length pass.left }
    requires shares { others < pass.shares }
    ensures from { IfSome result (λ all. all.from ≡ pass.from) }
    ensures shares { IfSome result (λ all. all.shares ≡ pass.shares) }
{
    if others == 0 {
        return works(rt, alloc, desk, pass, count);
    }
    let (pass, other) = desk.split(pass);
    let (other, pass) = thread::join(
        rt,
        move ||
            requires { (other.from ≡ desk.now) × (length other.from.machine.opening ≡ OBJECTS) × (count ≤ WORKS) }
            ensures { IfSome result (λ all. (all.from ≡ other.from) × (all.shares ≡ other.shares)) }
        { works(rt, alloc, desk, other, count) },
        move ||
            requires { IsSync R.row × (pass.from ≡ desk.now) × (length pass.from.machine.opening ≡ OBJECTS) × (count ≤ WORKS) × (0 < others) × (others ≤ length pass.left + 1) × (others < pass.shares + 1) }
            ensures { IfSome result (λ all. (all.from ≡ pass.from) × (all.shares ≡ pass.shares)) }
        { together(rt, alloc, desk, pass, others - 1, count) },
    );
    let (Some(other), Some(pass)) = (other, pass) else {
        return None;
    };
    Some(desk.join(pass, other))
}

// The works on the machine alone, one after another.
fn alone(alloc: Global, machine: Machine<Increment>) -> Option<Machine<Increment>>
    requires { length machine.opening ≡ OBJECTS }
{
    let mut machine = machine;
    for k in 0..WORKS {
        one_alone(alloc, &mut machine, k)?;
    }
    Some(machine)
}

// One work on the machine alone. It stops where the machine has as many entries as it may have.
fn one_alone(alloc: Global, machine: &mut Machine<Increment>, k: u32) -> Option<()>
    requires there { length machine.old.opening ≡ OBJECTS }
    requires few { k < WORKS }
    ensures { machine.new.opening ≡ machine.old.opening }
{
    if machine.issued() == u32::MAX {
        return None;
    }
    let work = Arc::new(alloc, Increment::of_entry(k)).ok()?;
    let entry = machine.request(alloc, SEAT, work).ok()?;
    let loan = machine.dispatch(alloc, SEAT, entry).ok()?;
    machine.release(SEAT, loan.perform());
    Some(())
}

// The sum of the objects, of which 64 bits are kept. None where not all works were released, or for want of memory.
fn sum_at_end(alloc: Global, machine: Machine<Increment>) -> Option<u64> {
    if !machine.all_released() {
        return None;
    }
    let objects = machine.finish(alloc).ok()?;
    let mut sum = 0u64;
    for value in &objects {
        sum = sum.wrapping_add(**value);
    }
    Some(sum)
}

// How long the works took, and whether each added one to an object.
#[derive(Clone, Copy, Debug)]
struct Sample {
    time: Duration,
    is_whole: bool,
}

impl fmt::Display for Sample {
    fn fmt<W: fmt::Write>(&self, f: &mut fmt::Formatter<W>) -> fmt::Result {
        let works = u128::from(WORKS) * NANOSECONDS / self.time.as_nanos().max(1);
        write!(f, "{works} requests, dispatches and releases a second")
    }
}

impl Sample {
    fn new(time: Duration, sum: u64) -> Sample {
        let is_whole = sum == u64::from(WORKS);
        Sample { time, is_whole }
    }

    // The least time of the two.
    fn or_less(self, other: Sample) -> Sample {
        Sample {
            time: self.time.min(other.time),
            is_whole: self.is_whole && other.is_whole,
        }
    }
}

fn short_of_memory() -> io::Error {
    io::Error::from(io::ErrorKind::OutOfMemory)
}

// The works at a desk of so many threads.
fn at_desk<R: Threads + Wait + Sync + Clock>(
    rt: &R,
    alloc: Global,
    threads: u32,
) -> io::Result<Sample>
    requires some { 0 < threads }
    requires few { threads ≤ MOST_THREADS }
{
    let Ok((desk, pass)) = Desk::start(alloc, opened(alloc)?, threads) else {
        return Err(short_of_memory());
    };
    let begun = Instant::now(rt)?;
    let pass = together(rt, alloc, &desk, pass, threads - 1, WORKS / threads);
    let ended = Instant::now(rt)?;
    let Some(pass) = pass else {
        return Err(short_of_memory());
    };
    let Some(sum) = sum_at_end(alloc, desk.close(pass)) else {
        return Err(short_of_memory());
    };
    Ok(Sample::new(ended.duration_since(begun), sum))
}

// The works on a machine alone.
fn on_machine<R: Clock>(rt: &R, alloc: Global) -> io::Result<Sample> {
    let machine = opened(alloc)?;
    let begun = Instant::now(rt)?;
    let machine = alone(alloc, machine);
    let ended = Instant::now(rt)?;
    let Some(machine) = machine else {
        return Err(short_of_memory());
    };
    let Some(sum) = sum_at_end(alloc, machine) else {
        return Err(short_of_memory());
    };
    Ok(Sample::new(ended.duration_since(begun), sum))
}

// The machine alone, and then the desk with 1, 2 and 4 threads, once.
fn sample_all<R: Threads + Wait + Sync + Clock>(rt: &R, alloc: Global) -> io::Result<[Sample; 4]> {
    Ok([
        on_machine(rt, alloc)?,
        at_desk(rt, alloc, 1)?,
        at_desk(rt, alloc, 2)?,
        at_desk(rt, alloc, 4)?,
    ])
}

// Writes whether all works were done, and how many a second.
fn write_sample<R: Print + Eprint>(rt: &R, name: &str, sample: Sample) -> io::Result<()> {
    let done = if sample.is_whole { "all" } else { "not all" };
    println!(rt; "{name}: {WORKS} works over {OBJECTS} objects, {done} done")?;
    eprintln!(rt; "{name}: {sample}")
}

/// Does small works on a machine alone and behind a desk, and writes whether all were done and how many a second.
pub fn report<R: Threads + Wait + Sync + Clock + AllocGlobal + Print + Eprint>(
    rt: &R,
) -> io::Result<()> {
    let mut samples = sample_all(rt, rt.alloc())?;
    for _ in 1..TURNS {
        let [a, b, c, d] = sample_all(rt, rt.alloc())?;
        let [w, x, y, z] = samples;
        samples = [w.or_less(a), x.or_less(b), y.or_less(c), z.or_less(d)];
    }
    let [alone, one, two, four] = samples;
    write_sample(rt, "machine alone", alone)?;
    write_sample(rt, "desk, 1 thread", one)?;
    write_sample(rt, "desk, 2 threads", two)?;
    write_sample(rt, "desk, 4 threads", four)
}
