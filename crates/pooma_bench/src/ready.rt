//! How long a number takes through a deque of ready numbers.

use pooma_ready::{Ready, Thief};
use std::io;
use std::sync::Wait;
use std::time::{Clock, Duration, Instant};

// How many numbers are put and taken, and then put and stolen, each time.
const NUMBERS: u32 = 1_000_000;

// How often each is timed; the least time counts.
const TURNS: usize = 5;

// So many picoseconds are a nanosecond.
const PICOSECONDS: u128 = 1000;

// Puts each number and takes it again. How many came back as they were.
fn put_and_take(ready: &mut Ready) -> u32 {
    let mut same = 0u32;
    for j in 0..NUMBERS {
        if ready.put(j).is_ok() && ready.take() == Some(j) {
            same = same.saturating_add(1);
        }
    }
    same
}

// Puts each number and steals it. How many came out as they were.
fn put_and_steal<R: Wait>(rt: &R, ready: &mut Ready, thief: &mut Thief) -> u32 {
    let mut same = 0u32;
    for j in 0..NUMBERS {
        if ready.put(j).is_ok() && thief.steal(rt) == Some(j) {
            same = same.saturating_add(1);
        }
    }
    same
}

// How long both took, and how many numbers came out as they were.
fn timed<R: Wait + Clock>(
    rt: &R,
    ready: &mut Ready,
    thief: &mut Thief,
) -> io::Result<([Duration; 2], [u32; 2])> {
    let begun = Instant::now(rt)?;
    let taken = put_and_take(ready);
    let between = Instant::now(rt)?;
    let stolen = put_and_steal(rt, ready, thief);
    let ended = Instant::now(rt)?;
    let times = [between.duration_since(begun), ended.duration_since(between)];
    Ok((times, [taken, stolen]))
}

// Writes how many numbers came out, and how long each took.
fn write_times<R: Print + Eprint>(rt: &R, name: &str, same: u32, time: Duration) -> io::Result<()> {
    let each = time.as_nanos().saturating_mul(PICOSECONDS) / u128::from(NUMBERS);
    println!(rt; "{name}: {same} of {NUMBERS} numbers as they were")?;
    eprintln!(rt; "{name}: {each} picoseconds a number")
}

/// Puts numbers into a deque and takes them, and puts and steals them, and writes how many came out and how long each took.
pub fn report<R: Wait + Clock + AllocGlobal + Print + Eprint>(rt: &R) -> io::Result<()> {
    let mut ready = Ready::new(rt.alloc())?;
    let mut thief = ready.thief()?;
    let (mut times, mut same) = timed(rt, &mut ready, &mut thief)?;
    for _ in 1..TURNS {
        let ([taking, stealing], [taken, stolen]) = timed(rt, &mut ready, &mut thief)?;
        times = [times[0].min(taking), times[1].min(stealing)];
        same = [same[0].min(taken), same[1].min(stolen)];
    }
    write_times(rt, "put and taken", same[0], times[0])?;
    write_times(rt, "put and stolen", same[1], times[1])
}
