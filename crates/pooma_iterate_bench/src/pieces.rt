//! Pieces that are done on patches, beside loops by hand over plain vectors.

use crate::cells::{number_for, sum_by_hand, sum_of, write_all};
use crate::program::first_pieces;
use crate::sample::{Sample, failed};
use pooma_check::check;
use pooma_num::{FaultKind, add, div, mul};
use pooma_patch::Patch;
use pooma_piece::{Piece, run_piece};
use pooma_run::open_store;
use std::alloc::{AllocError, Global};
use std::io;
use std::sync::Arc;
use std::time::{Clock, Duration, Instant};

const SUM: &[u8] =
    b"layout L (0:255,0:255) blocks (1,1)\narray A on L\narray B on L\narray C on L\nC = A + B * 3\n";

const MEAN: &[u8] =
    b"layout L (0:255,0:255) blocks (1,1)\nlayout M (0:257,0:257) blocks (1,1)\narray A on M\narray C on L\nC = (A[0:255,1:256] + A[1:256,0:255] + A[1:256,1:256] + A[2:257,1:256] + A[1:256,2:257]) / 5\n";

// How many cells are on a side of what the statements set, and how many are set.
const SIDE: usize = 256;

const CELLS: u32 = 65_536;

// How many cells are on a side of what the mean reads.
const WIDE: usize = 258;

// How often each is timed; the least time counts.
const TURNS: usize = 7;

// The only piece of a script's statement, and the patches of the script's arrays.
fn piece_of(alloc: Global, script: &[u8]) -> io::Result<(Piece, Vec<Arc<Patch>>)> {
    let Ok(program) = check(alloc, script) else {
        return Err(failed());
    };
    let mut store = open_store(alloc, &program)?;
    let mut made = first_pieces(alloc, &program, &store)?;
    match made.pop() {
        Some(piece) => Ok((piece, store.lend())),
        None => Err(failed()),
    }
}

// How long a piece takes on its patches, where it fits them.
fn run<R: Clock>(
    rt: &R,
    piece: &Piece,
    patch: &mut Arc<Patch>,
    reads: &[Arc<Patch>],
) -> io::Result<Duration> {
    let Some(sole) = Arc::get_mut(patch) else {
        return Err(failed());
    };
    if sole.is_one() || !piece.fits(Some(&*sole), reads) {
        return Err(failed());
    }
    let begun = Instant::now(rt)?;
    run_piece(piece, Some(sole), reads);
    let done = Instant::now(rt)?;
    Ok(done.duration_since(begun))
}

// How long the piece of a script takes, which sets the script's last array, and the sum of what it sets there.
fn by_piece<R: Clock>(rt: &R, alloc: Global, script: &[u8]) -> io::Result<(Duration, i64)> {
    let (piece, mut patches) = piece_of(alloc, script)?;
    write_all(alloc, &mut patches);
    let Some(mut last) = patches.pop() else {
        return Err(failed());
    };
    let time = run(rt, &piece, &mut last, &patches)?;
    Ok((time, sum_of(&last)))
}

// The numbers of a square with so many cells on a side, one row behind another.
fn square(alloc: Global, side: i32) -> Result<Vec<i64>, AllocError> {
    let mut numbers = Vec::new(alloc);
    for y in 0..side {
        for x in 0..side {
            numbers.push(number_for(x, y))?;
        }
    }
    Ok(numbers)
}

// `A + B * 3` at each cell, up to the first fault.
fn add_by_hand(a: &[i64], b: &[i64], c: &mut [i64]) -> Result<(), FaultKind> {
    for k in 0..c.len().min(a.len()).min(b.len()) {
        c[k] = add(a[k], mul(b[k], 3)?)?;
    }
    Ok(())
}

// How long that takes, and the sum of what comes of it.
fn sum_of_loop<R: Clock>(rt: &R, alloc: Global) -> io::Result<(Duration, i64)> {
    let (a, b) = (square(alloc, SIDE as i32)?, square(alloc, SIDE as i32)?);
    let mut c = vec![in alloc; 0i64; SIDE * SIDE]?;
    let begun = Instant::now(rt)?;
    let answer = add_by_hand(&a, &b, &mut c);
    let done = Instant::now(rt)?;
    match answer {
        Ok(()) => Ok((done.duration_since(begun), sum_by_hand(&c))),
        Err(_) => Err(failed()),
    }
}

// The mean of five numbers.
fn mean(x: [i64; 5]) -> Result<i64, FaultKind> {
    div(add(add(add(add(x[0], x[1])?, x[2])?, x[3])?, x[4])?, 5)
}

// The five-point mean at each cell of a row, up to the first fault, over the rows around it.
fn mean_of_row(low: &[i64], row: &[i64], high: &[i64], c: &mut [i64]) -> Result<(), FaultKind> {
    let outer = low.len().min(high.len());
    for k in 0..c.len().min(outer).min(row.len().saturating_sub(2)) {
        c[k] = mean([low[k], row[k], row[k + 1], row[k + 2], high[k]])?;
    }
    Ok(())
}

// The numbers from this place on; none where it lies behind the last.
fn from(numbers: &[i64], place: usize) -> &[i64] {
    match numbers.get(place..) {
        Some(rest) => rest,
        None => &[],
    }
}

// The five-point mean at each cell, up to the first fault.
fn mean_by_hand(a: &[i64], c: &mut [i64]) -> Result<(), FaultKind> {
    for (y, row) in c.chunks_mut(SIDE).enumerate() {
        if y < SIDE {
            let (low, high) = (from(a, y * WIDE + 1), from(a, (y + 2) * WIDE + 1));
            mean_of_row(low, from(a, (y + 1) * WIDE), high, row)?;
        }
    }
    Ok(())
}

// How long that takes, and the sum of what comes of it.
fn mean_of_loop<R: Clock>(rt: &R, alloc: Global) -> io::Result<(Duration, i64)> {
    let a = square(alloc, WIDE as i32)?;
    let mut c = vec![in alloc; 0i64; SIDE * SIDE]?;
    let begun = Instant::now(rt)?;
    let answer = mean_by_hand(&a, &mut c);
    let done = Instant::now(rt)?;
    match answer {
        Ok(()) => Ok((done.duration_since(begun), sum_by_hand(&c))),
        Err(_) => Err(failed()),
    }
}

// A piece and its loop, each once.
fn sample(piece: (Duration, i64), by_hand: (Duration, i64)) -> Sample {
    Sample::new(CELLS, [piece.0, by_hand.0], [piece.1, by_hand.1])
}

fn sums<R: Clock>(rt: &R, alloc: Global) -> io::Result<Sample> {
    let piece = by_piece(rt, alloc, SUM)?;
    Ok(sample(piece, sum_of_loop(rt, alloc)?))
}

fn means<R: Clock>(rt: &R, alloc: Global) -> io::Result<Sample> {
    let piece = by_piece(rt, alloc, MEAN)?;
    Ok(sample(piece, mean_of_loop(rt, alloc)?))
}

/// Does two pieces on patches, each over 256 x 256 positions, and the same by loops over plain vectors that use the same checked
/// arithmetic: `A + B * 3` and a five-point mean.
///
/// For each of the two it writes, in a line of standard output, how many cells were set, the sum of their numbers and whether the
/// loop came to the same; and in a line of standard error how many picoseconds a cell the piece and the loop took. The error is
/// that of a write or of the clock, or want of memory.
pub fn report_pieces<R: Clock + AllocGlobal + Print + Eprint>(rt: &R) -> io::Result<()> {
    let alloc = rt.alloc();
    let (mut sum, mut mean) = (sums(rt, alloc)?, means(rt, alloc)?);
    for _ in 1..TURNS {
        sum = sum.or_less(sums(rt, alloc)?);
        mean = mean.or_less(means(rt, alloc)?);
    }
    sum.print(rt, "A + B * 3")?;
    mean.print(rt, "five-point mean")
}
