//! The pieces of a statement, as they are made.
ghost use Rattle.std.specs.Prelude.{◌≡◌};

use crate::program::first_pieces;
use crate::sample::failed;
use pooma_check::check;
use pooma_model::Program;
use pooma_run::open_store;
use pooma_store::Store;
use std::alloc::Global;
use std::io;
use std::time::{Clock, Duration, Instant};

// Each of the 64 x 64 positions is a part of its own: five views of it, on 16 x 16 patches of four and five cells on a side.
const SCRIPT: &[u8] =
    b"layout L (0:67,0:67) blocks (16,16)\narray A on L\nscalar s = sum(A[0:63,0:63] + A[1:64,1:64] + A[2:65,2:65] + A[3:66,3:66] + A[4:67,4:67])\n";

// How often it is timed; the least time counts.
const TURNS: usize = 7;

// How many pieces the first statement has, and how long it took to make them.
fn timed<R: Clock>(
    rt: &R,
    alloc: Global,
    program: &Program,
    store: &Store,
) -> io::Result<(usize, Duration)>
    requires shapes { store.now.shapes ≡ program.now.declared.shapes }
    requires layouts { store.now.layouts ≡ program.now.declared.layouts }
{
    let begun = Instant::now(rt)?;
    let made = first_pieces(alloc, program, store)?;
    let done = Instant::now(rt)?;
    Ok((made.len(), done.duration_since(begun)))
}

/// Makes the pieces of a reduction of 4,096 parts.
///
/// It writes how many pieces there are in a line of standard output, and in a line of standard error how many nanoseconds a piece
/// their making took. The error is that of a write or of the clock, or want of memory.
pub fn report_splitting<R: Clock + AllocGlobal + Print + Eprint>(rt: &R) -> io::Result<()> {
    let alloc = rt.alloc();
    let Ok(program) = check(alloc, SCRIPT) else {
        return Err(failed());
    };
    let store = open_store(alloc, &program)?;
    let (count, mut least) = timed(rt, alloc, &program, &store)?;
    for _ in 1..TURNS {
        let (_, time) = timed(rt, alloc, &program, &store)?;
        least = least.min(time);
    }
    println!(rt; "a reduction: {count} pieces")?;
    let each = least.as_nanos() / (count as u128).max(1);
    eprintln!(rt; "a reduction: {each} nanoseconds a piece")
}
