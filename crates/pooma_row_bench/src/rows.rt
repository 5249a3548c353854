//! The kernels of rows, one after another.

ghost use Rattle.std.specs.Prelude.{◌≢◌, pos};

use crate::kernels::{
    Addition, And, Division, DivisionBy, Kernel, Less, Magnitude, Maximum, Minimum, Multiplication,
    Negation, Or, Remainder, RemainderBy, Selection, Subtraction,
};
use crate::timed::{Sample, timed};
use pooma_lanes::Divisor;
use std::alloc::{AllocError, Global};
use std::io;
use std::time::Clock;

// Over how many numbers each is done: a whole number of rows of each length.
const NUMBERS: usize = 1_048_576;

// How long the rows are.
const LENGTHS: [usize; 3] = [64, 256, 4096];

// How often each is timed; the least time counts.
const TURNS: usize = 5;

// Two vectors of small numbers, of which no second is 0, and room for a row.
#[derive(Drop)]
struct Numbers {
    a: Vec<i64>,
    b: Vec<i64>,
    out: Vec<i64>,
}

impl Numbers {
    fn new(alloc: Global) -> Result<Numbers, AllocError> {
        let mut a = Vec::with_capacity(alloc, NUMBERS)?;
        let mut b = Vec::with_capacity(alloc, NUMBERS)?;
        for k in 0..NUMBERS {
            a.push((k * 7919 % 1009) as i64 - 500)?;
            b.push((k * 31 % 997) as i64 + 1)?;
        }
        let out = Vec::from_elem(alloc, 0, 4096)?;
        Ok(Numbers { a, b, out })
    }
}

// Some turns of a kernel in rows of one length.
fn turns<K: Kernel, R: Clock>(
    rt: &R,
    kernel: &K,
    numbers: &mut Numbers,
    length: usize,
) -> io::Result<Sample> {
    let Numbers { a, b, out } = numbers;
    let Some(out) = out.as_mut_slice().get_mut(..length) else {
        return Err(io::Error::from(io::ErrorKind::InvalidInput));
    };
    let mut sample = timed(rt, kernel, a, b, out)?;
    for _ in 1..TURNS {
        sample = sample.or_less(timed(rt, kernel, a, b, out)?);
    }
    Ok(sample)
}

// Writes what came of a kernel, and how long it took in rows of each length.
fn report_kernel<K: Kernel, R: Clock + Print + Eprint>(
    rt: &R,
    kernel: &K,
    numbers: &mut Numbers,
) -> io::Result<()> {
    let name = kernel.name();
    let mut is_same = true;
    for length in LENGTHS {
        let sample = turns(rt, kernel, numbers, length)?;
        is_same = is_same && sample.is_same;
        eprintln!(rt; "{name} in rows of {length}: {sample}")?;
    }
    let by_hand = if is_same {
        "the same"
    } else {
        "something else"
    };
    println!(rt; "{name}: {NUMBERS} numbers in rows, by hand {by_hand}")
}

// Sums, differences, products and numbers without their sign.
fn report_sums<R: Clock + Print + Eprint>(rt: &R, numbers: &mut Numbers) -> io::Result<()> {
    report_kernel(rt, &Addition, numbers)?;
    report_kernel(rt, &Subtraction, numbers)?;
    report_kernel(rt, &Multiplication, numbers)?;
    report_kernel(rt, &Negation, numbers)?;
    report_kernel(rt, &Magnitude, numbers)
}

// One number of two.
fn report_choices<R: Clock + Print + Eprint>(rt: &R, numbers: &mut Numbers) -> io::Result<()> {
    report_kernel(rt, &Minimum, numbers)?;
    report_kernel(rt, &Maximum, numbers)?;
    report_kernel(rt, &Less, numbers)?;
    report_kernel(rt, &And, numbers)?;
    report_kernel(rt, &Or, numbers)?;
    report_kernel(rt, &Selection, numbers)
}

// One of the numbers, so that the loop by hand is not built for it.
fn one_number(numbers: &[i64]) -> i64
    ensures { result ≢ pos 0 }
{
    match numbers.get(6) {
        Some(number) if *number != 0 => *number,
        _ => 7,
    }
}

// Quotients and remainders, by a row and by one number.
fn report_quotients<R: Clock + Print + Eprint>(rt: &R, numbers: &mut Numbers) -> io::Result<()> {
    let number = one_number(&numbers.b);
    let division = DivisionBy {
        number,
        divisor: Divisor::new(number),
    };
    let remainder = RemainderBy {
        number,
        divisor: Divisor::new(number),
    };
    report_kernel(rt, &Division, numbers)?;
    report_kernel(rt, &division, numbers)?;
    report_kernel(rt, &Remainder, numbers)?;
    report_kernel(rt, &remainder, numbers)
}

/// Does each kernel over many numbers in rows of three lengths, and writes how long it took beside a loop by hand.
pub fn report_rows<R: Clock + AllocGlobal + Print + Eprint>(rt: &R) -> io::Result<()> {
    let mut numbers = Numbers::new(rt.alloc())?;
    report_sums(rt, &mut numbers)?;
    report_choices(rt, &mut numbers)?;
    report_quotients(rt, &mut numbers)
}
