//! Cells of a square array that are written and read through patches, and read through a store.
ghost use Rattle.std.specs.Prelude.{◌≡◌, ◌∷◌, ℤ, ◌≤ℤ◌, [], false, map};
ghost use Rattle.std.specs.Arc.{arc_value};
ghost use Rattle.pooma_domain.specs.Cells.{IsIn};
ghost use Rattle.pooma_store.specs.Standing.{HasTotal};
ghost use Rattle.pooma_store.specs.Stored.{contents_of};

use crate::sample::{Sample, failed};
use pooma_check::check;
use pooma_domain::{Axis, Cell};
use pooma_patch::Patch;
use pooma_run::open_store;
use pooma_store::{Store, patches_in_place};
use std::alloc::Global;
use std::io;
use std::sync::Arc;
use std::time::{Clock, Instant};

const SCRIPT: &[u8] = b"layout L (0:1023,0:1023) blocks (4,4)\narray A on L\n";

// How many cells are on a side of the square, and how many are in it.
const SIDE: usize = 1024;

const CELLS: u32 = 1_048_576;

// How often each is timed; the least time counts.
const TURNS: usize = 7;

/// The number that a cell is given.
pub(crate) fn number_for(x: i32, y: i32) -> i64 {
    i64::from(x) * 7 - i64::from(y) * 3
}

// Gives the cells of a row of a patch their numbers.
fn write_row(patch: &mut Patch, along: Axis, y: i32)
    requires inside { (x : ℤ) → along.first ≤ℤ x → x ≤ℤ along.last → IsIn patch.old.content.area (x ∷ y ∷ []) }
    requires writable { patch.old.one ≡ false }
    ensures area { patch.new.content.area ≡ patch.old.content.area }
    ensures writable { patch.new.one ≡ false }
{
    'cells: for x in along.first..=along.last {
        patch.set(&Cell::of2(x, y), number_for(x, y));
    }
}

// Gives the cells of a patch of two axes their numbers; of another patch it changes nothing.
fn write(patch: &mut Patch)
    requires { patch.old.one ≡ false }
    ensures area { patch.new.content.area ≡ patch.old.content.area }
    ensures writable { patch.new.one ≡ false }
{
    let area = patch.area();
    if area.dims() != 2 {
        return;
    }
    let (along, across) = (area.axis(0), area.axis(1));
    'rows: for y in across.first..=across.last {
        write_row(patch, along, y);
    }
}

// The sum of the numbers in a row of a patch.
fn sum_of_row(patch: &Patch, along: Axis, y: i32) -> i64
    requires { (x : ℤ) → along.first ≤ℤ x → x ≤ℤ along.last → IsIn patch.now.content.area (x ∷ y ∷ []) }
{
    let mut sum = 0i64;
    'cells: for x in along.first..=along.last {
        sum = sum.wrapping_add(patch.get(&Cell::of2(x, y)));
    }
    sum
}

/// The sum of the numbers of a patch of two axes, of which 64 bits are kept; of another patch 0.
pub(crate) fn sum_of(patch: &Patch) -> i64 {
    let area = patch.area();
    if area.dims() != 2 {
        return 0;
    }
    let (along, across) = (area.axis(0), area.axis(1));
    let mut sum = 0i64;
    'rows: for y in across.first..=across.last {
        sum = sum.wrapping_add(sum_of_row(patch, along, y));
    }
    sum
}

// The sum of the numbers in a row of the store's first array.
fn sum_of_store_row(store: &Store, along: Axis, y: i32) -> i64
    requires home { store.now.lent ≡ false }
    requires there { (x : ℤ) → along.first ≤ℤ x → x ≤ℤ along.last → HasTotal store.now.layouts 0 (x ∷ y ∷ []) }
{
    let mut sum = 0i64;
    'cells: for x in along.first..=along.last {
        sum = sum.wrapping_add(store.get(0, &Cell::of2(x, y)));
    }
    sum
}

// The sum of the numbers of the store's first array, where it has two axes.
fn sum_of_store(store: &Store) -> i64
    requires { store.now.lent ≡ false }
{
    if store.arrays() == 0 {
        return 0;
    }
    let total = store.layout(0).total();
    if total.dims() != 2 {
        return 0;
    }
    let (along, across) = (total.axis(0), total.axis(1));
    let mut sum = 0i64;
    'rows: for y in across.first..=across.last {
        sum = sum.wrapping_add(sum_of_store_row(store, along, y));
    }
    sum
}

// Gives the cells of a patch their numbers, where it has no other owner and memory suffices to write it.
fn write_alone(alloc: Global, patch: &mut Arc<Patch>)
    ensures { (arc_value patch.new).content.area ≡ (arc_value patch.old).content.area }
{
    if let Some(sole) = Arc::get_mut(patch) {
        match sole.writable(alloc) {
            Ok(()) => write(sole),
            Err(_) => {}
        }
    }
}

/// Gives the cells of all patches their numbers. A patch that cannot be written stays as it is, and the sum tells.
pub(crate) fn write_all(alloc: Global, patches: &mut [Arc<Patch>])
    ensures { map (λ object. object.area) (contents_of patches.new) ≡ map (λ object. object.area) (contents_of patches.old) }
{
    patches_in_place();
    'patches: for patch in patches.iter_mut() {
        write_alone(alloc, patch);
    }
}

fn sum_of_all(patches: &[Arc<Patch>]) -> i64 {
    let mut sum = 0i64;
    for patch in patches {
        sum = sum.wrapping_add(sum_of(patch));
    }
    sum
}

// The same numbers, one row behind another.
fn write_by_hand(numbers: &mut [i64]) {
    for k in 0..numbers.len().min(SIDE * SIDE) {
        numbers[k] = number_for((k % SIDE) as i32, (k / SIDE) as i32);
    }
}

/// The sum of numbers, of which 64 bits are kept.
pub(crate) fn sum_by_hand(numbers: &[i64]) -> i64 {
    let mut sum = 0i64;
    for x in numbers {
        sum = sum.wrapping_add(*x);
    }
    sum
}

fn written<R: Clock>(
    rt: &R,
    alloc: Global,
    patches: &mut [Arc<Patch>],
    numbers: &mut [i64],
) -> io::Result<Sample>
    ensures { map (λ object. object.area) (contents_of patches.new) ≡ map (λ object. object.area) (contents_of patches.old) }
{
    let begun = Instant::now(rt)?;
    write_all(alloc, patches);
    let written = Instant::now(rt)?;
    write_by_hand(numbers);
    let done = Instant::now(rt)?;
    let sums = [sum_of_all(patches), sum_by_hand(numbers)];
    let times = [written.duration_since(begun), done.duration_since(written)];
    Ok(Sample::new(CELLS, times, sums))
}

fn read<R: Clock>(rt: &R, patches: &[Arc<Patch>], numbers: &[i64]) -> io::Result<Sample> {
    let begun = Instant::now(rt)?;
    let sum = sum_of_all(patches);
    let read = Instant::now(rt)?;
    let other = sum_by_hand(numbers);
    let done = Instant::now(rt)?;
    let times = [read.duration_since(begun), done.duration_since(read)];
    Ok(Sample::new(CELLS, times, [sum, other]))
}

fn read_through<R: Clock>(rt: &R, store: &Store, numbers: &[i64]) -> io::Result<Sample>
    requires { store.now.lent ≡ false }
{
    let begun = Instant::now(rt)?;
    let sum = sum_of_store(store);
    let read = Instant::now(rt)?;
    let other = sum_by_hand(numbers);
    let done = Instant::now(rt)?;
    let times = [read.duration_since(begun), done.duration_since(read)];
    Ok(Sample::new(CELLS, times, [sum, other]))
}

// Each of the three, once.
fn sample_all<R: Clock>(
    rt: &R,
    alloc: Global,
    store: &mut Store,
    numbers: &mut [i64],
) -> io::Result<[Sample; 3]>
    requires { store.old.lent ≡ false }
    ensures { store.new.lent ≡ false }
{
    let mut patches = store.lend();
    let write = written(rt, alloc, &mut patches, numbers);
    let read = read(rt, &patches, numbers);
    store.settle(patches);
    Ok([write?, read?, read_through(rt, store, numbers)?])
}

/// Writes and reads the cells of an array of 1024 x 1024 in 16 patches through its patches, reads them through its store, and does
/// the same over a plain vector.
///
/// For each of the three it writes, in a line of standard output, how many cells they are, the sum of their numbers and whether the
/// vector came to the same; and in a line of standard error how many picoseconds a cell each of the two took. The error is that of a
/// write or of the clock, or want of memory.
pub fn report_cells<R: Clock + AllocGlobal + Print + Eprint>(rt: &R) -> io::Result<()> {
    let alloc = rt.alloc();
    let Ok(program) = check(alloc, SCRIPT) else {
        return Err(failed());
    };
    let mut store = open_store(alloc, &program)?;
    let mut numbers = vec![in alloc; 0i64; SIDE * SIDE]?;
    let mut samples = sample_all(rt, alloc, &mut store, &mut numbers)?;
    'turns: for _ in 1..TURNS {
        let [a, b, c] = sample_all(rt, alloc, &mut store, &mut numbers)?;
        let [x, y, z] = samples;
        samples = [x.or_less(a), y.or_less(b), z.or_less(c)];
    }
    let [write, read, through] = samples;
    write.print(rt, "written through patches")?;
    read.print(rt, "read through patches")?;
    through.print(rt, "read through a store")
}
