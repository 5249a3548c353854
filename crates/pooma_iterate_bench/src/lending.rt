//! Objects that a store lends and takes back.
ghost use Rattle.std.specs.Prelude.{◌≡◌, false, IfOk, OnOk};

use crate::sample::failed;
use pooma_domain::{Axis, BoxN, Cell};
use pooma_field::Shape;
use pooma_layout::Layout;
use pooma_store::Store;
use std::alloc::{AllocError, Global};
use std::io;
use std::time::{Clock, Duration, Instant};

// How many arrays there are. Each has 256 patches.
const ARRAYS: u32 = 256;

// How often it is timed; the least time counts.
const TURNS: usize = 7;

// A row of 256 cells in as many patches.
fn row(alloc: Global) -> Result<Layout, AllocError> {
    let none = Cell::of1(0);
    let domain = BoxN::of1(Axis {
        first: 0,
        last: 255,
    });
    Layout::grid(alloc, domain, &Cell::of1(256), &none, &none)
}

// One array of this layout more.
fn declare(alloc: Global, store: &mut Store, layout: Layout) -> io::Result<()>
    requires { store.old.lent ≡ false }
    ensures { store.new.lent ≡ false }
{
    let total = layout.total();
    let Some(shape) = Shape::of(layout.physical(), total, None) else {
        return Err(failed());
    };
    if store.arrays() >= 512 || total.count() > 4_194_304 {
        return Err(failed());
    }
    store.declare(alloc, shape, layout)?;
    Ok(())
}

fn rows(alloc: Global) -> io::Result<Store>
    ensures { IfOk result (λ store. store.lent ≡ false) }
{
    let mut store = Store::new(alloc);
    'arrays: for _ in 0..ARRAYS {
        declare(alloc, &mut store, row(alloc)?)?;
    }
    Ok(store)
}

// How long all objects take to be lent, and to be taken back.
fn timed<R: Clock>(rt: &R, store: &mut Store) -> io::Result<[Duration; 2]>
    requires { store.old.lent ≡ false }
    ensures { OnOk result (store.new.lent ≡ false) }
{
    let begun = Instant::now(rt)?;
    let patches = store.lend();
    let lent = Instant::now(rt)?;
    store.settle(patches);
    let settled = Instant::now(rt)?;
    Ok([lent.duration_since(begun), settled.duration_since(lent)])
}

/// Lends the 65,536 objects of a store of 256 arrays, and takes them back.
///
/// It writes how many objects there are in a line of standard output, and in two lines of standard error how many microseconds the
/// two took. The error is that of a write or of the clock, or want of memory.
pub fn report_lending<R: Clock + AllocGlobal + Print + Eprint>(rt: &R) -> io::Result<()> {
    let mut store = rows(rt.alloc())?;
    let [mut lend, mut settle] = timed(rt, &mut store)?;
    'turns: for _ in 1..TURNS {
        let [a, b] = timed(rt, &mut store)?;
        lend = lend.min(a);
        settle = settle.min(b);
    }
    println!(rt; "lent and taken back: {} objects", store.objects())?;
    let (lend, settle) = (lend.as_micros(), settle.as_micros());
    eprintln!(rt; "lent: {lend} microseconds")?;
    eprintln!(rt; "taken back: {settle} microseconds")
}
