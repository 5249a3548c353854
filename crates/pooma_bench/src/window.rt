ghost use Rattle.std.specs.Prelude.{◌≡◌, ◌+◌, ◌<◌, ◌≤◌, ◌^◌, IfOk, OnOk, length, map, sum};
ghost use Rattle.std.specs.Arc.{arc_value};
ghost use Rattle.pooma_bench.specs.Windows.{IsFresh, HasReleased};

use crate::increment::Increment;
use pooma_machine::Machine;
use std::alloc::{AllocError, Global};
use std::sync::Arc;

/// How many objects a window is over.
pub const OBJECTS: u32 = 256;

/// How many entries a window has at the most.
pub const MOST_ENTRIES: u32 = 100_000;

// The seat of all events.
const SEAT: u32 = 0;

/// A machine of no entries whose objects are all 0.
pub fn opened(alloc: Global) -> Result<Machine<Increment>, AllocError>
    ensures { IfOk result IsFresh }
{
    let mut values = Vec::new(alloc);
    for _ in 0..OBJECTS {
        values.push(Arc::new(alloc, 0u64)?)?;
    }
    match Machine::new(alloc, values) {
        Ok(machine) => Ok(machine),
        Err(_) => Err(AllocError),
    }
}

/// Requests so many entries, each of which adds one to an object.
pub fn request_all(
    alloc: Global,
    machine: &mut Machine<Increment>,
    entries: u32,
) -> Result<(), AllocError>
    requires fresh { IsFresh machine.old }
    requires limit { entries ≤ MOST_ENTRIES }
    ensures { OnOk result (HasReleased machine.new entries 0) }
{
    for entry in 0..entries {
        let work = Arc::new(alloc, Increment::of_entry(entry))?;
        if machine.request(alloc, SEAT, work).is_err() {
            return Err(AllocError);
        }
    }
    Ok(())
}

/// Dispatches, performs and releases one entry after another, until none is left.
pub fn run_all(alloc: Global, machine: &mut Machine<Increment>) -> Result<(), AllocError>
    requires { HasReleased machine.old (length machine.old.plan) 0 }
    ensures { OnOk result (HasReleased machine.new (length machine.old.plan) (length machine.old.plan)) }
{
    while let Some(entry) = machine.ready_from(0) {
        run_one(alloc, machine, entry)?;
    }
    Ok(())
}

// Dispatches, performs and releases the least entry that is left.
fn run_one(alloc: Global, machine: &mut Machine<Increment>, entry: u32) -> Result<(), AllocError>
    requires left { HasReleased machine.old (length machine.old.plan) entry }
    requires within { entry < length machine.old.plan }
    ensures { OnOk result (HasReleased machine.new (length machine.old.plan) (entry + 1)) }
{
    let Ok(loan) = machine.dispatch(alloc, SEAT, entry) else {
        return Err(AllocError);
    };
    machine.release(SEAT, loan.perform());
    Ok(())
}

/// The sum of the objects' values.
pub fn sum_of(objects: &[Arc<u64>]) -> u64
    requires { sum (map arc_value objects.now) < 2 ^ 64 }
    ensures { result ≡ sum (map arc_value objects.now) }
{
    objects.iter().map(|value| **value).sum()
}
