//! Machines whose entries several workers share.
ghost use Rattle.std.specs.Prelude.{◌≡◌, ◌<◌, ◌≤◌, ◌+◌, ◌^◌, All, IfSome, length};

use crate::desk::Adding;
use pooma_machine::{Machine, Mode, Request};
use pooma_window::share_out;
use pooma_worker::Gate;
use std::alloc::Global;
use std::sync::atomic::{AtomicU64, Ordering};
use std::sync::{Arc, Wait};
use std::thread::Threads;

// How often a gate looks for the other before it gives up.
const LIMIT: u32 = 200_000_000;

// A gate at which the two entries 0 and 1 wait for one another, and which notes where one gave up.
#[derive(Drop)]
struct Meeting {
    came: [AtomicU64; 2],
    missed: AtomicU64,
}

impl Gate for Meeting {
    fn before(&self, entry: u32) {
        if entry > 1 {
            return;
        }
        self.came[entry as usize].store(1, Ordering::SeqCst);
        for _ in 0..LIMIT {
            if self.came[1 - entry as usize].load(Ordering::SeqCst) == 1 {
                return;
            }
        }
        self.missed.store(1, Ordering::SeqCst);
    }
}

impl Meeting {
    // Whether both entries came, and neither gave up.
    fn met(&self) -> bool {
        let [first, second] = &self.came;
        let came = [first.load(Ordering::SeqCst), second.load(Ordering::SeqCst)];
        came == [1, 1] && self.missed.load(Ordering::SeqCst) == 0
    }
}

// A machine of two objects that are 0, with a write of each asked for.
fn two_writes(alloc: Global) -> Option<Machine<Adding>>
    ensures { IfSome result (λ machine. All (λ event. event.seat ≡ 0) machine.history) }
{
    let mut values = Vec::new(alloc);
    values.push(Arc::new(alloc, 0u64).ok()?).ok()?;
    values.push(Arc::new(alloc, 0u64).ok()?).ok()?;
    let mut machine = Machine::new(alloc, values).ok()?;
    ask_write(alloc, &mut machine, 0)?;
    ask_write(alloc, &mut machine, 1)?;
    Some(machine)
}

// Requests a write of the object.
fn ask_write(alloc: Global, machine: &mut Machine<Adding>, object: u32) -> Option<u32>
    requires there { object < length machine.old.opening }
    requires fewer { length machine.old.plan + 1 < 2 ^ 32 }
    requires seats { All (λ event. event.seat ≡ 0) machine.old.history }
    ensures opening { machine.new.opening ≡ machine.old.opening }
    ensures plan { IfSome result (λ entry. length machine.new.plan ≡ length machine.old.plan + 1) }
    ensures seats { IfSome result (λ entry. All (λ event. event.seat ≡ 0) machine.new.history) }
{
    let mode = Mode::Write;
    let asks = Request { object, mode };
    let work = Arc::new(alloc, Adding { asks }).ok()?;
    machine.request(alloc, 0, work).ok()
}

// Two writes by so many workers whose works meet: whether both came to the gate and met, and what the objects are then. None
// where memory was short.
fn meet<R: Threads + Wait + Sync>(rt: &R, alloc: Global, workers: u32) -> Option<(bool, [u64; 2])>
    requires some { 0 < workers }
    requires few { workers ≤ 64 }
{
    let gate = Meeting {
        came: [AtomicU64::new(0), AtomicU64::new(0)],
        missed: AtomicU64::new(0),
    };
    let machine = share_out(rt, alloc, workers, &gate, two_writes(alloc)?).ok()?;
    if !machine.all_released() {
        return None;
    }
    let objects = machine.finish(alloc).ok()?;
    let [first, second] = objects.as_slice() else {
        return None;
    };
    Some((gate.met(), [**first, **second]))
}

#[test]
fn the_works_of_two_workers_meet(rt: HostRuntime) {
    assert!(rt; meet(&rt, rt.alloc(), 2) == Some((true, [1, 1])));
}

#[test]
fn the_works_of_two_meet_where_64_are_asked_for(rt: HostRuntime) {
    assert!(rt; meet(&rt, rt.alloc(), 64) == Some((true, [1, 1])));
}
