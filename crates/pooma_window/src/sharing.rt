//! How several workers do the entries of one machine.
ghost use Rattle.std.specs.Prelude.{◌≡◌, ◌-◌, ◌<◌, ◌≤◌, [], All, IfOk, length};
ghost use Rattle.std.specs.List.{AllZip, range_with_len};
ghost use Rattle.pooma_machine.specs.Journal.{window_of};
ghost use Rattle.pooma_machine.specs.Values.{IsComplete};
ghost use Rattle.pooma_desk.specs.Tokens.{history_of, own_calls, plan_of};
ghost use Rattle.pooma_window.specs.Workers.{HasPass, IsShared, StaysSeated};

use crate::places::{Place, dealt, gathered};
use pooma_desk::{Desk, Pass};
use pooma_machine::{Machine, Work};
use pooma_worker::{Gate, Worked, work_loop};
use std::alloc::{AllocError, Global};
use std::sync::Wait;
use std::thread;
use std::thread::Threads;

/// Has so many workers, 1 to 64, do the entries of a machine until all are released; so far it was called at seat 0 alone. Each
/// worker has a pass of one desk before the machine, and a thread of its own where one can be made; there are no more of them
/// than entries. The gate is called before each work. It waits for the works. After want of memory the machine is given up.
pub fn share_out<W: Work + Send + Sync, R: Threads + Wait + Sync, G: Gate + Sync>(
    rt: &R,
    alloc: Global,
    workers: u32,
    gate: &G,
    machine: Machine<W>,
) -> Result<Machine<W>, AllocError>
where
    W::Value: Send + Sync,
    W::Outcome: Send,
    requires some { 0 < workers }
    requires few { workers ≤ 64 }
    requires seats { All (λ event. event.seat ≡ 0) machine.history }
    ensures plan { IfOk result (λ done. done.plan ≡ machine.plan) }
    ensures opening { IfOk result (λ done. done.opening ≡ machine.opening) }
    ensures shared { IfOk result (λ done. IsShared W.meaning workers done.plan (window_of W.meaning done.plan done.history)) }
{
    let workers = enough(workers, machine.issued());
    let Ok((desk, first)) = Desk::start(alloc, machine, workers) else {
        return Err(AllocError);
    };
    let pass = by_workers(rt, alloc, &desk, gate, first, workers)?;
    let _seat = pass.seat();
    let machine = desk.close(pass);
    let _legal = machine.history();
    Ok(machine)
}

// No more workers than entries, and one at least: a thread without an entry would only cost its start.
fn enough(workers: u32, entries: u32) -> u32
    requires { 0 < workers }
    ensures some { 0 < result }
    ensures no_more { result ≤ workers }
{
    workers.min(entries).max(1)
}

// Splits the first pass into so many, runs a loop with each and joins them. Where a loop was short of memory, the rest is done
// here, and the only error is that memory is wanting here too.
fn by_workers<W: Work + Send + Sync, R: Threads + Wait + Sync, G: Gate + Sync>(
    rt: &R,
    alloc: Global,
    desk: &Desk<W>,
    gate: &G,
    first: Pass<W>,
    workers: u32,
) -> Result<Pass<W>, AllocError>
where
    W::Value: Send + Sync,
    W::Outcome: Send,
    requires from { first.from ≡ desk.now }
    requires some { 0 < workers }
    requires seats { first.from.seats ≡ workers }
    requires seat { first.seat ≡ 0 }
    requires shares { first.shares ≡ workers }
    requires left { first.left ≡ range_with_len 1 (workers - 1) }
    requires quiet { own_calls first ≡ [] }
    ensures from { IfOk result (λ pass. pass.from ≡ first.from) }
    ensures shares { IfOk result (λ pass. pass.shares ≡ workers) }
    ensures plan { IfOk result (λ pass. plan_of pass ≡ first.from.machine.plan) }
    ensures complete { IfOk result (λ pass. IsComplete (plan_of pass) (history_of pass)) }
{
    let mut places = dealt(alloc, desk, first, workers)?;
    run_places(rt, alloc, desk, gate, places.as_mut_slice());
    let pass = gathered(desk, places);
    let Worked { pass, short } = work_loop(rt, alloc, desk, pass, gate);
    if short {
        return Err(AllocError);
    }
    let _seat = pass.seat();
    Ok(pass)
}

// Runs a loop with the pass at each place, in a thread of its own where one can be made.
fn run_places<W: Work + Send + Sync, R: Threads + Wait + Sync, G: Gate + Sync>(
    rt: &R,
    alloc: Global,
    desk: &Desk<W>,
    gate: &G,
    places: &mut [Place<W>],
)
where
    W::Value: Send + Sync,
    W::Outcome: Send,
    requires some { 0 < length places.old }
    requires passes { All (HasPass desk.now) places.old }
    ensures { AllZip (StaysSeated desk.now) places.old places.new }
{
    let threads = places.len();
    thread::for_each_mut(
        rt,
        places,
        threads,
        &|_, place: &mut Place<W>|
            requires { HasPass desk.now place.now }
            ensures { StaysSeated desk.entry.now place.entry.now place.exit.now }
        { place.run(rt, alloc, desk, gate) },
    );
}
