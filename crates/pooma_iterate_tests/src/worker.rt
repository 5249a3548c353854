//! Work loops: one alone, and a few side by side.
ghost use Rattle.std.specs.Prelude.{◌≡◌, ◌+◌, ◌<◌, IfSome, length};

use crate::desk::{Adding, ask};
use crate::threads::{OBJECTS, sixteen};
use pooma_desk::{Desk, Pass};
use pooma_machine::Machine;
use pooma_worker::{Gate, NoGate, Worked, work_loop};
use std::alloc::Global;
use std::sync::atomic::{AtomicU64, Ordering};
use std::sync::{Arc, Wait};
use std::thread;
use std::thread::Threads;

// One write by a loop with the only pass: whether the loop was short, and whether all is released then.
fn alone<R: Wait>(rt: &R, alloc: Global) -> Option<(bool, bool)> {
    let mut values = Vec::new(alloc);
    values.push(Arc::new(alloc, 5u64).ok()?).ok()?;
    let machine: Machine<Adding> = Machine::new(alloc, values).ok()?;
    let (desk, pass) = Desk::start(alloc, machine, 1).ok()?;
    let (pass, _) = ask(rt, alloc, &desk, pass, 0)?;
    let Worked { pass, short } = work_loop(rt, alloc, &desk, pass, &NoGate);
    let machine = desk.close(pass);
    Some((short, machine.all_released()))
}

#[test]
fn a_loop_does_what_was_asked(rt: HostRuntime) {
    assert!(rt; alone(&rt, rt.alloc()) == Some((false, true)));
}

// A gate that counts how often it was called.
#[derive(Drop)]
struct Counting {
    calls: AtomicU64,
}

impl Gate for Counting {
    fn before(&self, _entry: u32) {
        self.calls.fetch_add(1, Ordering::SeqCst);
    }
}

// A loop with this pass. None where it was short.
fn one_loop<R: Wait>(
    rt: &R,
    alloc: Global,
    desk: &Desk<Adding>,
    pass: Pass<Adding>,
    gate: &Counting,
) -> Option<Pass<Adding>>
    requires { pass.from ≡ desk.now }
    ensures from { IfSome result (λ all. all.from ≡ pass.from) }
    ensures shares { IfSome result (λ all. all.shares ≡ pass.shares) }
{
    let Worked { pass, short } = work_loop(rt, alloc, desk, pass, gate);
    if short { None } else { Some(pass) }
}

// A loop in a thread of its own for each of two passes, which are joined then.
fn two_loops<R: Threads + Wait + Sync>(
    rt: &R,
    alloc: Global,
    desk: &Desk<Adding>,
    one: Pass<Adding>,
    other: Pass<Adding>,
    gate: &Counting,
) -> Option<Pass<Adding>>
    requires one { one.from ≡ desk.now }
    requires other { other.from ≡ desk.now }
    ensures from { IfSome result (λ all. all.from ≡ one.from) }
    ensures shares { IfSome result (λ all. all.shares ≡ one.shares + other.shares) }
{
    let (one, other) = thread::join(
        rt,
        move ||
            requires { one.from ≡ desk.now }
            ensures { IfSome result (λ all. (all.from ≡ one.from) × (all.shares ≡ one.shares)) }
        { one_loop(rt, alloc, desk, one, gate) },
        move ||
            requires { other.from ≡ desk.now }
            ensures { IfSome result (λ all. (all.from ≡ other.from) × (all.shares ≡ other.shares)) }
        { one_loop(rt, alloc, desk, other, gate) },
    );
    let (Some(one), Some(other)) = (one, other) else {
        return None;
    };
    Some(desk.join(one, other))
}

// Requests so many writes of each object.
fn ask_all<R: Wait>(
    rt: &R,
    alloc: Global,
    desk: &Desk<Adding>,
    pass: Pass<Adding>,
    rounds: u32,
) -> Option<Pass<Adding>>
    requires from { pass.from ≡ desk.now }
    requires there { length pass.from.machine.opening ≡ OBJECTS }
    requires few { rounds < 10000 }
    ensures from { IfSome result (λ all. all.from ≡ pass.from) }
    ensures shares { IfSome result (λ all. all.shares ≡ pass.shares) }
    ensures left { IfSome result (λ all. all.left ≡ pass.left) }
{
    let mut pass = pass;
    for k in 0..rounds * OBJECTS {
        let (asked, _) = ask(rt, alloc, desk, pass, k % OBJECTS)?;
        pass = asked;
    }
    Some(pass)
}

// So many writes of each object by two loops: how often the gate was called, and the first object that has another number
// than so many. None where a loop was short or something is unreleased.
fn by_two<R: Threads + Wait + Sync>(
    rt: &R,
    alloc: Global,
    rounds: u32,
) -> Option<(u64, Option<u64>)>
    requires { rounds < 10000 }
{
    let gate = Counting {
        calls: AtomicU64::new(0),
    };
    let (desk, pass) = Desk::start(alloc, sixteen(alloc)?, 2).ok()?;
    let pass = ask_all(rt, alloc, &desk, pass, rounds)?;
    let (one, other) = desk.split(pass);
    let pass = two_loops(rt, alloc, &desk, one, other, &gate)?;
    let machine = desk.close(pass);
    if !machine.all_released() {
        return None;
    }
    let objects = machine.finish(alloc).ok()?;
    let other = objects
        .iter()
        .map(|object| **object)
        .find(|number| *number != u64::from(rounds));
    Some((gate.calls.load(Ordering::SeqCst), other))
}

#[test]
fn two_loops_do_each_entry_once(rt: HostRuntime) {
    assert!(rt; by_two(&rt, rt.alloc(), 300) == Some((4800, None)));
}
