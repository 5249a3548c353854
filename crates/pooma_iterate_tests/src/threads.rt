//! Threads that go through one desk at the same time.
ghost use Rattle.std.specs.Prelude.{◌≡◌, ◌+◌, ◌<◌, ◌≤◌, IfSome, length};
ghost use Rattle.std.specs.Thread.{IsSync};
ghost use Rattle.pooma_desk.specs.Tokens.{IsSamePass};

use crate::desk::{Adding, ask};
use pooma_desk::{Desk, Pass};
use pooma_machine::{DispatchError, Machine};
use std::alloc::Global;
use std::sync::{Arc, Wait};
use std::thread;
use std::thread::Threads;

// How many objects there are.
pub(crate) const OBJECTS: u32 = 16;

// Dispatches, performs and releases the entry, where nothing holds it back. Whether nothing did.
fn try_once<R: Wait>(
    rt: &R,
    alloc: Global,
    desk: &Desk<Adding>,
    pass: Pass<Adding>,
    j: u32,
) -> Option<(Pass<Adding>, bool)>
    requires from { pass.from ≡ desk.now }
    ensures same { IfSome result (λ r. IsSamePass pass r.0) }
{
    let (pass, seen) = desk.look(rt, pass, 0);
    if j >= seen.issued {
        return None;
    }
    let (pass, answer) = desk.dispatch(rt, alloc, pass, j);
    match answer {
        Ok(loan) => {
            let (pass, _) = desk.release(rt, pass, loan.perform());
            Some((pass, true))
        }
        Err(DispatchError::NotReady { .. }) => Some((pass, false)),
        Err(_) => None,
    }
}

// Does the entry once nothing holds it back.
fn when_ready<R: Wait>(
    rt: &R,
    alloc: Global,
    desk: &Desk<Adding>,
    pass: Pass<Adding>,
    j: u32,
) -> Option<Pass<Adding>>
    requires from { pass.from ≡ desk.now }
    ensures same { IfSome result (λ next. IsSamePass pass next) }
{
    let mut pass = pass;
    for _ in rt.forever() {
        let (next, done) = try_once(rt, alloc, desk, pass, j)?;
        if done {
            return Some(next);
        }
        pass = next;
        thread::yield_now();
    }
    unreachable!()
}

// Requests a write of the object, and does it once nothing holds it back.
fn one_round<R: Wait>(
    rt: &R,
    alloc: Global,
    desk: &Desk<Adding>,
    pass: Pass<Adding>,
    object: u32,
) -> Option<Pass<Adding>>
    requires from { pass.from ≡ desk.now }
    requires there { object < length pass.from.machine.opening }
    ensures same { IfSome result (λ next. IsSamePass pass next) }
{
    let (pass, entry) = ask(rt, alloc, desk, pass, object)?;
    when_ready(rt, alloc, desk, pass, entry)
}

// So many rounds over the objects, beginning with that of the pass's own seat.
fn rounds<R: Wait>(
    rt: &R,
    alloc: Global,
    desk: &Desk<Adding>,
    pass: Pass<Adding>,
    count: u32,
) -> Option<Pass<Adding>>
    requires from { pass.from ≡ desk.now }
    requires there { length pass.from.machine.opening ≡ OBJECTS }
    requires few { count < 10000 }
    ensures same { IfSome result (λ next. IsSamePass pass next) }
{
    let first = pass.seat() % OBJECTS;
    let mut pass = pass;
    for k in 0..count {
        pass = one_round(rt, alloc, desk, pass, (first + k) % OBJECTS)?;
    }
    Some(pass)
}

// Splits so many passes off, each of which goes through its rounds in a thread of its own, as the pass itself does in this
// one. Then all are joined into it.
#[cycle(together)]
fn together<R: Threads + Wait + Sync>(
    rt: &R,
    alloc: Global,
    desk: &Desk<Adding>,
    pass: Pass<Adding>,
    others: u32,
    count: u32,
) -> Option<Pass<Adding>>
    requires from { pass.from ≡ desk.now }
    requires there { length pass.from.machine.opening ≡ OBJECTS }
    requires few { count < 10000 }
    requires left { others ≤ length pass.left }
    requires shares { others < pass.shares }
    ensures from { IfSome result (λ all. all.from ≡ pass.from) }
    ensures shares { IfSome result (λ all. all.shares ≡ pass.shares) }
{
    if others == 0 {
        return rounds(rt, alloc, desk, pass, count);
    }
    let (pass, other) = desk.split(pass);
    let (other, pass) = thread::join(
        rt,
        move ||
            requires { (other.from ≡ desk.now) × (length other.from.machine.opening ≡ OBJECTS) × (count < 10000) }
            ensures { IfSome result (λ all. (all.from ≡ other.from) × (all.shares ≡ other.shares)) }
        { rounds(rt, alloc, desk, other, count) },
        move ||
            requires { IsSync R.row × (pass.from ≡ desk.now) × (length pass.from.machine.opening ≡ OBJECTS) × (count < 10000) × (0 < others) × (others ≤ length pass.left + 1) × (others < pass.shares + 1) }
            ensures { IfSome result (λ all. (all.from ≡ pass.from) × (all.shares ≡ pass.shares)) }
        { together(rt, alloc, desk, pass, others - 1, count) },
    );
    let (Some(other), Some(pass)) = (other, pass) else {
        return None;
    };
    Some(desk.join(pass, other))
}

// A machine of 16 objects, each of which is 0.
pub(crate) fn sixteen(alloc: Global) -> Option<Machine<Adding>>
    ensures { IfSome result (λ machine. length machine.opening ≡ OBJECTS) }
{
    let mut values = Vec::new(alloc);
    for _ in 0..OBJECTS {
        values.push(Arc::new(alloc, 0u64).ok()?).ok()?;
    }
    Machine::new(alloc, values).ok()
}

// The machine after eight threads did so many rounds each.
fn by_eight<R: Threads + Wait + Sync>(rt: &R, alloc: Global, count: u32) -> Option<Machine<Adding>>
    requires { count < 10000 }
{
    let (desk, pass) = Desk::start(alloc, sixteen(alloc)?, 8).ok()?;
    let pass = together(rt, alloc, &desk, pass, 7, count)?;
    Some(desk.close(pass))
}

// How many entries there are then, how many objects, and the first of these that has another number. None where not all
// entries were released.
fn ends<R: Threads + Wait + Sync>(
    rt: &R,
    alloc: Global,
    count: u32,
    number: u64,
) -> Option<(u32, usize, Option<u64>)>
    requires { count < 10000 }
{
    let machine = by_eight(rt, alloc, count)?;
    let entries = machine.issued();
    if !machine.all_released() {
        return None;
    }
    let objects = machine.finish(alloc).ok()?;
    let mut other = None;
    for object in &objects {
        if **object != number {
            other = Some(**object);
        }
    }
    Some((entries, objects.len(), other))
}

#[test]
fn eight_threads_go_through_one_desk(rt: HostRuntime) {
    assert_eq!(rt; ends(&rt, rt.alloc(), 2000, 1000), Some((16_000, 16, None)));
}
