ghost use Rattle.std.specs.Prelude.{◌≡◌, ◌<◌, [], IfSome, length};
ghost use Rattle.pooma_desk.specs.Tokens.{IsSamePass};

use pooma_desk::{Desk, Look, Pass};
use pooma_machine::{DispatchError, Event, EventKind, Machine, Mode, Request, Work};
use std::alloc::{AllocError, Global};
use std::slice;
use std::sync::{Arc, Wait};

// A work that adds one to the number of an object.
#[derive(Drop)]
pub(crate) struct Adding {
    pub(crate) asks: Request,
}

impl Work for Adding {
    type Value = u64;

    type Outcome = ();

    type Content = u64;

    type Shape = ();

    ghost use Rattle.std.specs.Prelude.{◌+◌, ◌%◌, ◌^◌, ◌∷◌, [], true};

    ghost content = { λ v. v };

    ghost ready = { λ v. true };

    ghost meaning = { record { statement = λ w. 0; requests = λ w. w.asks ∷ []; new_value = λ w v rs. (v + 1) % 2 ^ 64; outcome = λ w v rs. tt; shape = λ v. tt; fits = λ w s rs. true } };

    fn requests(&self) -> &[Request] {
        slice::from_ref(&self.asks)
    }

    fn statement(&self) -> u32 {
        0
    }

    fn perform(&self, write: Option<&mut u64>, _reads: &[Arc<u64>]) {
        if let Some(value) = write {
            *value = value.wrapping_add(1);
        }
    }

    fn copied(_alloc: Global, value: &u64) -> Result<u64, AllocError> {
        Ok(*value)
    }

    fn prepared(_alloc: Global, _value: &mut u64) -> Result<(), AllocError> {
        Ok(())
    }
}

// A machine of two objects.
fn two_objects(alloc: Global) -> Option<Machine<Adding>>
    ensures plan { IfSome result (λ machine. machine.plan ≡ []) }
    ensures opening { IfSome result (λ machine. length machine.opening ≡ 2) }
{
    let mut values = Vec::new(alloc);
    values.push(Arc::new(alloc, 5u64).ok()?).ok()?;
    values.push(Arc::new(alloc, 7u64).ok()?).ok()?;
    Machine::new(alloc, values).ok()
}

/// Requests a write of the object.
pub(crate) fn ask<R: Wait>(
    rt: &R,
    alloc: Global,
    desk: &Desk<Adding>,
    pass: Pass<Adding>,
    object: u32,
) -> Option<(Pass<Adding>, u32)>
    requires from { pass.from ≡ desk.now }
    requires there { object < length pass.from.machine.opening }
    ensures same { IfSome result (λ r. IsSamePass pass r.0) }
{
    let mode = Mode::Write;
    let asks = Request { object, mode };
    let work = Arc::new(alloc, Adding { asks }).ok()?;
    let (pass, answer) = desk.request(rt, alloc, pass, work);
    Some((pass, answer.ok()?))
}

// Dispatches, performs and releases the entry, and says how many became ready by it. None where it is not dispatched.
fn go<R: Wait>(
    rt: &R,
    alloc: Global,
    desk: &Desk<Adding>,
    pass: Pass<Adding>,
    j: u32,
) -> Option<(Pass<Adding>, usize)>
    requires from { pass.from ≡ desk.now }
    ensures same { IfSome result (λ r. IsSamePass pass r.0) }
{
    let (pass, seen) = desk.look(rt, pass, 0);
    if j >= seen.issued {
        return None;
    }
    let (pass, answer) = desk.dispatch(rt, alloc, pass, j);
    let (pass, became) = desk.release(rt, pass, answer.ok()?.perform());
    Some((pass, became.entries().len()))
}

// A desk of two seats before that machine.
fn opened(alloc: Global) -> Option<(Desk<Adding>, Pass<Adding>)>
    ensures from { IfSome result (λ r. r.1.from ≡ r.0) }
    ensures shares { IfSome result (λ r. (r.1.shares ≡ 2) × (r.0.seats ≡ 2)) }
    ensures left { IfSome result (λ r. length r.1.left ≡ 1) }
    ensures objects { IfSome result (λ r. length r.0.machine.opening ≡ 2) }
{
    Desk::start(alloc, two_objects(alloc)?, 2).ok()
}

// A write by one of two passes, which are joined then.
fn one_write<R: Wait>(rt: &R, alloc: Global) -> Option<Machine<Adding>> {
    let (desk, pass) = opened(alloc)?;
    let (one, other) = desk.split(pass);
    let (one, entry) = ask(rt, alloc, &desk, one, 0)?;
    let (one, _) = go(rt, alloc, &desk, one, entry)?;
    let pass = desk.join(one, other);
    Some(desk.close(pass))
}

// The events of that write.
const EVENTS: &[Event] = &[
    Event {
        kind: EventKind::Request,
        entry: 0,
        seat: 0,
    },
    Event {
        kind: EventKind::Dispatch,
        entry: 0,
        seat: 0,
    },
    Event {
        kind: EventKind::Release,
        entry: 0,
        seat: 0,
    },
];

#[test]
fn a_desk_keeps_the_calls_of_its_passes(rt: HostRuntime) {
    let is_kept = match one_write(&rt, rt.alloc()) {
        Some(machine) => machine.history() == EVENTS,
        None => false,
    };
    assert!(rt; is_kept);
}

// What a call of `dispatch` answered, without the loan. None where the entry is not issued.
fn refusal<R: Wait>(
    rt: &R,
    alloc: Global,
    desk: &Desk<Adding>,
    pass: Pass<Adding>,
    j: u32,
) -> Option<(Pass<Adding>, Option<DispatchError>)>
    requires from { pass.from ≡ desk.now }
    ensures same { IfSome result (λ r. IsSamePass pass r.0) }
{
    let (pass, seen) = desk.look(rt, pass, 0);
    if j >= seen.issued {
        return None;
    }
    let (pass, answer) = desk.dispatch(rt, alloc, pass, j);
    Some((pass, answer.err()))
}

// Two passes of a desk of two writes of one object, of which one was split off.
fn two_asked<R: Wait>(
    rt: &R,
    alloc: Global,
) -> Option<(Desk<Adding>, [u32; 2], Pass<Adding>, Pass<Adding>)>
    ensures one { IfSome result (λ r. r.2.from ≡ r.0) }
    ensures other { IfSome result (λ r. r.3.from ≡ r.0) }
{
    let (desk, pass) = opened(alloc)?;
    let (pass, first) = ask(rt, alloc, &desk, pass, 0)?;
    let (pass, second) = ask(rt, alloc, &desk, pass, 0)?;
    let (one, other) = desk.split(pass);
    Some((desk, [first, second], one, other))
}

// What the other pass is told of the second write while the first waits and once it was released, how many entries that
// release makes ready, and what both passes see then.
fn two_writes<R: Wait>(
    rt: &R,
    alloc: Global,
) -> Option<([Option<DispatchError>; 2], usize, [Look; 2])> {
    let (desk, [first, second], one, other) = two_asked(rt, alloc)?;
    let (other, refused) = refusal(rt, alloc, &desk, other, second)?;
    let (one, became) = go(rt, alloc, &desk, one, first)?;
    let (_, seen) = desk.look(rt, one, 0);
    let (other, too) = desk.look(rt, other, 0);
    let (_, answer) = refusal(rt, alloc, &desk, other, second)?;
    Some(([refused, answer], became, [seen, too]))
}

#[test]
fn a_pass_sees_what_another_did(rt: HostRuntime) {
    let held = DispatchError::NotReady { object: 0, by: 0 };
    let ready = Look {
        ready: Some(1),
        issued: 2,
        all_released: false,
    };
    let found = ([Some(held), None], 1, [ready, ready]);
    assert!(rt; two_writes(&rt, rt.alloc()) == Some(found));
}
