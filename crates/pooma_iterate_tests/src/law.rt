ghost use Rattle.std.specs.Prelude.{◌≡◌, ◌≢◌, ◌<◌, ◌++◌, ◌∷◌, [], IfSome, length, map};
ghost use Rattle.std.specs.Arc.{arc_value};
ghost use Rattle.pooma_queue.specs.declared.queue.Mode.TheVariants.{Read, Write};

use pooma_law::{legal_histories_agree, legal_histories_grow, values_stay};
use pooma_machine::{Machine, Mode, Request, Work};
use std::alloc::{AllocError, Global};
use std::slice;
use std::sync::Arc;

// A work over one number: it doubles the number that it writes and adds one, and answers the one that it reads.
#[derive(Drop)]
struct Doubling {
    asks: Request,
}

impl Work for Doubling {
    type Value = u64;

    type Outcome = u64;

    type Content = u64;

    type Shape = ();

    ghost use Rattle.std.specs.Prelude.{◌+◌, ◌*◌, ◌%◌, ◌^◌, ◌∷◌, [], unwrap_or, slice_get, true};

    ghost content = { λ v. v };

    ghost ready = { λ v. true };

    ghost meaning = { record { statement = λ w. 0; requests = λ w. w.asks ∷ []; new_value = λ w v rs. ((2 * v) % 2 ^ 64 + 1) % 2 ^ 64; outcome = λ w v rs. unwrap_or (slice_get rs 0) 0; shape = λ v. tt; fits = λ w s rs. true } };

    fn requests(&self) -> &[Request] {
        slice::from_ref(&self.asks)
    }

    fn statement(&self) -> u32 {
        0
    }

    fn perform(&self, write: Option<&mut u64>, reads: &[Arc<u64>]) -> u64 {
        let seen = match reads.first() {
            Some(value) => **value,
            None => 0,
        };
        if let Some(value) = write {
            *value = 2u64.wrapping_mul(*value).wrapping_add(1);
        }
        seen
    }

    fn copied(_alloc: Global, value: &u64) -> Result<u64, AllocError> {
        Ok(*value)
    }

    fn prepared(_alloc: Global, _value: &mut u64) -> Result<(), AllocError> {
        Ok(())
    }
}

// Requests an entry over one object.
fn ask(alloc: Global, machine: &mut Machine<Doubling>, object: u32, mode: Mode) -> Option<u32>
    requires there { object < length machine.old.opening }
    requires few { length machine.old.plan < 100 }
    ensures plan { IfSome result (λ entry. machine.new.plan ≡ machine.old.plan ++ (record { asks = record { object = object; mode = mode } }) ∷ []) }
    ensures opening { machine.new.opening ≡ machine.old.opening }
{
    let asks = Request { object, mode };
    let work = Arc::new(alloc, Doubling { asks }).ok()?;
    machine.request(alloc, 0, work).ok()
}

// A machine over the numbers 5 and 7.
fn opened(alloc: Global) -> Option<Machine<Doubling>>
    ensures plan { IfSome result (λ machine. machine.plan ≡ []) }
    ensures opening { IfSome result (λ machine. machine.opening ≡ 5 ∷ 7 ∷ []) }
{
    let mut values = Vec::new(alloc);
    values.push(Arc::new(alloc, 5u64).ok()?).ok()?;
    values.push(Arc::new(alloc, 7u64).ok()?).ok()?;
    Machine::new(alloc, values).ok()
}

// The same, whose first number is written and read, and then the second.
fn asked(alloc: Global) -> Option<Machine<Doubling>>
    ensures plan { IfSome result (λ machine. machine.plan ≡ map (λ asks. record { asks = asks })
        ((record { object = 0; mode = Write }) ∷ (record { object = 0; mode = Read }) ∷ (record { object = 1; mode = Write }) ∷ (record { object = 1; mode = Read }) ∷ [])) }
    ensures opening { IfSome result (λ machine. machine.opening ≡ 5 ∷ 7 ∷ []) }
{
    let mut machine = opened(alloc)?;
    ask(alloc, &mut machine, 0, Mode::Write)?;
    ask(alloc, &mut machine, 0, Mode::Read)?;
    ask(alloc, &mut machine, 1, Mode::Write)?;
    ask(alloc, &mut machine, 1, Mode::Read)?;
    Some(machine)
}

// Dispatches two entries, and then does and releases them in the other order. None where one of them is not dispatched.
fn run_both(alloc: Global, machine: &mut Machine<Doubling>, first: u32, second: u32) -> Option<()>
    requires there { (first < length machine.old.plan) × (second < length machine.old.plan) }
    requires two { first ≢ second }
    ensures plan { machine.new.plan ≡ machine.old.plan }
    ensures opening { machine.new.opening ≡ machine.old.opening }
{
    legal_histories_grow::<Doubling>();
    values_stay::<Doubling>();
    let Ok(one) = machine.dispatch(alloc, 0, first) else {
        return None;
    };
    let Ok(other) = machine.dispatch(alloc, 0, second) else {
        return None;
    };
    machine.release(0, other.perform());
    let _ = machine.history();
    machine.release(0, one.perform());
    Some(())
}

// That machine after these two entries were run, and then those behind them.
fn run_in_pairs(alloc: Global, first: u32, second: u32) -> Option<Machine<Doubling>>
    requires there { (first < 3) × (second < 3) }
    requires two { first ≢ second }
    ensures plan { IfSome result (λ machine. machine.plan ≡ map (λ asks. record { asks = asks })
        ((record { object = 0; mode = Write }) ∷ (record { object = 0; mode = Read }) ∷ (record { object = 1; mode = Write }) ∷ (record { object = 1; mode = Read }) ∷ [])) }
    ensures opening { IfSome result (λ machine. machine.opening ≡ 5 ∷ 7 ∷ []) }
{
    let mut machine = asked(alloc)?;
    run_both(alloc, &mut machine, first, second)?;
    run_both(alloc, &mut machine, first + 1, second + 1)?;
    Some(machine)
}

// What two machines of the same works have in the end is the same.
fn finished(
    alloc: Global,
    one: Machine<Doubling>,
    other: Machine<Doubling>,
) -> Option<(Vec<Arc<u64>>, Vec<Arc<u64>>)>
    requires plan { one.plan ≡ other.plan }
    requires opening { one.opening ≡ other.opening }
    ensures { IfSome result (λ pair. map arc_value pair.0.items ≡ map arc_value pair.1.items) }
{
    legal_histories_agree::<Doubling>();
    if !one.all_released() || !other.all_released() {
        return None;
    }
    let _ = one.history();
    let _ = other.history();
    Some((one.finish(alloc).ok()?, other.finish(alloc).ok()?))
}

// The two numbers.
fn two(objects: &[Arc<u64>]) -> Option<[u64; 2]> {
    match objects {
        [one, other] => Some([**one, **other]),
        _ => None,
    }
}

// What both machines have in the end, when the pairs are run in one order and in the other.
fn both_ends(alloc: Global) -> Option<[Option<[u64; 2]>; 2]> {
    let one = run_in_pairs(alloc, 0, 2)?;
    let other = run_in_pairs(alloc, 2, 0)?;
    let (one, other) = finished(alloc, one, other)?;
    Some([two(&one), two(&other)])
}

// The outcomes of both reads.
fn outcomes(alloc: Global, first: u32, second: u32) -> Option<[Option<u64>; 2]>
    requires there { (first < 3) × (second < 3) }
    requires two { first ≢ second }
{
    let machine = run_in_pairs(alloc, first, second)?;
    Some([machine.outcome(1).copied(), machine.outcome(3).copied()])
}

#[test]
fn two_orders_leave_the_same(rt: HostRuntime) {
    let seen = Some([Some(11), Some(15)]);
    assert!(rt; outcomes(rt.alloc(), 0, 2) == seen);
    assert!(rt; outcomes(rt.alloc(), 2, 0) == seen);
    assert!(rt; both_ends(rt.alloc()) == Some([Some([11, 15]), Some([11, 15])]));
}
