ghost use Rattle.std.specs.Prelude.{◌≡◌, ◌+◌, ◌<◌, [], ◌∷◌, IfSome, length, map, true};
ghost use Rattle.std.specs.Arc.{arc_value};

use pooma_machine::{Machine, Mode, Request, Work};
use std::alloc::{AllocError, Global};
use std::slice;
use std::sync::Arc;

// A number of some unit, which can be written once it is unfolded.
#[derive(Drop)]
struct Amount {
    unit: u32,
    number: u64,
    folded: bool,
}

// A work over one amount of its unit: it answers the number, and whether the amount is unfolded where it writes, and doubles
// what it writes.
#[derive(Drop)]
struct Double {
    unit: u32,
    asks: Request,
}

impl Work for Double {
    type Value = Amount;

    type Outcome = (u64, bool);

    type Content = (u32, u64);

    type Shape = u32;

    ghost use Rattle.std.specs.Prelude.{◌*◌, ◌%◌, ◌^◌, ◌==◌, ◌∷◌, [], not, Some, is_some, option_map, unwrap_or, slice_get};

    ghost content = { λ amount. (amount.unit, amount.number) };

    ghost ready = { λ amount. not amount.folded };

    ghost meaning = { record { statement = λ work. 0; requests = λ work. work.asks ∷ []; new_value = λ work old reads. (old.0, old.1 * 2 % 2 ^ 64); outcome = λ work written reads. (unwrap_or (option_map (λ old. old.1) written) (unwrap_or (option_map (λ read. read.1) (slice_get reads 0)) 0), is_some written); shape = λ content. content.0; fits = λ work written reads. unwrap_or written (unwrap_or (slice_get reads 0) 0) == work.unit } };

    fn requests(&self) -> &[Request] {
        slice::from_ref(&self.asks)
    }

    fn statement(&self) -> u32 {
        0
    }

    fn perform(&self, write: Option<&mut Amount>, reads: &[Arc<Amount>]) -> (u64, bool) {
        match write {
            Some(amount) => {
                let seen = amount.number;
                amount.number = seen.wrapping_mul(2);
                (seen, !amount.folded)
            }
            None => match reads.first() {
                Some(amount) => (amount.number, false),
                None => (0, false),
            },
        }
    }

    fn copied(_alloc: Global, amount: &Amount) -> Result<Amount, AllocError> {
        Ok(Amount {
            unit: amount.unit,
            number: amount.number,
            folded: amount.folded,
        })
    }

    fn prepared(_alloc: Global, amount: &mut Amount) -> Result<(), AllocError> {
        amount.folded = false;
        Ok(())
    }
}

// A machine of one amount.
fn opened(alloc: Global, amount: Arc<Amount>) -> Option<Machine<Double>>
    ensures plan { IfSome result (λ machine. length machine.plan ≡ 0) }
    ensures opening { IfSome result (λ machine. machine.opening ≡ ((arc_value amount).unit, (arc_value amount).number) ∷ []) }
{
    let mut amounts = Vec::new(alloc);
    amounts.push(amount).ok()?;
    Machine::new(alloc, amounts).ok()
}

// Requests, dispatches, performs and releases an entry over the machine's amount, which has this unit. Answers its number.
fn run(alloc: Global, machine: &mut Machine<Double>, unit: u32, mode: Mode) -> Option<u32>
    requires unit { map (λ amount. amount.0) machine.old.opening ≡ unit ∷ [] }
    requires few { length machine.old.plan < 100 }
    ensures plan { IfSome result (λ entry. length machine.new.plan ≡ length machine.old.plan + 1) }
    ensures opening { machine.new.opening ≡ machine.old.opening }
{
    let asks = Request { object: 0, mode };
    let work = Arc::new(alloc, Double { unit, asks }).ok()?;
    let entry = machine.request(alloc, 0, work).ok()?;
    let loan = machine.dispatch(alloc, 0, entry).ok()?;
    machine.release(0, loan.perform());
    Some(entry)
}

fn folded(alloc: Global) -> Option<Arc<Amount>>
    ensures { IfSome result (λ amount. arc_value amount ≡ record { unit = 3; number = 7; folded = true }) }
{
    let amount = Amount {
        unit: 3,
        number: 7,
        folded: true,
    };
    Arc::new(alloc, amount).ok()
}

// The amount's number and whether it is folded, when all was released.
fn end(alloc: Global, machine: Machine<Double>) -> Option<(u64, bool)> {
    if !machine.all_released() {
        return None;
    }
    match machine.finish(alloc).ok()?.as_slice() {
        [amount] => Some((amount.number, amount.folded)),
        _ => None,
    }
}

// The outcomes of a read and a write of a folded amount, and that amount in the end.
fn read_and_written(alloc: Global) -> Option<([Option<(u64, bool)>; 2], Option<(u64, bool)>)> {
    let mut machine = opened(alloc, folded(alloc)?)?;
    let read = run(alloc, &mut machine, 3, Mode::Read)?;
    let write = run(alloc, &mut machine, 3, Mode::Write)?;
    let outcomes = [
        machine.outcome(read).copied(),
        machine.outcome(write).copied(),
    ];
    Some((outcomes, end(alloc, machine)))
}

#[test]
fn a_value_that_is_written_is_first_unfolded(rt: HostRuntime) {
    let outcomes = [Some((7, false)), Some((7, true))];
    assert!(rt; read_and_written(rt.alloc()) == Some((outcomes, Some((14, false)))));
}

// The outcomes of two writes of an amount, and that amount in the end.
fn written_twice(
    alloc: Global,
    amount: Arc<Amount>,
) -> Option<([Option<(u64, bool)>; 2], Option<(u64, bool)>)>
    requires { (arc_value amount).unit ≡ 3 }
{
    let mut machine = opened(alloc, amount)?;
    let write = run(alloc, &mut machine, 3, Mode::Write)?;
    let again = run(alloc, &mut machine, 3, Mode::Write)?;
    let outcomes = [
        machine.outcome(write).copied(),
        machine.outcome(again).copied(),
    ];
    Some((outcomes, end(alloc, machine)))
}

// The same of an amount that another owner keeps, and what that one has then.
fn kept_and_written(
    alloc: Global,
) -> Option<
    (
        Option<([Option<(u64, bool)>; 2], Option<(u64, bool)>)>,
        (u64, bool),
    ),
> {
    let amount = folded(alloc)?;
    let kept = Arc::try_clone(&amount).ok()?;
    let written = written_twice(alloc, amount);
    Some((written, (kept.number, kept.folded)))
}

#[test]
fn a_value_that_another_owner_keeps_is_copied_for_its_writer(rt: HostRuntime) {
    let outcomes = [Some((7, true)), Some((14, true))];
    let written = Some((outcomes, Some((28, false))));
    assert!(rt; kept_and_written(rt.alloc()) == Some((written, (7, true))));
}
