ghost use Rattle.std.specs.Prelude.{◌≡◌, ◌≢◌, ◌⊎◌, ◌+◌, ◌*◌, ◌^◌, ◌<◌, ◌≤◌, ◌++◌, ◌∷◌, ℕ, [], List, All, Contains, IfOk, OnErr, OnOk, Some, length, map, slice_get};
ghost use Rattle.std.specs.Arc.{arc_value};
ghost use Rattle.pooma_machine.specs.Steps.{Conflict, IsReady, IsReadyFor};
ghost use Rattle.pooma_machine.specs.Values.{IsComplete, asks_of};
ghost use Rattle.pooma_machine.specs.Slots.{contents};
ghost use Rattle.pooma_machine.specs.Machine.{FitsShapes};
ghost use Rattle.pooma_machine.specs.Became.{BecameReady, IsListOf, Names, TellsReady};
ghost use Rattle.pooma_machine.specs.Journal.{Tells, window_of};
ghost use Rattle.pooma_law.specs.Ser.{ser};
ghost use Rattle.pooma_window.specs.Questions.{Question, AreAsked, followed_by};
ghost use Rattle.pooma_window.specs.Windows.{AsksWithin, IsPickedFrom, IsStopped};
ghost use Rattle.pooma_window.specs.Running.{HasRun, lent, ran};

use crate::choices::Choices;
use crate::completer::Completed;
use crate::picker::Picker;
use pooma_law::{legal_histories_agree, legal_histories_tell, ser_composes};
use pooma_machine::{Became, Journal, Machine, Work};
use std::alloc::{AllocError, Global};
use std::sync::Arc;

/// Makes a machine of these objects, issues the works, and runs them as the picker says until all are released. After want
/// of memory the picker keeps the questions that it answered.
pub(crate) fn run_window<W: Work, P: Picker>(
    alloc: Global,
    picker: &mut P,
    objects: Vec<Arc<W::Value>>,
    works: Vec<Arc<W>>,
) -> Result<Machine<W>, AllocError>
    requires objects { All (AsksWithin W.meaning (length objects.items)) (map arc_value works.items) }
    requires fits { All (FitsShapes W.meaning (map W.meaning.shape (contents W.content objects.items))) (map arc_value works.items) }
    requires fewer { length works.items + 1 < 2 ^ 32 }
    ensures plan { IfOk result (λ machine. machine.plan ≡ map arc_value works.items) }
    ensures opening { IfOk result (λ machine. machine.opening ≡ contents W.content objects.items) }
    ensures picked { IfOk result (λ machine. IsPickedFrom W.meaning machine.plan (window_of W.meaning machine.plan machine.history) (P.asked picker.old) (P.asked picker.new)) }
    ensures err { OnErr result (IsStopped W.meaning (map arc_value works.items) (P.asked picker.old) (P.asked picker.new)) }
{
    let mut machine = match Machine::<W>::new(alloc, objects) {
        Ok(machine) => machine,
        Err(_) => return Err(AllocError),
    };
    request_all(alloc, &mut machine, works)?;
    run_all(alloc, &mut machine, picker)?;
    Ok(machine)
}

/// Tells the window of a machine whose entries were all released, and gives its objects and outcomes.
pub(crate) fn close_window<W: Work, J: Journal<W>>(
    alloc: Global,
    journal: &mut J,
    machine: Machine<W>,
) -> Result<Completed<W>, AllocError>
where
    W::Outcome: Copy,
    requires { IsComplete machine.plan machine.history }
    ensures objects { IfOk result (λ done. contents W.content done.objects.items ≡ (ser W.meaning machine.plan machine.opening).objects) }
    ensures outcomes { IfOk result (λ done. done.outcomes.items ≡ (ser W.meaning machine.plan machine.opening).outcomes) }
    ensures told { OnOk result (Tells (J.told journal.old) (J.told journal.new) (window_of W.meaning machine.plan machine.history)) }
    ensures err { OnErr result ((J.told journal.new ≡ J.told journal.old) ⊎ Tells (J.told journal.old) (J.told journal.new) (window_of W.meaning machine.plan machine.history)) }
{
    legal_histories_agree::<W>();
    let outcomes = outcomes_of(alloc, &machine)?;
    let _legal = machine.history();
    journal.window(alloc, &machine)?;
    let objects = machine.finish(alloc)?;
    Ok(Completed { objects, outcomes })
}

/// Issues the works in their order.
pub(crate) fn request_all<W: Work>(
    alloc: Global,
    machine: &mut Machine<W>,
    works: Vec<Arc<W>>,
) -> Result<(), AllocError>
    requires empty { machine.old.plan ≡ [] }
    requires unused { machine.old.history ≡ [] }
    requires objects { All (AsksWithin W.meaning (length machine.old.opening)) (map arc_value works.items) }
    requires fits { All (FitsShapes W.meaning (map W.meaning.shape machine.old.opening)) (map arc_value works.items) }
    requires fewer { length works.items + 1 < 2 ^ 32 }
    ensures plan { OnOk result (machine.new.plan ≡ map arc_value works.items) }
    ensures opening { machine.new.opening ≡ machine.old.opening }
    ensures run { OnOk result (HasRun (asks_of W.meaning machine.new.plan) machine.new.history []) }
{
    for work in works {
        let Ok(_) = machine.request(alloc, 0, work) else {
            return Err(AllocError);
        };
    }
    Ok(())
}

// Runs the entries, each as the picker says, until all are released.
fn run_all<W: Work, P: Picker>(
    alloc: Global,
    machine: &mut Machine<W>,
    picker: &mut P,
) -> Result<(), AllocError>
    requires { HasRun (asks_of W.meaning machine.old.plan) machine.old.history [] }
    ensures plan { machine.new.plan ≡ machine.old.plan }
    ensures opening { machine.new.opening ≡ machine.old.opening }
    ensures picked { OnOk result (IsPickedFrom W.meaning machine.new.plan (window_of W.meaning machine.new.plan machine.new.history) (P.asked picker.old) (P.asked picker.new)) }
    ensures err { OnErr result (IsStopped W.meaning machine.old.plan (P.asked picker.old) (P.asked picker.new)) }
{
    legal_histories_tell::<W>();
    let mut choices = Choices::none(alloc);
    note_ready(alloc, &mut choices, machine)?;
    while let Some(_first) = machine.least_unreleased() {
        run_next(alloc, machine, &mut choices, picker)?;
    }
    let _legal = machine.history();
    Ok(())
}

// Runs the entry that the picker picks.
fn run_next<W: Work, P: Picker>(
    alloc: Global,
    machine: &mut Machine<W>,
    choices: &mut Choices,
    picker: &mut P,
) -> Result<(), AllocError>
    requires list { IsListOf (IsReady (asks_of W.meaning machine.old.plan) machine.old.history) choices.old }
    requires some { choices.old ≢ [] }
    ensures plan { machine.new.plan ≡ machine.old.plan }
    ensures opening { machine.new.opening ≡ machine.old.opening }
    ensures list { OnOk result (IsListOf (IsReady (asks_of W.meaning machine.new.plan) machine.new.history) choices.new) }
    ensures events { OnOk result ((length machine.old.history < length machine.new.history) × (length machine.new.history ≤ 3 * length machine.new.plan)) }
    ensures run { OnOk result ((questions : List Question) → HasRun (asks_of W.meaning machine.old.plan) machine.old.history questions
        → (q : Question) × HasRun (asks_of W.meaning machine.new.plan) machine.new.history (questions ++ q ∷ []) × (P.asked picker.new ≡ followed_by (P.asked picker.old) (q ∷ []))) }
    ensures err { OnErr result ((questions : List Question) → HasRun (asks_of W.meaning machine.old.plan) machine.old.history questions
        → (later : List Question) × AreAsked (asks_of W.meaning machine.old.plan) (questions ++ later) × (P.asked picker.new ≡ followed_by (P.asked picker.old) later)) }
{
    legal_histories_tell::<W>();
    let _legal = machine.history();
    let Ok(place) = picker.pick(alloc, choices.as_slice()) else {
        return Err(AllocError);
    };
    let entry = choices.take_off(place);
    let Ok(became) = run_entry(alloc, machine, entry) else {
        return Err(AllocError);
    };
    note_became(alloc, choices, machine, entry, &became)
}

// Dispatches an entry, does its work and releases it.
fn run_entry<W: Work>(
    alloc: Global,
    machine: &mut Machine<W>,
    entry: u32,
) -> Result<Became, AllocError>
    requires there { entry < length machine.old.plan }
    requires ready { IsReady (asks_of W.meaning machine.old.plan) machine.old.history entry }
    ensures plan { machine.new.plan ≡ machine.old.plan }
    ensures opening { machine.new.opening ≡ machine.old.opening }
    ensures history { OnOk result (machine.new.history ≡ ran machine.old.history entry) }
    ensures became { IfOk result (λ became. TellsReady (asks_of W.meaning machine.old.plan) (lent machine.old.history entry) (ran machine.old.history entry) became) }
    ensures freed { OnOk result ((j : ℕ) → BecameReady (asks_of W.meaning machine.old.plan) (lent machine.old.history entry) (ran machine.old.history entry) j → Conflict (asks_of W.meaning machine.old.plan) entry j) }
    ensures events { OnOk result (length machine.new.history ≤ 3 * length machine.new.plan) }
{
    legal_histories_tell::<W>();
    match machine.dispatch(alloc, 0, entry) {
        Ok(loan) => {
            let became = machine.release(0, loan.perform());
            let _legal = machine.history();
            Ok(became)
        }
        Err(_) => Err(AllocError),
    }
}

// Puts the entries that became ready when this one was released to the choices.
fn note_became<W: Work>(
    alloc: Global,
    choices: &mut Choices,
    machine: &Machine<W>,
    released: u32,
    became: &Became,
) -> Result<(), AllocError>
    requires there { released < length machine.now.plan }
    requires stays { (j : ℕ) → Contains choices.old j → IsReady (asks_of W.meaning machine.now.plan) machine.now.history j }
    requires names { (whole : List ℕ) × IsListOf (λ j. IsReady (asks_of W.meaning machine.now.plan) machine.now.history j × (Contains choices.old j → ⊥)) whole × Names became.now whole }
    requires freed { (j : ℕ) → IsReady (asks_of W.meaning machine.now.plan) machine.now.history j → (Contains choices.old j → ⊥) → Conflict (asks_of W.meaning machine.now.plan) released j }
    ensures { OnOk result (IsListOf (IsReady (asks_of W.meaning machine.now.plan) machine.now.history) choices.new) }
{
    if became.more() {
        return note_freed(alloc, choices, machine, released);
    }
    for entry in became.entries() {
        choices.put(alloc, *entry)?;
    }
    let _ascending = choices.as_slice();
    Ok(())
}

// Puts each ready entry that asks for an object of the released entry to the choices: what became ready is among these.
fn note_freed<W: Work>(
    alloc: Global,
    choices: &mut Choices,
    machine: &Machine<W>,
    released: u32,
) -> Result<(), AllocError>
    requires there { released < length machine.now.plan }
    requires stays { (j : ℕ) → Contains choices.old j → IsReady (asks_of W.meaning machine.now.plan) machine.now.history j }
    requires freed { (j : ℕ) → IsReady (asks_of W.meaning machine.now.plan) machine.now.history j → (Contains choices.old j → ⊥) → Conflict (asks_of W.meaning machine.now.plan) released j }
    ensures { OnOk result (IsListOf (IsReady (asks_of W.meaning machine.now.plan) machine.now.history) choices.new) }
{
    for request in machine.work(released).requests() {
        let ready = ready_over(alloc, machine, request.object)?;
        choices.put_all(alloc, &ready)?;
    }
    let _ascending = choices.as_slice();
    Ok(())
}

// The ready entries that ask for the object, ascending.
fn ready_over<W: Work>(
    alloc: Global,
    machine: &Machine<W>,
    object: u32,
) -> Result<Vec<u32>, AllocError>
    requires { object < length machine.now.opening }
    ensures { IfOk result (λ ready. IsListOf (IsReadyFor (asks_of W.meaning machine.now.plan) machine.now.history object) ready.items) }
{
    let issued = machine.issued();
    let mut ready = Vec::new(alloc);
    let mut from = 0;
    while let Some(entry) = machine.ready_for(object, from) {
        ready.push(entry)?;
        from = entry + 1;
    }
    Ok(ready)
}

// Puts each ready entry to the choices.
fn note_ready<W: Work>(
    alloc: Global,
    choices: &mut Choices,
    machine: &Machine<W>,
) -> Result<(), AllocError>
    requires { (j : ℕ) → Contains choices.old j → IsReady (asks_of W.meaning machine.now.plan) machine.now.history j }
    ensures { OnOk result (IsListOf (IsReady (asks_of W.meaning machine.now.plan) machine.now.history) choices.new) }
{
    let issued = machine.issued();
    let mut from = 0;
    while let Some(entry) = machine.ready_from(from) {
        choices.put(alloc, entry)?;
        from = entry + 1;
    }
    let _ascending = choices.as_slice();
    Ok(())
}

// What the works answered, in their order.
fn outcomes_of<W: Work>(alloc: Global, machine: &Machine<W>) -> Result<Vec<W::Outcome>, AllocError>
where
    W::Outcome: Copy,
    requires { IsComplete machine.now.plan machine.now.history }
    ensures { IfOk result (λ outcomes. outcomes.items ≡ (ser W.meaning machine.now.plan machine.now.opening).outcomes) }
{
    ser_composes::<W>();
    let mut outcomes = Vec::new(alloc);
    for j in 0..machine.issued() {
        outcomes.push(*outcome_at(machine, j))?;
    }
    Ok(outcomes)
}

// What the work of this entry answered.
fn outcome_at<W: Work>(machine: &Machine<W>, j: u32) -> &W::Outcome
    requires there { j < length machine.now.plan }
    requires complete { IsComplete machine.now.plan machine.now.history }
    ensures { slice_get (ser W.meaning machine.now.plan machine.now.opening).outcomes j ≡ Some result.now }
{
    legal_histories_agree::<W>();
    let _legal = machine.history();
    match machine.outcome(j) {
        Some(outcome) => outcome,
        None => unreachable!(),
    }
}
