ghost use Rattle.std.specs.Prelude.{◌≡◌, ℕ, IsTrue, true, false, Some, None, [], ◌∷◌, ◌++◌};
ghost use Rattle.pooma_machine.specs.Values.{Account};
ghost use Rattle.pooma_desk.specs.Rule.{IsAfter, MayNote, first_of};
ghost use Rattle.pooma_desk.specs.Steps.{HasTaken, noting};
ghost use Rattle.pooma_desk.specs.Tokens.{IsLegalFor, Looks, token_of};
ghost use Rattle.pooma_desk.specs.Turns.{IsResting, IsInTurn, IsSeenLegal};

use crate::desk::Desk;
use crate::pass::{Pass, Place};
use crate::sight::{Leave, Note, Peek, Picked, Take};
use pooma_machine::{Event, Machine, Work};
use std::marker::Brand;
use std::sync::Wait;
use std::{hint, thread};

// A pause is at the most 2 to this number of spins long.
const LONGEST: u32 = 10;

// From so many misses on a pause gives the processor away too.
const PATIENT: u32 = 4;

/// The turn, held: the place of the pass that holds it, and the machine.
pub(crate) struct Turn<W: Work> {
    pub(crate) place: Place<W>,
    pub(crate) seat: u32,
    pub(crate) next: u32,
    pub(crate) machine: Machine<W>,
}

impl<W: Work> Desk<W> {
    // Whether the turn is held. Those that wait may look at the same time, where each try wants the word for itself alone.
    fn is_held(&self, place: &mut Place<W>) -> bool
        requires desk { place.old.table_id ≡ self.now.desk }
        ensures desk { place.new.table_id ≡ place.old.table_id }
        ensures known { place.new.me ≡ place.old.me }
    {
        self.table.shared.load::<Peek>(place, 0) != 0
    }

    // Step 3, once. Where the turn is held, nothing changes.
    fn try_take(&self, place: &mut Place<W>, seat: u32) -> bool
        requires desk { place.old.table_id ≡ self.now.desk }
        requires resting { IsResting place.old.me.0 }
        requires none { place.old.me.1 ≡ [] }
        requires seat { first_of place.old.me.0.seats ≡ seat }
        ensures desk { place.new.table_id ≡ place.old.table_id }
        ensures taken { IsTrue result → (machine : Account W W.Content) × HasTaken place.old.me.0 place.new.me.0 machine × (place.new.me.1 ≡ (0, Some machine) ∷ []) }
        ensures missed { result ≡ false → place.new.me ≡ place.old.me }
    {
        if self.is_held(place) {
            return false;
        }
        let found = self
            .table
            .shared
            .compare_exchange::<Take>(place, 0, 0, u64::from(seat) + 1);
        found == 0
    }

    // Step 4.
    fn take_out(&self, place: &mut Place<W>) -> Machine<W>
        requires desk { place.old.table_id ≡ self.now.desk }
        requires machine { (machine : Account W W.Content) × (place.old.me.1 ≡ (0, Some machine) ∷ []) }
        ensures desk { place.new.table_id ≡ place.old.table_id }
        ensures machine { place.old.me.1 ≡ (0, Some result) ∷ [] }
        ensures known { place.new.me ≡ (place.old.me.0, (0, None) ∷ []) }
    {
        match self.table.shared.exchange(place, 0, None) {
            Some(machine) => machine,
            None => unreachable!(),
        }
    }

    /// Takes the turn for the pass, steps 3 and 4, with the machine as it is after all that happened. A try that finds it held
    /// is made again.
    pub(crate) fn enter<R: Wait>(&self, rt: &R, pass: Pass<W>) -> Turn<W>
        requires { pass.from ≡ self.now }
        ensures desk { result.place.table_id ≡ self.now.desk }
        ensures looks { Looks pass (token_of self.now.desk result.place.me.0) }
        ensures was_legal { IsLegalFor W.meaning pass }
        ensures turn { IsInTurn result.place.me result.seat result.next }
        ensures seat { result.seat ≡ pass.seat }
        ensures after { IsAfter result.place.me.0.start.machine result.machine result.place.me.0.seen }
    {
        let Pass {
            mut place,
            seat,
            next,
        } = pass;
        let mut misses = 0u32;
        for _ in rt.forever() {
            if self.try_take(&mut place, seat) {
                let machine = self.take_out(&mut place);
                return Turn {
                    place,
                    seat,
                    next,
                    machine,
                };
            }
            pause(misses);
            misses = misses.saturating_add(1);
        }
        unreachable!()
    }

    /// Step 5: counts an event and notes it, with the work that it requests, if it is a request. The machine has it already.
    pub(crate) fn note<E: Picked<W>>(
        &self,
        place: &mut Place<W>,
        machine: &Machine<W>,
        _event: Event,
        _work: Option<&W>,
    )
        requires desk { place.old.table_id ≡ self.now.desk }
        requires start { place.old.me.0.start.machine ≡ self.now.machine }
        requires turn { (seat next : ℕ) × IsInTurn place.old.me seat next }
        requires may { MayNote place.old.me.0 E.event }
        requires after { IsAfter place.old.me.0.start.machine machine.now (place.old.me.0.seen ++ E.event ∷ []) }
        ensures desk { place.new.table_id ≡ place.old.table_id }
        ensures known { place.new.me ≡ (noting place.old.me.0 E.event, place.old.me.1) }
    {
        let events = (machine.history().len() - self.before) as u64;
        self.table.shared.store::<Note<E>>(place, 1, events);
    }

    /// Step 5 for an event that is no request.
    pub(crate) fn note_called<'a>(
        &'a self,
        place: &'a mut Place<W>,
        machine: &'a Machine<W>,
        event: Event,
    )
        requires desk { place.old.table_id ≡ self.now.desk }
        requires start { place.old.me.0.start.machine ≡ self.now.machine }
        requires turn { (seat next : ℕ) × IsInTurn place.old.me seat next }
        requires may { MayNote place.old.me.0 (record { event = event; work = None }) }
        requires after { IsAfter place.old.me.0.start.machine machine.now (place.old.me.0.seen ++ (record { event = event; work = None }) ∷ []) }
        ensures desk { place.new.table_id ≡ place.old.table_id }
        ensures known { place.new.me ≡ (noting place.old.me.0 (record { event = event; work = None }), place.old.me.1) }
    {
        let nothing: Option<&'a W> = None;
        self.note::<Brand>(place, machine, event, nothing);
    }

    /// Steps 6 and 7: puts the machine back, and leaves the turn. The pass has seen all that happened by then.
    pub(crate) fn leave(&self, turn: Turn<W>) -> Pass<W>
        requires desk { turn.place.table_id ≡ self.now.desk }
        requires turn { IsInTurn turn.place.me turn.seat turn.next }
        requires after { IsAfter turn.place.me.0.start.machine turn.machine turn.place.me.0.seen }
        ensures pass { result ≡ token_of self.now.desk turn.place.me.0 }
        ensures legal { IsLegalFor W.meaning result }
    {
        let Turn {
            mut place,
            seat,
            next,
            machine,
        } = turn;
        let _ = machine.history();
        drop(self.table.shared.exchange(&mut place, 0, Some(machine)));
        self.table.shared.store::<Leave>(&mut place, 0, 0);
        Pass { place, seat, next }
    }
}

// Waits a while before the next try at the turn, longer after each miss. A waiter that yields at once costs the holder of the
// turn the cache of its processor; one that only spins takes the processor from the holder where there are more workers than
// processors.
fn pause(misses: u32) {
    for _ in 0..1u32 << misses.min(LONGEST) {
        hint::spin_loop();
    }
    if misses >= PATIENT {
        thread::yield_now();
    }
}
