ghost use Rattle.std.specs.Prelude.{◌≡◌, ◌+◌, ◌<◌, ◌++◌, List, All, IfOk, IfErr, OnErr, OnOk, length, map};
ghost use Rattle.std.specs.Arc.{arc_value};
ghost use Rattle.pooma_machine.specs.Machine.{FitsShapes};
ghost use Rattle.pooma_desk.specs.Rule.{IsAfter};
ghost use Rattle.pooma_desk.specs.Steps.{noting, noting_all};
ghost use Rattle.pooma_desk.specs.Tokens.{Adds, Looks, IsLegalFor, RequestsAll, plan_of, requested, all_requested, token_of};
ghost use Rattle.pooma_desk.specs.Turns.{IsInTurn};

use crate::desk::Desk;
use crate::pass::Pass;
use crate::turn::Turn;
use pooma_machine::{Event, EventKind, Work};
use std::alloc::Global;
use std::collections::VecDeque;
use std::marker::Brand;
use std::sync::{Arc, Wait};

/// What came of the request of a list of works.
#[derive(Drop)]
pub struct Requested<W: Work> {
    /// The number of the first entry. The others follow it in order.
    pub first: u32,
    /// The works that were not requested, in their order: none where all were.
    pub rest: VecDeque<Arc<W>>,
}

impl<W: Work> Desk<W> {
    /// Requests an entry for this work, and answers its number: the work asks for objects of the machine, whose shapes it
    /// fits. It waits for the turn. It is refused for want of memory alone, or where the machine has 2^32 - 1 entries; then
    /// the work is handed back, and the pass may have seen more.
    pub fn request<R: Wait>(
        &self,
        rt: &R,
        alloc: Global,
        pass: Pass<W>,
        work: Arc<W>,
    ) -> (Pass<W>, Result<u32, Arc<W>>)
        requires desk { pass.from ≡ self.now }
        requires objects { All (λ r. r.object < length pass.from.machine.opening) (W.meaning.requests (arc_value work)) }
        requires fits { FitsShapes W.meaning (map W.meaning.shape pass.from.machine.opening) (arc_value work) }
        ensures ok { IfOk result.1 (λ entry. Adds pass result.0 (requested entry pass.seat (arc_value work))) }
        ensures entry { IfOk result.1 (λ entry. entry + 1 ≡ length (plan_of result.0)) }
        ensures err { OnErr result.1 (Looks pass result.0) }
        ensures given_back { IfErr result.1 (λ given. arc_value given ≡ arc_value work) }
        ensures legal { IsLegalFor W.meaning result.0 }
    {
        let mut turn = self.enter(rt, pass);
        match self.request_in_turn(&mut turn, alloc, work) {
            Ok(entry) => (self.leave(turn), Ok(entry)),
            Err(work) => (self.leave(turn), Err(work)),
        }
    }

    /// Requests an entry for each of these works, in their order and in one turn: each is one event. It waits for the turn
    /// once. As with `request`, want of memory alone refuses one, or that the machine has 2^32 - 1 entries; then those before
    /// it are requested, and it is handed back with those behind it.
    pub fn request_all<R: Wait>(
        &self,
        rt: &R,
        alloc: Global,
        pass: Pass<W>,
        works: VecDeque<Arc<W>>,
    ) -> (Pass<W>, Requested<W>)
        requires desk { pass.from ≡ self.now }
        requires objects { All (λ work. All (λ r. r.object < length pass.from.machine.opening) (W.meaning.requests (arc_value work))) works.items }
        requires fits { All (λ work. FitsShapes W.meaning (map W.meaning.shape pass.from.machine.opening) (arc_value work)) works.items }
        ensures requests { RequestsAll pass result.0 (map arc_value works.items) (map arc_value result.1.rest.items) result.1.first }
        ensures legal { IsLegalFor W.meaning result.0 }
    {
        let mut works = works;
        let mut turn = self.enter(rt, pass);
        let first = turn.machine.issued();
        self.request_each(&mut turn, alloc, &mut works);
        (self.leave(turn), Requested { first, rest: works })
    }

    // Requests the works in the turn, one after another, and takes each out of the list. It ends at the first that is refused,
    // which stays in the list.
    fn request_each(&self, turn: &mut Turn<W>, alloc: Global, works: &mut VecDeque<Arc<W>>)
        requires desk { turn.old.place.table_id ≡ self.now.desk }
        requires start { turn.old.place.me.0.start.machine ≡ self.now.machine }
        requires turn { IsInTurn turn.old.place.me turn.old.seat turn.old.next }
        requires after { IsAfter turn.old.place.me.0.start.machine turn.old.machine turn.old.place.me.0.seen }
        requires objects { All (λ work. All (λ r. r.object < length self.now.machine.opening) (W.meaning.requests (arc_value work))) works.old.items }
        requires fits { All (λ work. FitsShapes W.meaning (map W.meaning.shape self.now.machine.opening) (arc_value work)) works.old.items }
        ensures desk { turn.new.place.table_id ≡ self.now.desk }
        ensures seat { turn.new.seat ≡ turn.old.seat }
        ensures turn { IsInTurn turn.new.place.me turn.new.seat turn.new.next }
        ensures after { IsAfter turn.new.place.me.0.start.machine turn.new.machine turn.new.place.me.0.seen }
        ensures noted { (asked : List W) × (map arc_value works.old.items ≡ asked ++ map arc_value works.new.items)
            × (turn.new.place.me ≡ (noting_all turn.old.place.me.0 (all_requested (length turn.old.machine.plan) turn.old.seat asked), turn.old.place.me.1)) }
    {
        while let Some(work) = works.pop_front() {
            if let Err(work) = self.request_in_turn(turn, alloc, work) {
                works.push_front_reserved(work);
                return;
            }
        }
    }

    // Requests an entry for the work in the turn, and notes it. Where it is refused, nothing changes.
    fn request_in_turn(
        &self,
        turn: &mut Turn<W>,
        alloc: Global,
        work: Arc<W>,
    ) -> Result<u32, Arc<W>>
        requires desk { turn.old.place.table_id ≡ self.now.desk }
        requires start { turn.old.place.me.0.start.machine ≡ self.now.machine }
        requires turn { IsInTurn turn.old.place.me turn.old.seat turn.old.next }
        requires after { IsAfter turn.old.place.me.0.start.machine turn.old.machine turn.old.place.me.0.seen }
        requires objects { All (λ r. r.object < length self.now.machine.opening) (W.meaning.requests (arc_value work)) }
        requires fits { FitsShapes W.meaning (map W.meaning.shape self.now.machine.opening) (arc_value work) }
        ensures desk { turn.new.place.table_id ≡ self.now.desk }
        ensures seat { turn.new.seat ≡ turn.old.seat }
        ensures turn { IsInTurn turn.new.place.me turn.new.seat turn.new.next }
        ensures after { IsAfter turn.new.place.me.0.start.machine turn.new.machine turn.new.place.me.0.seen }
        ensures noted { IfOk result (λ entry. turn.new.place.me ≡ (noting turn.old.place.me.0 (requested entry turn.old.seat (arc_value work)), turn.old.place.me.1)) }
        ensures entry { IfOk result (λ entry. entry ≡ length turn.old.machine.plan) }
        ensures plan { OnOk result (length turn.new.machine.plan ≡ length turn.old.machine.plan + 1) }
        ensures err { OnErr result (turn.new.place.me ≡ turn.old.place.me) }
        ensures given_back { IfErr result (λ given. arc_value given ≡ arc_value work) }
    {
        if turn.machine.issued() == u32::MAX {
            return Err(work);
        }
        match turn.machine.request(alloc, turn.seat, work) {
            Ok(entry) => {
                let event = Event {
                    kind: EventKind::Request,
                    entry,
                    seat: turn.seat,
                };
                let asked = turn.machine.work(entry);
                self.note::<Brand>(&mut turn.place, &turn.machine, event, Some(asked));
                Ok(entry)
            }
            Err(work) => Err(work),
        }
    }
}
