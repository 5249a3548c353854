ghost use Rattle.std.specs.Prelude.{◌≡◌, ◌≢◌, ◌+◌, ◌^◌, ◌<◌, ◌≤◌, ◌++◌, ◌∷◌, ◌↔◌, [], ℕ, false, IsTrue, All, AllPairs, IfOk, IfSome, IfNone, MatchOption, OnErr, length};
ghost use Rattle.pooma_machine.specs.declared.step.EventKind.TheVariants as kind;
ghost use Rattle.pooma_machine.specs.Steps.{IsLeastReady};
ghost use Rattle.pooma_machine.specs.Values.{Loaned, IsComplete, asks_of};
ghost use Rattle.pooma_desk.specs.Rule.{IsAfter};
ghost use Rattle.pooma_desk.specs.Steps.{noting, noting_all};
ghost use Rattle.pooma_desk.specs.Tokens.{AddsAll, IsLegalFor, IsLoanOf, plan_of, history_of, called, all_called, entries_of, token_of};
ghost use Rattle.pooma_desk.specs.Turns.{IsInTurn};
ghost use Rattle.pooma_desk.specs.Readied.{EndsWith, DispatchesLeast, NoneReady, dispatches_of};

use crate::desk::Desk;
use crate::pass::Pass;
use crate::turn::Turn;
use pooma_law::{legal_histories_tell, values_stay};
use pooma_machine::{Done, Loan, Work};
use std::alloc::{AllocError, Global};
use std::sync::Wait;

// For how many loans there is room before the turn is taken.
const ROOM: usize = 16;

/// What a turn that releases entries and dispatches others answers.
#[derive(Drop)]
pub struct Handed<W: Work> {
    /// The loans of the entries that were dispatched, in order.
    pub loans: Vec<Loan<W>>,
    /// Whether there was no memory for one more that was ready.
    pub short: bool,
    /// How many entries were issued.
    pub issued: u32,
    /// Whether all of them were released.
    pub all_released: bool,
}

impl<W: Work> Desk<W> {
    /// Releases entries that this pass, or one that was joined into it, has out, in the order of the list, and then dispatches
    /// up to so many, one after another: each is the least entry not below `from` that may be dispatched then. All of it is
    /// one turn, so no call of another pass stands between.
    ///
    /// It waits for the turn once. The releases take no memory and can't be refused. Fewer are dispatched exactly where no
    /// further entry from `from` on is ready, or where memory is short for one that is and stays so; what was done before
    /// that stays. With nothing to release it is a look that takes what it finds.
    pub fn release_all_and_dispatch<R: Wait>(
        &self,
        rt: &R,
        alloc: Global,
        pass: Pass<W>,
        done: Vec<Done<W>>,
        from: u32,
        most: usize,
    ) -> (Pass<W>, Handed<W>)
        requires desk { pass.from ≡ self.now }
        requires loans { All (IsLoanOf W.meaning pass) done.items }
        requires once { AllPairs (λ one other. one.entry ≢ other.entry) done.items }
        // The releases and then the dispatches are the last events and the calls of the pass.
        ensures adds { AddsAll pass result.0 (all_called kind.Release pass.seat (entries_of done.items) ++ all_called kind.Dispatch pass.seat (entries_of result.1.loans.items)) }
        ensures least { EndsWith (history_of result.0) (dispatches_of pass.seat (entries_of result.1.loans.items))
            (λ before. DispatchesLeast (asks_of W.meaning (plan_of result.0)) pass.seat from before (entries_of result.1.loans.items)) }
        ensures loans { All (IsLoanOf W.meaning result.0) result.1.loans.items }
        ensures order { AllPairs (λ one other. one.entry < other.entry) result.1.loans.items }
        ensures most { length result.1.loans.items ≤ most }
        // Fewer: none from `from` on is ready any more, or memory was short for one that still is.
        ensures none { result.1.short ≡ false → length result.1.loans.items < most → NoneReady (asks_of W.meaning (plan_of result.0)) (history_of result.0) from }
        ensures short { IsTrue result.1.short → (length result.1.loans.items < most) × (j : ℕ) × IsLeastReady (asks_of W.meaning (plan_of result.0)) (history_of result.0) from j }
        ensures issued { result.1.issued ≡ length (plan_of result.0) }
        ensures all_released { IsTrue result.1.all_released ↔ IsComplete (plan_of result.0) (history_of result.0) }
        ensures legal { IsLegalFor W.meaning result.0 }
    {
        let mut loans = room_for(alloc, most);
        let mut turn = self.enter_and_release_all(rt, pass, done);
        let short = self.dispatch_ready(&mut turn, alloc, from, most, &mut loans);
        let issued = turn.machine.issued();
        let all_released = turn.machine.all_released();
        let handed = Handed {
            loans,
            short,
            issued,
            all_released,
        };
        (self.leave(turn), handed)
    }

    // Takes the turn, releases the entries in it, one after another, and notes each.
    fn enter_and_release_all<R: Wait>(&self, rt: &R, pass: Pass<W>, done: Vec<Done<W>>) -> Turn<W>
        requires desk { pass.from ≡ self.now }
        requires loans { All (IsLoanOf W.meaning pass) done.items }
        requires once { AllPairs (λ one other. one.entry ≢ other.entry) done.items }
        ensures desk { result.place.table_id ≡ self.now.desk }
        ensures seat { result.seat ≡ pass.seat }
        ensures turn { IsInTurn result.place.me result.seat result.next }
        ensures after { IsAfter result.place.me.0.start.machine result.machine result.place.me.0.seen }
        ensures adds { AddsAll pass (token_of self.now.desk result.place.me.0) (all_called kind.Release pass.seat (entries_of done.items)) }
    {
        legal_histories_tell::<W>();
        values_stay::<W>();
        let mut turn = self.enter(rt, pass);
        let _ = turn.machine.history();
        self.release_each(&mut turn, done);
        turn
    }

    // Releases the entries in the turn, one after another, and notes each.
    fn release_each(&self, turn: &mut Turn<W>, done: Vec<Done<W>>)
        requires desk { turn.old.place.table_id ≡ self.now.desk }
        requires start { turn.old.place.me.0.start.machine ≡ self.now.machine }
        requires turn { IsInTurn turn.old.place.me turn.old.seat turn.old.next }
        requires after { IsAfter turn.old.place.me.0.start.machine turn.old.machine turn.old.place.me.0.seen }
        requires loans { All (IsLoanOf W.meaning (token_of self.now.desk turn.old.place.me.0)) done.items }
        requires once { AllPairs (λ one other. one.entry ≢ other.entry) done.items }
        ensures desk { turn.new.place.table_id ≡ self.now.desk }
        ensures seat { turn.new.seat ≡ turn.old.seat }
        ensures turn { IsInTurn turn.new.place.me turn.new.seat turn.new.next }
        ensures after { IsAfter turn.new.place.me.0.start.machine turn.new.machine turn.new.place.me.0.seen }
        ensures noted { turn.new.place.me ≡ (noting_all turn.old.place.me.0 (all_called kind.Release turn.old.seat (entries_of done.items)), turn.old.place.me.1) }
    {
        values_stay::<W>();
        for one in done {
            drop(self.release_in_turn(turn, one));
        }
    }

    // Dispatches in the turn up to so many entries from this number on, the least that is ready first, and puts their loans
    // into the list. Whether it ended for want of memory.
    fn dispatch_ready(
        &self,
        turn: &mut Turn<W>,
        alloc: Global,
        from: u32,
        most: usize,
        loans: &mut Vec<Loan<W>>,
    ) -> bool
        requires desk { turn.old.place.table_id ≡ self.now.desk }
        requires start { turn.old.place.me.0.start.machine ≡ self.now.machine }
        requires turn { IsInTurn turn.old.place.me turn.old.seat turn.old.next }
        requires after { IsAfter turn.old.place.me.0.start.machine turn.old.machine turn.old.place.me.0.seen }
        requires empty { loans.old.items ≡ [] }
        ensures desk { turn.new.place.table_id ≡ self.now.desk }
        ensures seat { turn.new.seat ≡ turn.old.seat }
        ensures turn { IsInTurn turn.new.place.me turn.new.seat turn.new.next }
        ensures after { IsAfter turn.new.place.me.0.start.machine turn.new.machine turn.new.place.me.0.seen }
        ensures noted { turn.new.place.me ≡ (noting_all turn.old.place.me.0 (all_called kind.Dispatch turn.old.seat (entries_of loans.new.items)), turn.old.place.me.1) }
        ensures least { DispatchesLeast (asks_of W.meaning (plan_of (token_of self.now.desk turn.old.place.me.0))) turn.old.seat from (history_of (token_of self.now.desk turn.old.place.me.0)) (entries_of loans.new.items) }
        ensures loans { All (IsLoanOf W.meaning (token_of self.now.desk turn.new.place.me.0)) loans.new.items }
        ensures order { AllPairs (λ one other. one.entry < other.entry) loans.new.items }
        ensures most { length loans.new.items ≤ most }
        ensures none { result ≡ false → length loans.new.items < most → NoneReady (asks_of W.meaning (plan_of (token_of self.now.desk turn.new.place.me.0))) (history_of (token_of self.now.desk turn.new.place.me.0)) from }
        ensures short { IsTrue result → (length loans.new.items < most) × (j : ℕ) × IsLeastReady (asks_of W.meaning (plan_of (token_of self.now.desk turn.new.place.me.0))) (history_of (token_of self.now.desk turn.new.place.me.0)) from j }
    {
        values_stay::<W>();
        let mut next = from;
        'entries: while loans.len() < most {
            let Ok(found) = self.dispatch_next(turn, alloc, next, loans) else {
                return true;
            };
            let Some(j) = found else {
                return false;
            };
            next = j + 1;
        }
        false
    }

    // Dispatches in the turn the least ready entry from this number on, if there is one, and puts its loan into the list. An
    // error is want of memory; then one is ready, and nothing changes.
    fn dispatch_next(
        &self,
        turn: &mut Turn<W>,
        alloc: Global,
        from: u32,
        loans: &mut Vec<Loan<W>>,
    ) -> Result<Option<u32>, AllocError>
        requires desk { turn.old.place.table_id ≡ self.now.desk }
        requires start { turn.old.place.me.0.start.machine ≡ self.now.machine }
        requires turn { IsInTurn turn.old.place.me turn.old.seat turn.old.next }
        requires after { IsAfter turn.old.place.me.0.start.machine turn.old.machine turn.old.place.me.0.seen }
        ensures desk { turn.new.place.table_id ≡ self.now.desk }
        ensures seat { turn.new.seat ≡ turn.old.seat }
        ensures turn { IsInTurn turn.new.place.me turn.new.seat turn.new.next }
        ensures after { IsAfter turn.new.place.me.0.start.machine turn.new.machine turn.new.place.me.0.seen }
        ensures ready { IfOk result (λ found. MatchOption found
            (NoneReady (asks_of W.meaning (plan_of (token_of self.now.desk turn.old.place.me.0))) (history_of (token_of self.now.desk turn.old.place.me.0)) from)
            (IsLeastReady (asks_of W.meaning (plan_of (token_of self.now.desk turn.old.place.me.0))) (history_of (token_of self.now.desk turn.old.place.me.0)) from)) }
        ensures within { IfOk result (λ found. IfSome found (λ j. j + 1 < 2 ^ 32)) }
        ensures noted { IfOk result (λ found. IfSome found (λ j. turn.new.place.me ≡ (noting turn.old.place.me.0 (called kind.Dispatch j turn.old.seat), turn.old.place.me.1))) }
        ensures loan { IfOk result (λ found. IfSome found (λ j. (loan : Loaned W W.Content) × (loans.new.items ≡ loans.old.items ++ loan ∷ []) × (loan.entry ≡ j) × IsLoanOf W.meaning (token_of self.now.desk turn.new.place.me.0) loan)) }
        ensures none { IfOk result (λ found. IfNone found ((turn.new.place.me ≡ turn.old.place.me) × (loans.new.items ≡ loans.old.items))) }
        ensures err { OnErr result ((turn.new.place.me ≡ turn.old.place.me) × (loans.new.items ≡ loans.old.items)) }
        ensures short { OnErr result ((j : ℕ) × IsLeastReady (asks_of W.meaning (plan_of (token_of self.now.desk turn.old.place.me.0))) (history_of (token_of self.now.desk turn.old.place.me.0)) from j) }
    {
        let _ = turn.machine.issued();
        let Some(j) = turn.machine.ready_from(from) else {
            return Ok(None);
        };
        let Ok(()) = loans.reserve(1) else {
            return Err(AllocError);
        };
        match self.dispatch_in_turn(turn, alloc, j) {
            Ok(loan) => {
                loans.push_reserved(loan);
                Ok(Some(j))
            }
            Err(_) => Err(AllocError),
        }
    }
}

// An empty list, with room for as many loans as a turn mostly takes, where there is memory for it before the turn.
fn room_for<W: Work>(alloc: Global, most: usize) -> Vec<Loan<W>>
    ensures { result.items ≡ [] }
{
    match Vec::with_capacity(alloc, most.min(ROOM)) {
        Ok(loans) => loans,
        Err(_) => Vec::new(alloc),
    }
}
