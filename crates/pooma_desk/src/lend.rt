ghost use Rattle.std.specs.Prelude.{◌≡◌, ◌∷◌, ◌++◌, ◌<◌, [], ℕ, List, Some, IfSome, IfNone, IfOk, IfErr, OnErr, OnOk, IsOkUnless, length, slice_get};
ghost use Rattle.pooma_machine.specs.declared.step.Event.{Event};
ghost use Rattle.pooma_machine.specs.declared.step.EventKind.TheVariants as kind;
ghost use Rattle.pooma_machine.specs.declared.refusal.DispatchError.{DispatchError};
ghost use Rattle.pooma_machine.specs.Steps.{IsReady, event_of};
ghost use Rattle.pooma_machine.specs.Values.{asks_of};
ghost use Rattle.pooma_machine.specs.Causes.{Explains};
ghost use Rattle.pooma_machine.specs.Became.{TellsReady};
ghost use Rattle.pooma_desk.specs.Rule.{IsAfter};
ghost use Rattle.pooma_desk.specs.Steps.{noting};
ghost use Rattle.pooma_desk.specs.Tokens.{Adds, AddsTwo, Looks, HasOut, IsLegalFor, IsLoanOf, plan_of, history_of, values_after, called, token_of};
ghost use Rattle.pooma_desk.specs.Turns.{IsInTurn};
ghost use Rattle.pooma_desk.specs.Readied.{EndsWith, IsLeastReadied, NoneReadied, TellsReadied};

use crate::desk::Desk;
use crate::pass::Pass;
use crate::turn::Turn;
use pooma_law::{legal_histories_grow, legal_histories_tell, values_stay};
use pooma_machine::{Became, DispatchError, Done, Event, EventKind, Loan, Work};
use std::alloc::{AllocError, Global};
use std::sync::Wait;

impl<W: Work> Desk<W> {
    /// Dispatches an entry that the pass has seen requested, or that the machine had at the start, and lends it what it
    /// asked for. It waits for the turn. It is refused as the machine refuses it; the answer is that after what the pass has
    /// then seen, which may be more than before.
    pub fn dispatch<R: Wait>(
        &self,
        rt: &R,
        alloc: Global,
        pass: Pass<W>,
        j: u32,
    ) -> (Pass<W>, Result<Loan<W>, DispatchError>)
        requires desk { pass.from ≡ self.now }
        requires issued { j < length (plan_of pass) }
        ensures ok { OnOk result.1 (Adds pass result.0 (called kind.Dispatch j pass.seat)) }
        ensures out { OnOk result.1 (HasOut result.0 j) }
        ensures entry { IfOk result.1 (λ loan. loan.entry ≡ j) }
        ensures work { IfOk result.1 (λ loan. slice_get (plan_of result.0) j ≡ Some loan.work) }
        ensures lent { IfOk result.1 (λ loan. loan.lent ≡ (values_after W.meaning result.0).lent j) }
        ensures err { OnErr result.1 (Looks pass result.0) }
        ensures refused { IfErr result.1 (Explains (asks_of W.meaning (plan_of result.0)) (history_of result.0) j) }
        ensures legal { IsLegalFor W.meaning result.0 }
    {
        let mut turn = self.enter(rt, pass);
        match self.dispatch_in_turn(&mut turn, alloc, j) {
            Ok(loan) => (self.leave(turn), Ok(loan)),
            Err(error) => (self.leave(turn), Err(error)),
        }
    }

    /// Releases an entry that this pass, or one that was joined into it, has out, and answers which entries became ready by
    /// it. It waits for the turn, takes no memory and can't be refused.
    pub fn release<R: Wait>(&self, rt: &R, pass: Pass<W>, done: Done<W>) -> (Pass<W>, Became)
        requires desk { pass.from ≡ self.now }
        requires out { HasOut pass done.entry }
        requires work { slice_get (plan_of pass) done.entry ≡ Some done.work }
        requires lent { done.lent ≡ (values_after W.meaning pass).lent done.entry }
        ensures adds { Adds pass result.0 (called kind.Release done.entry pass.seat) }
        ensures became { (before : List Event) × (history_of result.0 ≡ before ++ event_of kind.Release done.entry pass.seat ∷ [])
            × TellsReady (asks_of W.meaning (plan_of result.0)) before (history_of result.0) result.1 }
        ensures legal { IsLegalFor W.meaning result.0 }
    {
        let (turn, became) = self.enter_and_release(rt, pass, done);
        (self.leave(turn), became)
    }

    /// Releases an entry that this pass, or one that was joined into it, has out, and in the same turn dispatches the least
    /// entry that became ready by it, so that no other pass can be faster. It waits for the turn once. It answers the loan of
    /// that entry, or none exactly where none became ready. Only want of memory refuses the dispatch; the entry is released
    /// all the same, and the other is as ready as before. Beside it stands what became ready, the dispatched one first.
    pub fn release_and_dispatch<R: Wait>(
        &self,
        rt: &R,
        alloc: Global,
        pass: Pass<W>,
        done: Done<W>,
    ) -> (Pass<W>, Result<Option<Loan<W>>, AllocError>, Became)
        requires desk { pass.from ≡ self.now }
        requires out { HasOut pass done.entry }
        requires work { slice_get (plan_of pass) done.entry ≡ Some done.work }
        requires lent { done.lent ≡ (values_after W.meaning pass).lent done.entry }
        // A loan: the release and the dispatch are the last two events and the two calls of the pass.
        ensures next { IfOk result.1 (λ next. IfSome next (λ loan.
            AddsTwo pass result.0 (called kind.Release done.entry pass.seat) (called kind.Dispatch loan.entry pass.seat))) }
        ensures least { IfOk result.1 (λ next. IfSome next (λ loan.
            EndsWith (history_of result.0) (event_of kind.Release done.entry pass.seat ∷ event_of kind.Dispatch loan.entry pass.seat ∷ [])
            (λ before. IsLeastReadied (asks_of W.meaning (plan_of result.0)) before (event_of kind.Release done.entry pass.seat) loan.entry))) }
        ensures out { IfOk result.1 (λ next. IfSome next (λ loan. HasOut result.0 loan.entry)) }
        ensures work { IfOk result.1 (λ next. IfSome next (λ loan. slice_get (plan_of result.0) loan.entry ≡ Some loan.work)) }
        ensures lent { IfOk result.1 (λ next. IfSome next (λ loan. loan.lent ≡ (values_after W.meaning result.0).lent loan.entry)) }
        // None: the release is the one call, and no entry became ready.
        ensures released { IfOk result.1 (λ next. IfNone next (Adds pass result.0 (called kind.Release done.entry pass.seat))) }
        ensures none { IfOk result.1 (λ next. IfNone next (
            EndsWith (history_of result.0) (event_of kind.Release done.entry pass.seat ∷ [])
            (λ before. NoneReadied (asks_of W.meaning (plan_of result.0)) before (event_of kind.Release done.entry pass.seat)))) }
        // Refused: the release is the one call, and an entry became ready by it, which still is.
        ensures err { OnErr result.1 (Adds pass result.0 (called kind.Release done.entry pass.seat)) }
        ensures ready { OnErr result.1 (
            EndsWith (history_of result.0) (event_of kind.Release done.entry pass.seat ∷ [])
            (λ before. (j : ℕ) × IsLeastReadied (asks_of W.meaning (plan_of result.0)) before (event_of kind.Release done.entry pass.seat) j)) }
        ensures became { TellsReadied (asks_of W.meaning (plan_of result.0)) (history_of result.0) (event_of kind.Release done.entry pass.seat) result.2 }
        ensures legal { IsLegalFor W.meaning result.0 }
    {
        legal_histories_tell::<W>();
        let (mut turn, became) = self.enter_and_release(rt, pass, done);
        let _ = turn.machine.history();
        let Some(next) = became.entries().first().copied() else {
            return (self.leave(turn), Ok(None), became);
        };
        match self.dispatch_in_turn(&mut turn, alloc, next) {
            Ok(loan) => (self.leave(turn), Ok(Some(loan)), became),
            Err(error) => match error {
                DispatchError::OutOfMemory => (self.leave(turn), Err(AllocError), became),
                _ => unreachable!(),
            },
        }
    }

    /// Dispatches an entry in the turn, and notes it. Where it is refused, nothing changes.
    pub(crate) fn dispatch_in_turn(
        &self,
        turn: &mut Turn<W>,
        alloc: Global,
        j: u32,
    ) -> Result<Loan<W>, DispatchError>
        requires desk { turn.old.place.table_id ≡ self.now.desk }
        requires start { turn.old.place.me.0.start.machine ≡ self.now.machine }
        requires turn { IsInTurn turn.old.place.me turn.old.seat turn.old.next }
        requires after { IsAfter turn.old.place.me.0.start.machine turn.old.machine turn.old.place.me.0.seen }
        requires issued { j < length (plan_of (token_of self.now.desk turn.old.place.me.0)) }
        ensures desk { turn.new.place.table_id ≡ self.now.desk }
        ensures seat { turn.new.seat ≡ turn.old.seat }
        ensures turn { IsInTurn turn.new.place.me turn.new.seat turn.new.next }
        ensures after { IsAfter turn.new.place.me.0.start.machine turn.new.machine turn.new.place.me.0.seen }
        ensures noted { OnOk result (turn.new.place.me ≡ (noting turn.old.place.me.0 (called kind.Dispatch j turn.old.seat), turn.old.place.me.1)) }
        ensures out { OnOk result (HasOut (token_of self.now.desk turn.new.place.me.0) j) }
        ensures entry { IfOk result (λ loan. loan.entry ≡ j) }
        ensures work { IfOk result (λ loan. slice_get (plan_of (token_of self.now.desk turn.new.place.me.0)) j ≡ Some loan.work) }
        ensures lent { IfOk result (λ loan. loan.lent ≡ (values_after W.meaning (token_of self.now.desk turn.new.place.me.0)).lent j) }
        ensures err { OnErr result (turn.new.place.me ≡ turn.old.place.me) }
        ensures refused { IfErr result (Explains (asks_of W.meaning (plan_of (token_of self.now.desk turn.new.place.me.0))) (history_of (token_of self.now.desk turn.new.place.me.0)) j) }
        ensures succeeds { IsReady (asks_of W.meaning (plan_of (token_of self.now.desk turn.old.place.me.0))) (history_of (token_of self.now.desk turn.old.place.me.0)) j → IsOkUnless result DispatchError.OutOfMemory }
    {
        legal_histories_tell::<W>();
        let _ = turn.machine.history();
        match turn.machine.dispatch(alloc, turn.seat, j) {
            Ok(loan) => {
                let dispatched = Event {
                    kind: EventKind::Dispatch,
                    entry: j,
                    seat: turn.seat,
                };
                self.note_called(&mut turn.place, &turn.machine, dispatched);
                Ok(loan)
            }
            Err(error) => Err(error),
        }
    }

    // Takes the turn, releases the entry in it, and notes that.
    fn enter_and_release<R: Wait>(&self, rt: &R, pass: Pass<W>, done: Done<W>) -> (Turn<W>, Became)
        requires desk { pass.from ≡ self.now }
        requires loan { IsLoanOf W.meaning pass done }
        ensures desk { result.0.place.table_id ≡ self.now.desk }
        ensures seat { result.0.seat ≡ pass.seat }
        ensures turn { IsInTurn result.0.place.me result.0.seat result.0.next }
        ensures after { IsAfter result.0.place.me.0.start.machine result.0.machine result.0.place.me.0.seen }
        ensures adds { Adds pass (token_of self.now.desk result.0.place.me.0) (called kind.Release done.entry pass.seat) }
        ensures became { EndsWith (history_of (token_of self.now.desk result.0.place.me.0)) (event_of kind.Release done.entry pass.seat ∷ [])
            (λ before. TellsReady (asks_of W.meaning (plan_of (token_of self.now.desk result.0.place.me.0))) before (history_of (token_of self.now.desk result.0.place.me.0)) result.1) }
    {
        legal_histories_tell::<W>();
        values_stay::<W>();
        let mut turn = self.enter(rt, pass);
        let _ = turn.machine.history();
        let became = self.release_in_turn(&mut turn, done);
        (turn, became)
    }

    /// Releases in the turn an entry that the pass has out, and notes it.
    pub(crate) fn release_in_turn(&self, turn: &mut Turn<W>, done: Done<W>) -> Became
        requires desk { turn.old.place.table_id ≡ self.now.desk }
        requires start { turn.old.place.me.0.start.machine ≡ self.now.machine }
        requires turn { IsInTurn turn.old.place.me turn.old.seat turn.old.next }
        requires after { IsAfter turn.old.place.me.0.start.machine turn.old.machine turn.old.place.me.0.seen }
        requires loan { IsLoanOf W.meaning (token_of self.now.desk turn.old.place.me.0) done }
        ensures desk { turn.new.place.table_id ≡ self.now.desk }
        ensures seat { turn.new.seat ≡ turn.old.seat }
        ensures turn { IsInTurn turn.new.place.me turn.new.seat turn.new.next }
        ensures after { IsAfter turn.new.place.me.0.start.machine turn.new.machine turn.new.place.me.0.seen }
        ensures noted { turn.new.place.me ≡ (noting turn.old.place.me.0 (called kind.Release done.entry turn.old.seat), turn.old.place.me.1) }
        ensures became { EndsWith (history_of (token_of self.now.desk turn.new.place.me.0)) (event_of kind.Release done.entry turn.old.seat ∷ [])
            (λ before. TellsReady (asks_of W.meaning (plan_of (token_of self.now.desk turn.new.place.me.0))) before (history_of (token_of self.now.desk turn.new.place.me.0)) result) }
    {
        legal_histories_grow::<W>();
        legal_histories_tell::<W>();
        let _ = turn.machine.history();
        let released = Event {
            kind: EventKind::Release,
            entry: done.entry(),
            seat: turn.seat,
        };
        let became = turn.machine.release(turn.seat, done);
        self.note_called(&mut turn.place, &turn.machine, released);
        became
    }
}
