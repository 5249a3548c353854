ghost use Rattle.std.specs.Prelude.{◌≡◌, ◌↔◌, ◌+◌, ◌-◌, ◌^◌, ◌<◌, ◌≤◌, ℕ, [], ◌∷◌, ◌++◌, Err, slice_get, Some, All, IfOk, OnOk, OnErr, IfErr, IsOk, IsTrue, IfSome, MatchOption, IsOkUnless, is_some, length, map, option_copied};
ghost use Rattle.std.specs.Arc.{arc_value};
ghost use Rattle.pooma_machine.specs.Steps.{Conflict, NoneOut, IsLeastUnreleased, IsLeastReady, IsLeastReadyFor, IsReady, IsReadyFor, IsHeldBack, IsDispatchedAt, IsLegal, NothingBlocks, is_out, is_released, issued, status_of, event_of};
ghost use Rattle.pooma_machine.specs.Values.{asks_of, values, IsComplete};
ghost use Rattle.pooma_machine.specs.Slots.{contents};
ghost use Rattle.pooma_machine.specs.Counts.{IsCount};
ghost use Rattle.pooma_machine.specs.Became.{BecameReady, TellsReady};

use crate::became::Became;
use crate::loan::{Done, Loan};
use crate::objects::Objects;
use crate::refusal::DispatchError;
use crate::step::Event;
use crate::table::Table;
use crate::work::Work;
use std::alloc::{AllocError, Global};
use std::marker::Model;
use std::snapshot::Snapshot;
use std::sync::Arc;

/// Entries over numbered objects: each is requested, dispatched once nothing earlier conflicts with it, and released.
///
/// Contracts see a machine as the works of its entries, the objects' contents before the first event, the history, and the
/// number of further entries for which there surely is room. The objects' present contents and the outcomes are the
/// `values` that these give.
#[derive(Drop)]
pub struct Machine<W: Work> {
    table: Table<W>,
    objects: Objects<W>,
    outcomes: Vec<Option<W::Outcome>>,
    opening: Snapshot<Vec<Arc<W::Value>>>,
}

impl<W: Work> Model for Machine<W> {
    ghost use Rattle.std.specs.Prelude.{◌≡◌, ◌+◌, ◌≤◌, length, vec_capacity};
    ghost use Rattle.pooma_machine.specs.Values.{Account};
    ghost use Rattle.pooma_machine.specs.Slots.{contents};
    ghost use Rattle.pooma_machine.specs.Machine.{Matches};

    ghost Value = { Account W W.Content };

    ghost view = { λ m. record { plan = m.table.plan; opening = contents W.content m.opening.value.items; history = m.table.history; spare = m.table.spare } };

    ghost invariant = { λ m. Matches W.meaning m.table.plan (contents W.content m.opening.value.items) m.table.history m.objects m.outcomes.items × (m.table.objects ≡ length m.objects) × (length m.table.plan + m.table.spare ≤ vec_capacity m.outcomes) };
}

impl<W: Work> Machine<W> {
    ghost use Rattle.pooma_machine.specs.declared.step.EventKind.TheVariants as kind;
    ghost use Rattle.pooma_machine.specs.declared.refusal.DispatchError.{DispatchError};
    ghost use Rattle.pooma_machine.specs.Machine.{FitsShapes};
    ghost use Rattle.pooma_machine.specs.Causes.{Explains};

    /// A machine of no entries and no spare room, with objects of these values. Only want of memory refuses it, and hands
    /// them back.
    pub fn new(alloc: Global, objects: Vec<Arc<W::Value>>) -> Result<Machine<W>, Vec<Arc<W::Value>>>
        ensures plan { IfOk result (λ machine. machine.plan ≡ []) }
        ensures opening { IfOk result (λ machine. machine.opening ≡ contents W.content objects.items) }
        ensures history { IfOk result (λ machine. machine.history ≡ []) }
        ensures spare { IfOk result (λ machine. machine.spare ≡ 0) }
        ensures given_back { IfErr result (λ given. given.items ≡ objects.items) }
    {
        let opening = Snapshot::of(&objects);
        let table = match Table::new(alloc, objects.len()) {
            Ok(table) => table,
            Err(_) => return Err(objects),
        };
        Ok(Machine {
            table,
            objects: Objects::new(alloc, objects)?,
            outcomes: Vec::new(alloc),
            opening,
        })
    }

    /// The objects by number, once every entry was released. After want of memory the machine and its values are given up.
    pub fn finish(self, alloc: Global) -> Result<Vec<Arc<W::Value>>, AllocError>
        requires { IsComplete self.plan self.history }
        ensures { IfOk result (λ objects. contents W.content objects.items ≡ (values W.meaning self.plan self.opening self.history).objects) }
    {
        self.objects.into_values(alloc)
    }

    /// Makes spare room for at least so many further entries. It takes room for a request of each in the queue of each
    /// object, so it is meant for few objects. Nothing else changes, also where memory is short.
    pub fn reserve(&mut self, alloc: Global, entries: u32) -> Result<(), AllocError>
        ensures ok { OnOk result (entries ≤ self.new.spare) }
        ensures spare { self.old.spare ≤ self.new.spare }
        ensures plan { self.new.plan ≡ self.old.plan }
        ensures opening { self.new.opening ≡ self.old.opening }
        ensures history { self.new.history ≡ self.old.history }
    {
        self.outcomes.reserve(entries as usize)?;
        self.table.reserve(alloc, entries)
    }

    /// Issues the next entry, and answers its number. The machine and the entry's loan share the work. Only want of memory
    /// refuses it, never while there is spare room; then the machine is as before, and the work is handed back.
    pub fn request(&mut self, alloc: Global, seat: u32, work: Arc<W>) -> Result<u32, Arc<W>>
        requires objects { All (λ r. r.object < length self.old.opening) (W.meaning.requests (arc_value work)) }
        requires fits { FitsShapes W.meaning (map W.meaning.shape self.old.opening) (arc_value work) }
        requires fewer { length self.old.plan + 1 < 2 ^ 32 }
        ensures entry { IfOk result (λ entry. entry ≡ length self.old.plan) }
        ensures plan { OnOk result (self.new.plan ≡ self.old.plan ++ arc_value work ∷ []) }
        ensures history { OnOk result (self.new.history ≡ self.old.history ++ event_of kind.Request (length self.old.plan) seat ∷ []) }
        ensures opening { self.new.opening ≡ self.old.opening }
        ensures spare { OnOk result (self.new.spare ≡ self.old.spare - 1) }
        ensures succeeds { 0 < self.old.spare → IsOk result }
        ensures err { OnErr result (self.new ≡ self.old) }
        ensures given_back { IfErr result (λ given. arc_value given ≡ arc_value work) }
    {
        let Ok(()) = self.outcomes.reserve(1) else {
            return Err(work);
        };
        let entry = self.table.request(alloc, seat, work)?;
        self.outcomes.push_reserved(None);
        Ok(entry)
    }

    /// Lends the entry what it asked for, at this seat. It is refused where the entry was dispatched before, then where an
    /// earlier entry holds it back, and then for want of memory; the machine is then as before. The value that is to be
    /// written is copied only where another owner still shares it, and then made ready.
    pub fn dispatch(&mut self, alloc: Global, seat: u32, j: u32) -> Result<Loan<W>, DispatchError>
        requires { j < length self.old.plan }
        // Each answer comes exactly where it is said here, but for want of memory.
        ensures ready { OnOk result (IsReady (asks_of W.meaning self.old.plan) self.old.history j) }
        ensures refused { IfErr result (Explains (asks_of W.meaning self.old.plan) self.old.history j) }
        ensures already { (at : ℕ) → IsDispatchedAt self.old.history j at → result ≡ Err (DispatchError.Already at) }
        ensures not_ready { (object by : ℕ) → IsHeldBack (asks_of W.meaning self.old.plan) self.old.history j object by → result ≡ Err (DispatchError.NotReady object by) }

        // An entry that may be dispatched is, unless memory is short.
        ensures succeeds { IsReady (asks_of W.meaning self.old.plan) self.old.history j → IsOkUnless result DispatchError.OutOfMemory }

        // Where none is out, nothing holds the least unreleased entry back.
        ensures progress { NoneOut self.old.history → IsLeastUnreleased (length self.old.plan) self.old.history j → IsOkUnless result DispatchError.OutOfMemory }

        // The dispatch is the next event, and nothing else changes.
        ensures history { OnOk result (self.new.history ≡ self.old.history ++ event_of kind.Dispatch j seat ∷ []) }
        ensures plan { self.new.plan ≡ self.old.plan }
        ensures opening { self.new.opening ≡ self.old.opening }
        ensures spare { self.new.spare ≡ self.old.spare }
        ensures err { OnErr result (self.new ≡ self.old) }

        // The loan has the entry's work and the present contents of its objects.
        ensures out { OnOk result (IsTrue (is_out (status_of self.new.history j))) }
        ensures entry { IfOk result (λ loan. loan.entry ≡ j) }
        ensures work { IfOk result (λ loan. slice_get self.old.plan j ≡ Some loan.work) }
        ensures lent { IfOk result (λ loan. loan.lent ≡ (values W.meaning self.new.plan self.new.opening self.new.history).lent j) }
    {
        self.table.check(j)?;
        let Ok(loan) = self.objects.lend(alloc, j, self.table.shared_work(j)) else {
            return Err(DispatchError::OutOfMemory);
        };
        self.table.dispatch(seat, j);
        Ok(loan)
    }

    /// Takes back what this machine lent to an entry that is out: the object that its work writes has the new value, and the
    /// outcome is kept. It answers which entries became ready by it; each of them conflicts with the released one. It takes no
    /// memory, and can't be refused.
    pub fn release(&mut self, seat: u32, done: Done<W>) -> Became
        requires out { IsTrue (is_out (status_of self.old.history done.entry)) }
        requires work { slice_get self.old.plan done.entry ≡ Some done.work }
        requires lent { done.lent ≡ (values W.meaning self.old.plan self.old.opening self.old.history).lent done.entry }
        ensures history { self.new.history ≡ self.old.history ++ event_of kind.Release done.entry seat ∷ [] }
        ensures plan { self.new.plan ≡ self.old.plan }
        ensures opening { self.new.opening ≡ self.old.opening }
        ensures spare { self.new.spare ≡ self.old.spare }
        ensures became { TellsReady (asks_of W.meaning self.old.plan) self.old.history self.new.history result }
        ensures freed { (c : ℕ) → BecameReady (asks_of W.meaning self.old.plan) self.old.history self.new.history c → Conflict (asks_of W.meaning self.old.plan) done.entry c }
    {
        let j = done.entry();
        let (work, value, outcome) = done.kept();
        let became = self.table.release(seat, j);
        self.objects.give_back(work.requests(), value);
        self.outcomes[j as usize] = Some(outcome);
        became
    }

    /// What has happened so far. It is legal, and has issued the entries of the plan and no others.
    pub fn history(&self) -> &[Event]
        ensures events { result.now ≡ self.now.history }
        ensures legal { IsLegal (asks_of W.meaning self.now.plan) self.now.history }
        ensures issued { issued self.now.history ≡ length self.now.plan }
    {
        self.table.history()
    }

    /// Whether every entry was released.
    pub fn all_released(&self) -> bool
        ensures { IsTrue result ↔ IsComplete self.now.plan self.now.history }
    {
        self.table.least_unreleased().is_none()
    }

    /// The least entry that was not released. None exactly where each was.
    pub fn least_unreleased(&self) -> Option<u32>
        ensures { MatchOption result (IsComplete self.now.plan self.now.history) (IsLeastUnreleased (length self.now.plan) self.now.history) }
    {
        self.table.least_unreleased()
    }

    /// The least entry not below `from` that is waiting and that no earlier entry holds back. None exactly where there is none.
    pub fn ready_from(&self, from: u32) -> Option<u32>
        ensures there { IfSome result (λ j. j < length self.now.plan) }
        ensures least { MatchOption result ((j : ℕ) → from ≤ j → IsReady (asks_of W.meaning self.now.plan) self.now.history j → ⊥) (IsLeastReady (asks_of W.meaning self.now.plan) self.now.history from) }
    {
        self.table.ready_from(from)
    }

    /// The least entry not below `from` that asks for this object, is waiting, and that no earlier entry holds back. None exactly
    /// where there is none. It looks only at requests of this object, and only at those that no open write stands before.
    pub fn ready_for(&self, object: u32, from: u32) -> Option<u32>
        requires { object < length self.now.opening }
        ensures there { IfSome result (λ j. j < length self.now.plan) }
        ensures least { MatchOption result ((j : ℕ) → from ≤ j → IsReadyFor (asks_of W.meaning self.now.plan) self.now.history object j → ⊥) (IsLeastReadyFor (asks_of W.meaning self.now.plan) self.now.history object from) }
    {
        self.table.ready_for(object, from)
    }

    /// How many pairs there are of an earlier entry that was not released and an object over which the two conflict. An entry
    /// that is waiting may be dispatched exactly where there is none. It takes a binary search for each object that the entry
    /// asks for, and no memory.
    pub fn count(&self, j: u32) -> u64
        requires { j < length self.now.plan }
        ensures pairs { IsCount (asks_of W.meaning self.now.plan) self.now.history j result }
        ensures none { (result ≡ 0) ↔ NothingBlocks (asks_of W.meaning self.now.plan) self.now.history j }
    {
        self.table.count(j)
    }

    /// How many entries were issued.
    pub fn issued(&self) -> u32
        ensures { result ≡ length self.now.plan }
    {
        self.table.issued()
    }

    /// The work of an entry. It asks for objects that are there.
    pub fn work(&self, j: u32) -> &W
        requires { j < length self.now.plan }
        ensures work { slice_get self.now.plan j ≡ Some result.now }
        ensures objects { All (λ r. r.object < length self.now.opening) (W.meaning.requests result.now) }
    {
        self.table.work(j)
    }

    /// What the entry's work answered. None exactly where it is not released, or was not issued.
    pub fn outcome(&self, j: u32) -> Option<&W::Outcome>
        ensures value { option_copied result ≡ (values W.meaning self.now.plan self.now.opening self.now.history).outcome j }
        ensures released { is_some result ≡ is_released (status_of self.now.history j) }
    {
        self.outcomes.get(j as usize)?.as_ref()
    }
}
