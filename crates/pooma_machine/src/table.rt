ghost use Rattle.std.specs.Prelude.{◌≡◌, ◌↔◌, ◌⊎◌, ◌+◌, ◌-◌, ◌*◌, ◌^◌, ◌<◌, ◌≤◌, ℕ, List, [], ◌∷◌, ◌++◌, Some, None, slice_get, All, Contains, IfOk, OnOk, OnErr, IsOk, IfErr, IsTrue, true, IfSome, MatchOption, length, vec_len, vec_capacity};
ghost use Rattle.std.specs.Arc.{arc_value};
ghost use Rattle.pooma_machine.specs.Steps.{IsRequestList, Conflict, IsLeastUnreleased, IsLeastReady, IsLeastReadyFor, IsReady, IsReadyFor, IsHeldBack, IsDispatchedAt, IsLegal, AsksFor, is_out, status_of, event_of};
ghost use Rattle.pooma_machine.specs.Values.{asks_of, IsComplete};
ghost use Rattle.pooma_machine.specs.Kept.{Schedule, first_open};
ghost use Rattle.pooma_queue.specs.Requests.{IsInOrder, OnlyLastWrites, holds_back};
ghost use Rattle.pooma_queue.specs.declared.queue.Asked.{Asked};
ghost use Rattle.pooma_machine.specs.Counts.{IsCount};
ghost use Rattle.pooma_machine.specs.Became.{BecameReady, IsListOf, IsFreed, IsFreedBy, IsFreedOver, Names, Notes, TellsReady};

use crate::became::Became;
use crate::lines::{Holder, Lines};
use crate::refusal::DispatchError;
use crate::step::{Event, EventKind, Request, Status};
use crate::work::Work;
use pooma_queue::{Asked, Mode};
use std::alloc::{AllocError, Global};
use std::marker::Model;
use std::sync::Arc;

// The entries of a machine, where each stands, and the queues of the objects.
#[derive(Drop)]
pub(crate) struct Table<W: Work> {
    works: Vec<Arc<W>>,
    statuses: Vec<Status>,
    lines: Lines,
    history: Vec<Event>,
    // The least entry that was not released, so that no call walks over those before it.
    first: usize,
    spare: u32,
}

impl<W: Work> Model for Table<W> {
    ghost use Rattle.std.specs.Prelude.{◌≡◌, ◌<◌, ◌^◌, map, length, vec_capacity};
    ghost use Rattle.std.specs.Arc.{arc_value};
    ghost use Rattle.pooma_machine.specs.Values.{asks_of};
    ghost use Rattle.pooma_machine.specs.Kept.{IsKept, HasRoom, Schedule, first_open};

    ghost Value = { Schedule W };

    ghost view = { λ t. record { plan = map arc_value t.works.items; history = t.history.items; objects = length t.lines; spare = t.spare } };

    ghost invariant = { λ t. IsKept (asks_of W.meaning (map arc_value t.works.items)) t.history.items t.statuses.items t.lines × HasRoom (length t.works.items) (length t.history.items) t.statuses.items t.lines t.spare (vec_capacity t.works) (vec_capacity t.statuses) (vec_capacity t.history) × (length t.works.items < 2 ^ 32) × (t.first ≡ first_open t.statuses.items) };
}

impl<W: Work> Table<W> {
    ghost use Rattle.pooma_machine.specs.declared.step.EventKind.TheVariants as kind;
    ghost use Rattle.pooma_machine.specs.Causes.{Explains};

    /// A table of no entries over so many objects.
    pub(crate) fn new(alloc: Global, objects: usize) -> Result<Table<W>, AllocError>
        ensures plan { IfOk result (λ table. table.plan ≡ []) }
        ensures history { IfOk result (λ table. table.history ≡ []) }
        ensures objects { IfOk result (λ table. table.objects ≡ objects) }
        ensures spare { IfOk result (λ table. table.spare ≡ 0) }
    {
        Ok(Table {
            works: Vec::new(alloc),
            statuses: Vec::new(alloc),
            lines: Lines::new(alloc, objects)?,
            history: Vec::new(alloc),
            first: 0,
            spare: 0,
        })
    }

    /// Makes room for so many further entries.
    pub(crate) fn reserve(&mut self, alloc: Global, entries: u32) -> Result<(), AllocError>
        ensures ok { OnOk result (entries ≤ self.new.spare) }
        ensures spare { self.old.spare ≤ self.new.spare }
        ensures most { (self.new.spare ≡ self.old.spare) ⊎ (self.new.spare ≡ entries) }
        ensures plan { self.new.plan ≡ self.old.plan }
        ensures history { self.new.history ≡ self.old.history }
        ensures objects { self.new.objects ≡ self.old.objects }
    {
        let n = entries as usize;
        room_for(
            alloc,
            &mut self.works,
            &mut self.statuses,
            &mut self.history,
            n,
        )?;
        self.lines.reserve(alloc, n)?;
        self.spare = self.spare.max(entries);
        Ok(())
    }

    /// The work of the entry, which its loan is to share.
    pub(crate) fn shared_work(&self, j: u32) -> &Arc<W>
        requires { j < length self.now.plan }
        ensures { slice_get self.now.plan j ≡ Some (arc_value result.now) }
    {
        &self.works[j as usize]
    }

    /// The work of the entry.
    pub(crate) fn work(&self, j: u32) -> &W
        requires { j < length self.now.plan }
        ensures { slice_get self.now.plan j ≡ Some result.now }
    {
        &self.works[j as usize]
    }

    /// How many entries were issued.
    pub(crate) fn issued(&self) -> u32
        ensures count { result ≡ length self.now.plan }
        ensures ended { (j : ℕ) → length self.now.plan ≤ j → status_of self.now.history j ≡ None }
    {
        self.works.len() as u32
    }

    /// What has happened.
    pub(crate) fn history(&self) -> &[Event]
        ensures { result.now ≡ self.now.history }
    {
        &self.history
    }

    /// Issues the next entry. Only want of memory refuses it, never while there is spare room; then all is as before, and the
    /// work is handed back.
    pub(crate) fn request(&mut self, alloc: Global, seat: u32, work: Arc<W>) -> Result<u32, Arc<W>>
        requires objects { All (λ r. r.object < self.old.objects) (W.meaning.requests (arc_value work)) }
        requires fewer { length self.old.plan + 1 < 2 ^ 32 }
        ensures entry { IfOk result (λ entry. entry ≡ length self.old.plan) }
        ensures form { OnOk result (IsRequestList (W.meaning.requests (arc_value work))) }
        ensures plan { OnOk result (self.new.plan ≡ self.old.plan ++ arc_value work ∷ []) }
        ensures history { OnOk result (self.new.history ≡ self.old.history ++ event_of kind.Request (length self.old.plan) seat ∷ []) }
        ensures objects { self.new.objects ≡ self.old.objects }
        ensures spare { OnOk result (self.new.spare ≡ self.old.spare - 1) }
        ensures succeeds { 0 < self.old.spare → IsOk result }
        ensures err { OnErr result (self.new ≡ self.old) }
        ensures given_back { IfErr result (λ given. arc_value given ≡ arc_value work) }
    {
        let Ok(()) = room_for(
            alloc,
            &mut self.works,
            &mut self.statuses,
            &mut self.history,
            1,
        ) else {
            return Err(work);
        };
        let Ok(()) = self.lines.make_room(alloc, work.requests()) else {
            return Err(work);
        };
        let entry = self.works.len() as u32;
        self.lines.enter(alloc, entry, work.requests());
        self.works.push_reserved(work);
        self.statuses.push_reserved(Status::Waiting);
        self.history.push_reserved(Event {
            kind: EventKind::Request,
            entry,
            seat,
        });
        self.spare = self.spare.saturating_sub(1);
        Ok(entry)
    }

    /// The least entry that was not released. None exactly where each was.
    pub(crate) fn least_unreleased(&self) -> Option<u32>
        ensures { MatchOption result (IsComplete self.now.plan self.now.history) (IsLeastUnreleased (length self.now.plan) self.now.history) }
    {
        if self.first < self.statuses.len() {
            Some(self.first as u32)
        } else {
            None
        }
    }

    /// The least entry not below `from` that may be dispatched. None exactly where there is none.
    pub(crate) fn ready_from(&self, from: u32) -> Option<u32>
        ensures there { IfSome result (λ j. j < length self.now.plan) }
        ensures least { MatchOption result ((j : ℕ) → from ≤ j → IsReady (asks_of W.meaning self.now.plan) self.now.history j → ⊥) (IsLeastReady (asks_of W.meaning self.now.plan) self.now.history from) }
    {
        let entries = self.issued();
        let first = self.least_unreleased()?;
        for j in from.max(first)..entries {
            if self.check(j).is_ok() {
                return Some(j);
            }
        }
        None
    }

    /// The least entry not below `from` that may be dispatched and asks for this object. None exactly where there is none.
    pub(crate) fn ready_for(&self, object: u32, from: u32) -> Option<u32>
        requires { object < self.now.objects }
        ensures there { IfSome result (λ j. j < length self.now.plan) }
        ensures least { MatchOption result ((j : ℕ) → from ≤ j → IsReadyFor (asks_of W.meaning self.now.plan) self.now.history object j → ⊥) (IsLeastReadyFor (asks_of W.meaning self.now.plan) self.now.history object from) }
    {
        for asked in not_earlier_than(self.lines.front(object), from) {
            if self.check(asked.entry).is_ok() {
                return Some(asked.entry);
            }
        }
        None
    }

    /// Whether the entry may be dispatched, and why not.
    pub(crate) fn check(&self, j: u32) -> Result<(), DispatchError>
        requires { j < length self.now.plan }
        ensures ready { OnOk result (IsReady (asks_of W.meaning self.now.plan) self.now.history j) }
        ensures succeeds { IsReady (asks_of W.meaning self.now.plan) self.now.history j → IsOk result }
        ensures refused { IfErr result (Explains (asks_of W.meaning self.now.plan) self.now.history j) }
    {
        if let Some(seat) = self.statuses[j as usize].seat() {
            return Err(DispatchError::Already { seat });
        }
        match self.lines.held(j, self.works[j as usize].requests()) {
            Some(Holder { object, by }) => Err(DispatchError::NotReady { object, by }),
            None => Ok(()),
        }
    }

    /// How many pairs of an earlier unreleased entry and an object over which the two conflict hold this entry back.
    pub(crate) fn count(&self, j: u32) -> u64
        requires { j < length self.now.plan }
        ensures { IsCount (asks_of W.meaning self.now.plan) self.now.history j result }
    {
        self.lines.count(j, self.works[j as usize].requests())
    }

    /// Notes the dispatch of an entry that may be dispatched.
    pub(crate) fn dispatch(&mut self, seat: u32, j: u32)
        requires within { j < length self.old.plan }
        requires ready { IsReady (asks_of W.meaning self.old.plan) self.old.history j }
        ensures plan { self.new.plan ≡ self.old.plan }
        ensures objects { self.new.objects ≡ self.old.objects }
        ensures spare { self.new.spare ≡ self.old.spare }
        ensures history { self.new.history ≡ self.old.history ++ event_of kind.Dispatch j seat ∷ [] }
    {
        self.statuses[j as usize] = Status::Out(seat);
        self.history.push_reserved(Event {
            kind: EventKind::Dispatch,
            entry: j,
            seat,
        });
    }

    /// Notes the release of an entry that is out, and tells which entries became ready by it.
    pub(crate) fn release(&mut self, seat: u32, j: u32) -> Became
        requires within { j < length self.old.plan }
        requires out { IsTrue (is_out (status_of self.old.history j)) }
        ensures plan { self.new.plan ≡ self.old.plan }
        ensures objects { self.new.objects ≡ self.old.objects }
        ensures spare { self.new.spare ≡ self.old.spare }
        ensures history { self.new.history ≡ self.old.history ++ event_of kind.Release j seat ∷ [] }
        ensures became { TellsReady (asks_of W.meaning self.old.plan) self.old.history self.new.history result }
        ensures freed { (c : ℕ) → BecameReady (asks_of W.meaning self.old.plan) self.old.history self.new.history c → Conflict (asks_of W.meaning self.old.plan) j c }
    {
        self.mark_released(seat, j);
        self.freed_by(j)
    }

    // The entries that may be dispatched now, and that waited for entry j.
    fn freed_by(&self, j: u32) -> Became
        requires { j < length self.now.plan }
        ensures { (whole : List ℕ) × IsListOf (IsFreedBy (asks_of W.meaning self.now.plan) self.now.history j) whole × Names result whole }
    {
        let mut became = Became::none();
        for request in self.works[j as usize].requests() {
            self.note_freed(j, *request, &mut became);
        }
        became
    }

    // Notes the entries that are freed over the object of this request of the released entry.
    fn note_freed(&self, j: u32, request: Request, became: &mut Became)
        requires { AsksFor (asks_of W.meaning self.now.plan) j request.object request.mode }
        ensures { Notes (IsFreedOver (asks_of W.meaning self.now.plan) self.now.history j request.object) became.old became.new }
    {
        for asked in held_back(self.lines.front(request.object), request.mode) {
            if self.is_freed(j, request.mode, *asked) {
                became.note(asked.entry);
            }
        }
    }

    // Whether what is asked for here conflicts with an earlier request of entry j in this mode, and may be had now.
    fn is_freed(&self, j: u32, mode: Mode, asked: Asked) -> bool
        requires { asked.entry < length self.now.plan }
        ensures { IsTrue result ↔ IsFreed (asks_of W.meaning self.now.plan) self.now.history j mode asked }
    {
        asked.entry > j && asked.mode.conflicts(mode) && self.check(asked.entry).is_ok()
    }

    // Marks an entry that is out as released.
    fn mark_released(&mut self, seat: u32, j: u32)
        requires within { j < length self.old.plan }
        requires out { IsTrue (is_out (status_of self.old.history j)) }
        ensures plan { self.new.plan ≡ self.old.plan }
        ensures objects { self.new.objects ≡ self.old.objects }
        ensures spare { self.new.spare ≡ self.old.spare }
        ensures history { self.new.history ≡ self.old.history ++ event_of kind.Release j seat ∷ [] }
    {
        self.lines.let_go(j, self.works[j as usize].requests());
        self.statuses[j as usize].release();
        self.first = first_unreleased(&self.statuses, self.first);
        self.history.push_reserved(Event {
            kind: EventKind::Release,
            entry: j,
            seat,
        });
    }
}

// Those of a front that a request in this mode may have held back. One to read held back only those to write, and of these
// the last alone may be open, so that releases of many reads do not walk over one another.
fn held_back(front: &[Asked], mode: Mode) -> &[Asked]
    requires { OnlyLastWrites front.now }
    ensures of_these { (asked : Asked) → Contains result.now asked → Contains front.now asked }
    ensures all { (asked : Asked) → Contains front.now asked → holds_back mode asked ≡ true → Contains result.now asked }
{
    match mode {
        Mode::Read => &front[front.len().saturating_sub(1)..],
        Mode::Write => front,
    }
}

// The requests of this entry and those behind it: they stand behind the others.
fn not_earlier_than(requests: &[Asked], entry: u32) -> &[Asked]
    requires { IsInOrder requests.now }
    ensures order { IsInOrder result.now }
    ensures of_these { (asked : Asked) → Contains result.now asked → Contains requests.now asked × (entry ≤ asked.entry) }
    ensures all { (asked : Asked) → Contains requests.now asked → entry ≤ asked.entry → Contains result.now asked }
{
    &requests[requests.partition_point(|asked| asked.entry < entry)..]
}

// The first place whose status is not released, not before `from`.
fn first_unreleased(statuses: &[Status], from: usize) -> usize
    requires { from ≤ first_open statuses.now }
    ensures { result ≡ first_open statuses.now }
{
    let mut first = from;
    while first < statuses.len() && statuses[first].is_released() {
        first += 1;
    }
    first
}

// Makes room for so many further entries and all their events.
fn room_for<T>(
    _alloc: Global,
    works: &mut Vec<T>,
    statuses: &mut Vec<Status>,
    history: &mut Vec<Event>,
    n: usize,
) -> Result<(), AllocError>
    requires few { length works.old.items + n < 2 ^ 33 }
    requires events { length history.old.items ≤ 3 * length works.old.items }
    ensures works { works.new.items ≡ works.old.items }
    ensures statuses { statuses.new.items ≡ statuses.old.items }
    ensures history { history.new.items ≡ history.old.items }
    ensures rooms { (vec_capacity works.old ≤ vec_capacity works.new) × (vec_capacity statuses.old ≤ vec_capacity statuses.new) × (vec_capacity history.old ≤ vec_capacity history.new) }
    ensures ok { OnOk result ((vec_len works.old + n ≤ vec_capacity works.new) × (vec_len statuses.old + n ≤ vec_capacity statuses.new) × (3 * (vec_len works.old + n) ≤ vec_capacity history.new)) }
    ensures succeeds { vec_len works.old + n ≤ vec_capacity works.old → vec_len statuses.old + n ≤ vec_capacity statuses.old → 3 * (vec_len works.old + n) ≤ vec_capacity history.old → IsOk result }
{
    let events = 3 * (works.len() + n) - history.len();
    works.reserve(n)?;
    statuses.reserve(n)?;
    history.reserve(events)
}
