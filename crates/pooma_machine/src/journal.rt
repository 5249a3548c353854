ghost use Rattle.std.specs.Prelude.{◌≡◌, ◌<◌, [], All, IfOk, IfSome, OnOk, OnErr, length, map, take, slice_get};
ghost use Rattle.pooma_machine.specs.Journal.{entry_of};
ghost use Rattle.pooma_machine.specs.Steps.{IsRequestList};

use crate::machine::Machine;
use crate::step::{Event, Request};
use crate::work::Work;
use smallvec::SmallVec;
use std::alloc::{AllocError, Global};
use std::marker::Model;

/// A list of requests. Up to eight take no memory of their own.
#[derive(Drop)]
pub struct RequestList {
    requests: SmallVec<Request, 8>,
}

impl Model for RequestList {
    ghost use Rattle.std.specs.Prelude.{List};
    ghost use Rattle.pooma_machine.specs.declared.step.Request.{Request};

    ghost Value = { List Request };

    ghost view = { λ l. l.requests.items };
}

impl RequestList {
    /// A list of these requests.
    pub fn from_slice(alloc: Global, requests: &[Request]) -> Result<RequestList, AllocError>
        ensures { IfOk result (λ list. list ≡ requests.now) }
    {
        Ok(RequestList {
            requests: SmallVec::from_slice(alloc, requests)?,
        })
    }

    /// The requests in order.
    pub fn as_slice(&self) -> &[Request]
        ensures { result.now ≡ self.now }
    {
        self.requests.as_slice()
    }
}

/// An entry, as a journal tells it.
#[derive(Drop)]
pub struct Entry {
    /// The number of the statement that its work is a part of.
    pub statement: u32,
    /// What it asked for.
    pub requests: RequestList,
}

// What is kept of a window.
#[derive(Drop)]
struct Told {
    entries: Vec<Entry>,
    events: Vec<Event>,
}

impl Model for Told {
    ghost use Rattle.std.specs.Prelude.{All};
    ghost use Rattle.pooma_machine.specs.Steps.{IsRequestList};
    ghost use Rattle.pooma_machine.specs.Told.{Window};

    ghost Value = { Window };

    ghost view = { λ t. record { entries = t.entries.items; events = t.events.items } };

    ghost invariant = { λ t. All (λ entry. IsRequestList entry.requests) t.entries.items };
}

/// What is told of each window, once all its entries were released.
pub trait Journal<W: Work> {
    ghost use Rattle.std.specs.Prelude.{List, Option};
    ghost use Rattle.pooma_machine.specs.Told.{Window};
    ghost use Rattle.pooma_machine.specs.Journal.{Tells, window_of};
    ghost use Rattle.pooma_machine.specs.Values.{IsComplete};

    /// The windows told so far, where the journal tells them.
    ghost told: { Self → Option (List Window) };

    /// Tells the machine's entries and its history as one window more. Only want of memory refuses it, and adds none.
    fn window(&mut self, alloc: Global, machine: &Machine<W>) -> Result<(), AllocError>
        requires { IsComplete machine.now.plan machine.now.history }
        ensures ok { OnOk result (Tells (told self.old) (told self.new) (window_of W.meaning machine.now.plan machine.now.history)) }
        ensures err { OnErr result (told self.new ≡ told self.old) };
}

/// A journal that keeps nothing.
#[derive(Clone, Copy, Debug)]
pub struct NoJournal;

impl<W: Work> Journal<W> for NoJournal {
    ghost use Rattle.std.specs.Prelude.{None, IsOk};

    ghost told = { λ j. None };

    /// Tells nothing, and always answers Ok.
    fn window(&mut self, _alloc: Global, _machine: &Machine<W>) -> Result<(), AllocError>
        ensures { IsOk result }
    {
        Ok(())
    }
}

/// A journal that keeps every window. Contracts see it as the list of them.
#[derive(Drop)]
pub struct ListJournal {
    windows: Vec<Told>,
}

impl Model for ListJournal {
    ghost use Rattle.std.specs.Prelude.{List};
    ghost use Rattle.pooma_machine.specs.Told.{Window};

    ghost Value = { List Window };

    ghost view = { λ j. j.windows.items };
}

impl ListJournal {
    /// A journal with no windows. It takes no memory.
    pub fn new(alloc: Global) -> ListJournal
        ensures { result ≡ [] }
    {
        ListJournal {
            windows: Vec::new(alloc),
        }
    }

    /// How many windows were told.
    pub fn windows(&self) -> usize
        ensures { result ≡ length self.now }
    {
        self.windows.len()
    }

    /// The entries of a window. What each asked for is as a work's requests are: ascending by object, one request for each
    /// object, at most one of them to write.
    pub fn entries(&self, w: usize) -> &[Entry]
        requires { w < length self.now }
        ensures entries { IfSome (slice_get self.now w) (λ window. result.now ≡ window.entries) }
        ensures form { All (λ entry. IsRequestList entry.requests) result.now }
    {
        &self.windows[w].entries
    }

    /// The events of a window.
    pub fn events(&self, w: usize) -> &[Event]
        requires { w < length self.now }
        ensures { IfSome (slice_get self.now w) (λ window. result.now ≡ window.events) }
    {
        &self.windows[w].events
    }
}

impl<W: Work> Journal<W> for ListJournal {
    ghost use Rattle.std.specs.Prelude.{Some};

    ghost told = { λ j. Some j };

    fn window(&mut self, alloc: Global, machine: &Machine<W>) -> Result<(), AllocError> {
        let told = Told {
            entries: entries_of(alloc, machine)?,
            events: Vec::from_slice(alloc, machine.history())?,
        };
        self.windows.push(told)?;
        Ok(())
    }
}

// What is told of a machine's entries.
fn entries_of<W: Work>(alloc: Global, machine: &Machine<W>) -> Result<Vec<Entry>, AllocError>
    ensures entries { IfOk result (λ entries. entries.items ≡ map (entry_of W.meaning) machine.now.plan) }
    ensures form { IfOk result (λ entries. All (λ entry. IsRequestList entry.requests) entries.items) }
{
    let mut entries = Vec::new(alloc);
    for j in 0..machine.issued() {
        let work = machine.work(j);
        entries.push(Entry {
            statement: work.statement(),
            requests: RequestList::from_slice(alloc, work.requests())?,
        })?;
    }
    Ok(entries)
}
