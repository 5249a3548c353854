ghost use Rattle.std.specs.List.{prefix_len};
ghost use Rattle.pooma_queue.specs.Requests.{first_holding, holds_back, IsInOrder};
ghost use Rattle.pooma_queue.specs.declared.queue.Asked.{Asked};
ghost use Rattle.std.specs.Prelude.{◌≡◌, ◌↔◌, ◌+◌, ◌-◌, ◌^◌, ◌<◌, ◌≤◌, ℕ, [], ◌∷◌, ◌++◌, false, cond, min, nat_lt, length, map, take, drop, All, Contains, IsTrue, IsOk, IfOk, OnOk, OnErr, IfSome, IsNone, slice_get, slice_set, option_map};

use std::alloc::{AllocError, Global};
use std::marker::Model;

/// How an entry asks for an object.
#[derive(Clone, Copy, Debug, Default, PartialEq, Eq)]
pub enum Mode {
    /// To look at its value beside others.
    #[default]
    Read,
    /// To give it a new value, alone.
    Write,
}

impl Mode {
    ghost use Rattle.pooma_queue.specs.Requests.{conflicts};

    /// Whether requests of one object in these two modes conflict: at least one of them is to write.
    pub fn conflicts(self, other: Mode) -> bool
        ensures { result ≡ conflicts self other }
    {
        self == Mode::Write || other == Mode::Write
    }
}

/// One request of an object.
#[derive(Clone, Copy, Debug, PartialEq, Eq)]
pub struct Asked {
    /// The number of the entry that asks.
    pub entry: u32,
    /// What it asks for.
    pub mode: Mode,
    /// Whether the entry has given the object back for good.
    pub released: bool,
}

impl Asked {
    ghost use Rattle.pooma_queue.specs.Requests.{holds_back};

    // Whether this request holds back a later one of the given mode.
    fn holds_back(&self, mode: Mode) -> bool
        ensures { result ≡ holds_back mode self.now }
    {
        !self.released && self.mode.conflicts(mode)
    }
}

/// The requests of one object, in the order in which they came.
///
/// Contracts see them as a list, beside the number of further requests for which there is room.
///
/// Each question takes the same time however many requests there are, and a push what its memory takes. A release by entry
/// and a count begin with a binary search; beyond that all releases of a queue together pass each request twice at the most.
#[derive(Drop)]
pub struct Queue {
    requests: Vec<Asked>,
    // The place of the first request that was not released, and of the first of these that is to write: what holds a write
    // back, and what a read. Where there is none it is the number of requests. Neither ever goes back.
    first: usize,
    write: usize,
    // For each request the number of those to write before it, and how many of all are to write. No release changes them.
    writes: Vec<usize>,
    written: usize,
    // How many requests were released.
    released: usize,
}

impl Model for Queue {
    ghost use Rattle.std.specs.Prelude.{◌≡◌, ◌-◌, min, map, vec_len, vec_capacity};
    ghost use Rattle.std.specs.List.{count_by};
    ghost use Rattle.pooma_queue.specs.declared.queue.Mode.TheVariants.{Read, Write};
    ghost use Rattle.pooma_queue.specs.Requests.{Waiting, IsInOrder, IsTally, first_holding};

    ghost Value = { Waiting };

    ghost view = { λ q. record { requests = q.requests.items; room = min (vec_capacity q.requests - vec_len q.requests) (vec_capacity q.writes - vec_len q.writes) } };

    ghost invariant = { λ q. IsInOrder q.requests.items × (q.first ≡ first_holding Write q.requests.items) × (q.write ≡ first_holding Read q.requests.items) × IsTally (map (λ asked. asked.mode) q.requests.items) q.writes.items q.written × (q.released ≡ count_by (λ asked. asked.released) q.requests.items) };
}

impl Queue {
    ghost use Rattle.std.specs.List.{count_by};
    ghost use Rattle.pooma_queue.specs.declared.queue.Mode.TheVariants as mode;
    ghost use Rattle.pooma_queue.specs.Requests.{AsksHere, IsGranted, IsInTurn, MayGoOn, OnlyLastWrites, blocker_of, front_of, held_back_by, holder_of, let_go, released};

    /// A queue with no requests and no room. It takes no memory.
    pub fn new(alloc: Global) -> Queue
        ensures requests { result.requests ≡ [] }
        ensures room { result.room ≡ 0 }
    {
        Queue {
            requests: Vec::new(alloc),
            first: 0,
            write: 0,
            writes: Vec::new(alloc),
            written: 0,
            released: 0,
        }
    }

    /// Makes room for `n` further requests. The requests stay as they are, also where memory is short. Where there is room
    /// already it takes none.
    pub fn reserve(&mut self, _alloc: Global, n: usize) -> Result<(), AllocError>
        ensures requests { self.new.requests ≡ self.old.requests }
        ensures ok { OnOk result (n ≤ self.new.room) }
        ensures room { self.old.room ≤ self.new.room }
        ensures succeeds { 0 < n → n ≤ self.old.room → IsOk result }
    {
        self.requests.reserve(n)?;
        self.writes.reserve(n)
    }

    /// How many requests there are.
    pub fn len(&self) -> usize
        ensures { result ≡ length self.now.requests }
    {
        self.requests.len()
    }

    /// Whether there is no request.
    pub fn is_empty(&self) -> bool
        ensures { IsTrue result ↔ (self.now.requests ≡ []) }
    {
        self.requests.is_empty()
    }

    /// Puts the request of an entry behind the others, and answers its place. Only want of memory refuses it, never where
    /// there is room, and then the queue is as before.
    pub fn push(&mut self, _alloc: Global, entry: u32, mode: Mode) -> Result<usize, AllocError>
        requires { All (λ asked. asked.entry < entry) self.old.requests }
        ensures place { IfOk result (λ place. place ≡ length self.old.requests) }
        ensures ok { OnOk result (self.new.requests ≡ self.old.requests ++ record { entry = entry; mode = mode; released = false } ∷ []) }
        ensures room { OnOk result (self.old.room ≤ self.new.room + 1) }
        ensures succeeds { 0 < self.old.room → IsOk result }
        ensures err { OnErr result (self.new.requests ≡ self.old.requests) }
    {
        let place = self.requests.len();
        self.writes.reserve(1)?;
        self.requests.push(Asked {
            entry,
            mode,
            released: false,
        })?;
        self.writes.push_reserved(self.written);
        self.written = one_more_if(self.written, mode.conflicts(Mode::Read));
        // With no open request to write, `write` was the number of requests, and is so again behind one to read.
        if self.write == place && !mode.conflicts(Mode::Read) {
            self.write += 1;
        }
        Ok(place)
    }

    /// Whether the request at place `k` may go on: each earlier one that conflicts with it was released.
    pub fn granted(&self, k: usize) -> bool
        requires { k < length self.now.requests }
        ensures { IsTrue result ↔ IsGranted self.now.requests k }
    {
        self.blocker(k).is_none()
    }

    /// The entry of the first request that holds back the one at place `k`, and None where that one may go on.
    pub fn blocker(&self, k: usize) -> Option<u32>
        requires { k < length self.now.requests }
        ensures first { result ≡ option_map (λ asked. asked.entry) (blocker_of self.now.requests k) }
        ensures none { IsNone result ↔ IsGranted self.now.requests k }
    {
        let place = self.first_holding(self.requests[k].mode);
        if place < k {
            Some(self.requests[place].entry)
        } else {
            None
        }
    }

    /// The entry of the first request that holds back one of this mode by a later entry, whose own request need not be here.
    /// It looks at one request alone.
    pub fn holder(&self, entry: u32, mode: Mode) -> Option<u32>
        ensures { result ≡ option_map (λ asked. asked.entry) (holder_of self.now.requests entry mode) }
    {
        let asked = self.requests.get(self.first_holding(mode))?;
        if asked.entry < entry {
            Some(asked.entry)
        } else {
            None
        }
    }

    // The place of the first request that holds back one of this mode, and the number of requests where there is none.
    fn first_holding(&self, mode: Mode) -> usize
        ensures { result ≡ first_holding mode self.now.requests }
    {
        match mode {
            Mode::Read => self.write,
            Mode::Write => self.first,
        }
    }

    /// How many requests of earlier entries hold back the one of this entry, where nothing was released before its turn. It
    /// begins with a binary search, and walks over no requests.
    pub fn earlier(&self, entry: u32, mode: Mode) -> usize
        requires in_turn { IsInTurn self.now.requests }
        requires asks { AsksHere entry mode self.now.requests }
        ensures count { result ≡ held_back_by self.now.requests entry mode }
        ensures few { result ≤ entry }
    {
        let place = count_before(&self.requests, entry);
        match mode {
            Mode::Read => self.open_writes_before(place),
            Mode::Write => self.open_before_write(place),
        }
    }

    // How many open requests to write stand before this place. Of those to write, the released ones stand in front.
    fn open_writes_before(&self, k: usize) -> usize
        requires in_turn { IsInTurn self.now.requests }
        requires there { k < length self.now.requests }
        ensures { result ≡ count_by (holds_back mode.Read) (take k self.now.requests) }
    {
        if k <= self.write {
            0
        } else {
            self.writes[k] - self.writes[self.write]
        }
    }

    // How many open requests stand before this place, at which one to write stands. While that is open, all released ones do.
    fn open_before_write(&self, k: usize) -> usize
        requires in_turn { IsInTurn self.now.requests }
        requires there { k < length self.now.requests }
        requires write { IfSome (slice_get self.now.requests k) (λ asked. asked.mode ≡ mode.Write) }
        ensures { result ≡ count_by (holds_back mode.Write) (take k self.now.requests) }
    {
        if k < self.write { 0 } else { k - self.released }
    }

    /// The requests from the first open one, which was not released, up to the first open one that is to write. Each open
    /// request that may go on is among them, since that one holds back what comes behind it; only the last may be an open one
    /// to write. Where they begin and end is known, so this walks over none.
    pub fn front(&self) -> &[Asked]
        ensures requests { result.now ≡ front_of self.now.requests }
        ensures may_go_on { (k : ℕ) (asked : Asked) → MayGoOn self.now.requests k asked → Contains result.now asked }
        ensures last { OnlyLastWrites result.now }
    {
        up_to(&self.requests, self.first, self.write)
    }

    /// Marks the request of this entry as released, if there is one.
    pub fn release_entry(&mut self, entry: u32)
        ensures requests { self.new.requests ≡ map (let_go entry) self.old.requests }
        ensures room { self.new.room ≡ self.old.room }
    {
        let place = count_before(&self.requests, entry);
        if place < self.requests.len() && self.requests[place].entry == entry {
            self.released = one_more_if(self.released, !self.requests[place].released);
            self.requests[place].released = true;
            self.first = first_holding_from(&self.requests, self.first, Mode::Write);
            self.write = first_holding_from(&self.requests, self.write, Mode::Read);
        }
    }

    /// Marks the request at place `k` as released.
    pub fn release(&mut self, k: usize)
        requires there { k < length self.old.requests }
        requires granted { IsGranted self.old.requests k }
        requires out { IfSome (slice_get self.old.requests k) (λ asked. asked.released ≡ false) }
        ensures requests { IfSome (slice_get self.old.requests k) (λ asked. self.new.requests ≡ slice_set self.old.requests k (released asked)) }
        ensures room { self.new.room ≡ self.old.room }
    {
        self.released += 1;
        self.requests[k].released = true;
        self.first = first_holding_from(&self.requests, self.first, Mode::Write);
        self.write = first_holding_from(&self.requests, self.write, Mode::Read);
    }
}

// One more than the number, where this holds.
fn one_more_if(n: usize, holds: bool) -> usize
    requires { n + 1 < 2 ^ 64 }
    ensures { result ≡ n + cond holds 1 0 }
{
    if holds { n + 1 } else { n }
}

// The requests from one place up to another, with that one if it is there.
fn up_to(requests: &[Asked], first: usize, last: usize) -> &[Asked]
    requires order { first ≤ last }
    requires within { last ≤ length requests.now }
    ensures { result.now ≡ take (min (length requests.now) (last + 1) - first) (drop first requests.now) }
{
    let end = requests.len().min(last + 1);
    &requests[first..end]
}

// How many requests are of entries before this one. They stand in front of the others.
fn count_before(requests: &[Asked], entry: u32) -> usize
    requires { IsInOrder requests.now }
    ensures { result ≡ prefix_len (λ asked. nat_lt asked.entry entry) requests.now }
{
    requests.partition_point(|asked| asked.entry < entry)
}

// The place of the first request that holds back one of this mode, looked for from a place on that is not behind it.
fn first_holding_from(requests: &[Asked], from: usize, mode: Mode) -> usize
    requires { from ≤ first_holding mode requests.now }
    ensures { result ≡ first_holding mode requests.now }
{
    let mut place = from;
    while place < requests.len() && !requests[place].holds_back(mode) {
        place += 1;
    }
    place
}
