ghost use Rattle.std.specs.Prelude.{◌≡◌, ◌+◌, ◌^◌, ◌<◌, ◌≤◌, ◌++◌, ℕ, [], All, Contains, IfOk, OnOk, IsOk, length};
ghost use Rattle.pooma_queue.specs.Requests.{AsksHere, IsInTurn, MayGoOn, OnlyLastWrites, front_of, held_back_by};
ghost use Rattle.pooma_queue.specs.declared.queue.Asked.{Asked};
ghost use Rattle.pooma_machine.specs.Steps.{IsRequestList};
ghost use Rattle.pooma_machine.specs.Lines.{line, room_at, asked_at, counted, line_after, lesser, held_by};

use crate::step::Request;
use pooma_queue::{Asked, Mode, Queue};
use std::alloc::{AllocError, Global};
use std::marker::Model;

// What holds an entry back: an earlier entry, and the object over which the two conflict.
#[derive(Clone, Copy)]
pub(crate) struct Holder {
    pub(crate) object: u32,
    pub(crate) by: u32,
}

/// The queues of a machine's objects, by number. Contracts see them as a list.
#[derive(Drop)]
pub(crate) struct Lines {
    queues: Vec<Queue>,
}

impl Model for Lines {
    ghost use Rattle.std.specs.Prelude.{List};
    ghost use Rattle.pooma_queue.specs.Requests.{Waiting};

    ghost Value = { List Waiting };

    ghost view = { λ l. l.queues.items };
}

impl Lines {
    /// So many queues with no requests.
    pub(crate) fn new(alloc: Global, objects: usize) -> Result<Lines, AllocError>
        ensures count { IfOk result (λ lines. length lines ≡ objects) }
        ensures empty { IfOk result (λ lines. All (λ queue. queue.requests ≡ []) lines) }
    {
        let mut queues = Vec::new(alloc);
        for _ in 0..objects {
            queues.push(Queue::new(alloc))?;
        }
        Ok(Lines { queues })
    }

    /// Makes room for so many further requests in each queue.
    pub(crate) fn reserve(&mut self, alloc: Global, n: usize) -> Result<(), AllocError>
        ensures lines { (o : ℕ) → line self.new o ≡ line self.old o }
        ensures rooms { (o : ℕ) → room_at self.old o ≤ room_at self.new o }
        ensures ok { OnOk result ((o : ℕ) → o < length self.new → n ≤ room_at self.new o) }
        ensures count { length self.new ≡ length self.old }
    {
        for i in 0..self.queues.len() {
            self.queues[i].reserve(alloc, n)?;
        }
        Ok(())
    }

    /// Makes room for one further request in the queue of each object that is asked for.
    pub(crate) fn make_room(
        &mut self,
        alloc: Global,
        requests: &[Request],
    ) -> Result<(), AllocError>
        requires { All (λ r. r.object < length self.old) requests.now }
        ensures lines { (o : ℕ) → line self.new o ≡ line self.old o }
        ensures rooms { (o : ℕ) → room_at self.old o ≤ room_at self.new o }
        ensures ok { OnOk result (All (λ r. 0 < room_at self.new r.object) requests.now) }
        ensures succeeds { All (λ r. 0 < room_at self.old r.object) requests.now → IsOk result }
        ensures count { length self.new ≡ length self.old }
    {
        for request in requests {
            self.queues[request.object as usize].reserve(alloc, 1)?;
        }
        Ok(())
    }

    /// Puts an entry's requests behind those of the earlier entries.
    pub(crate) fn enter(&mut self, alloc: Global, entry: u32, requests: &[Request])
        requires objects { All (λ r. r.object < length self.old) requests.now }
        requires form { IsRequestList requests.now }
        requires later { (o : ℕ) → All (λ asked. asked.entry < entry) (line self.old o) }
        requires room { All (λ r. 0 < room_at self.old r.object) requests.now }
        ensures lines { (o : ℕ) → line self.new o ≡ line self.old o ++ asked_at entry requests.now o }
        ensures rooms { (o : ℕ) → room_at self.old o ≤ room_at self.new o + 1 }
        ensures count { length self.new ≡ length self.old }
    {
        for request in requests {
            let _ = self.queues[request.object as usize].push(alloc, entry, request.mode);
        }
    }

    /// Marks an entry's requests as released.
    pub(crate) fn let_go(&mut self, entry: u32, requests: &[Request])
        requires objects { All (λ r. r.object < length self.old) requests.now }
        requires form { IsRequestList requests.now }
        ensures lines { (o : ℕ) → line self.new o ≡ line_after entry requests.now o (line self.old o) }
        ensures rooms { (o : ℕ) → room_at self.new o ≡ room_at self.old o }
        ensures count { length self.new ≡ length self.old }
    {
        for request in requests {
            self.queues[request.object as usize].release_entry(entry);
        }
    }

    /// The least earlier entry that holds this one back, and the first object over which it does.
    pub(crate) fn held(&self, entry: u32, requests: &[Request]) -> Option<Holder>
        requires { All (λ r. r.object < length self.now) requests.now }
        ensures { result ≡ held_by self.now entry requests.now }
    {
        let mut found = None;
        for request in requests {
            let holder = self.queues[request.object as usize].holder(entry, request.mode);
            found = lesser(found, request.object, holder);
        }
        found
    }

    /// How many requests of earlier entries hold this one back, over all objects that it asks for.
    pub(crate) fn count(&self, entry: u32, requests: &[Request]) -> u64
        requires objects { All (λ r. r.object < length self.now) requests.now }
        requires form { IsRequestList requests.now }
        requires in_turn { (o : ℕ) → IsInTurn (line self.now o) }
        requires asks { All (λ r. AsksHere entry r.mode (line self.now r.object)) requests.now }
        ensures { result ≡ counted self.now entry requests.now }
    {
        let mut total = 0u64;
        for request in requests {
            total += self.earlier(entry, request.object, request.mode);
        }
        total
    }

    // How many requests of earlier entries hold back this entry's request of the object, whose number is of 32 bits.
    fn earlier(&self, entry: u32, object: u32, mode: Mode) -> u64
        requires there { object < length self.now }
        requires in_turn { IsInTurn (line self.now object) }
        requires asks { AsksHere entry mode (line self.now object) }
        ensures count { result ≡ held_back_by (line self.now object) entry mode }
        ensures few { result ≤ entry }
        ensures object { object < 2 ^ 32 }
    {
        self.queues[object as usize].earlier(entry, mode) as u64
    }

    /// The front of an object's queue, in which what may go on stands. Only its last may be an open request to write.
    pub(crate) fn front(&self, object: u32) -> &[Asked]
        requires { object < length self.now }
        ensures requests { result.now ≡ front_of (line self.now object) }
        ensures may_go_on { (k : ℕ) (asked : Asked) → MayGoOn (line self.now object) k asked → Contains result.now asked }
        ensures last { OnlyLastWrites result.now }
    {
        self.queues[object as usize].front()
    }
}

fn lesser(found: Option<Holder>, object: u32, holder: Option<u32>) -> Option<Holder>
    ensures { result ≡ lesser found object holder }
{
    match (found, holder) {
        (_, None) => found,
        (None, Some(by)) => Some(Holder { object, by }),
        (Some(held), Some(by)) => {
            if by < held.by {
                Some(Holder { object, by })
            } else {
                Some(held)
            }
        }
    }
}
