//! Ends in memory that fail at calls of one's choice.
ghost use Rattle.std.specs.Prelude.{◌≡◌, ◌<◌, ◌≤◌, ◌↔◌, [], length, take, Contains, Some, IfOk, OnErr, IsErr, IsTrue};
ghost use Rattle.std.specs.Io.KnownBytes.{ReadConsumes, WriteAppends};
ghost use Rattle.pooma_io.specs.Outside.{CountsCall, HasCause, told_count};
ghost use Rattle.pooma_io.specs.Bounds.{FailsNext, RefusesNext, after_giving, after_taking, filled, given_count, sink_after_failing, source_after_failing, taken_count};

use crate::counts::next_count;
use crate::shelf::{Shelf, copy_front};
use crate::sink::Sink;
use crate::source::{Failed, Source};
use std::alloc::{AllocError, Global};
use std::marker::Model;

// Whether the call with this number is one of those that fail. The list is in any order.
fn is_listed(failing: &[u32], call: u64) -> bool
    ensures { IsTrue result ↔ Contains failing.now call }
{
    failing.iter().any(|number| u64::from(*number) == call)
}

/// A source in memory that gives at most `step` bytes a call. The calls whose numbers are listed fail; the first call has
/// the number 1.
#[derive(Drop)]
pub struct MemorySource {
    bytes: Vec<u8>,
    taken: usize,
    step: usize,
    failing: Vec<u32>,
    calls: u64,
    faults: u64,
}

impl Model for MemorySource {
    ghost use Rattle.std.specs.Prelude.{◌≤◌, drop, vec_len};
    ghost use Rattle.pooma_io.specs.Bounds.{SourceState};

    ghost Value = { SourceState };

    ghost view = { λ s. record { left = drop s.taken s.bytes.items; step = s.step; failing = s.failing.items; calls = s.calls; faults = s.faults } };

    ghost invariant = { λ s. (s.taken ≤ vec_len s.bytes) × (1 ≤ s.step) };
}

impl MemorySource {
    /// A source of these bytes that was not called yet. It gives at most `step` bytes a call, at least 1; `failing` has the
    /// numbers of the calls that fail, from 1, in any order. It takes no memory.
    pub fn new(bytes: Vec<u8>, step: usize, failing: Vec<u32>) -> MemorySource
        requires { 1 ≤ step }
        ensures state { result ≡ record { left = bytes.items; step = step; failing = failing.items; calls = 0; faults = 0 } }
        ensures left { ⟦<MemorySource as Source>⟧.left result ≡ Some bytes.items }
        ensures faults { ⟦<MemorySource as Source>⟧.faults result ≡ 0 }
        ensures reads { ⟦<MemorySource as Source>⟧.reads result ≡ Some 0 }
    {
        MemorySource {
            bytes,
            taken: 0,
            step,
            failing,
            calls: 0,
            faults: 0,
        }
    }
}

impl Source for MemorySource {
    ghost left = { λ s. Some s.left };

    ghost faults = { λ s. s.faults };

    ghost reads = { λ s. told_count s.calls };

    fn read(&mut self, buf: &mut [u8]) -> Result<usize, Failed>
        ensures within { IfOk result (λ n. n ≤ length buf.old) }
        ensures bytes { ReadConsumes (Some self.old.left) (Some self.new.left) result buf.new }
        ensures cause { HasCause self.old.faults self.new.faults result }
        ensures counted { CountsCall (told_count self.old.calls) (told_count self.new.calls) }

        // The listed calls fail, and no others. Nothing moves then.
        ensures fails { IsErr result ↔ FailsNext self.old }
        ensures failed { OnErr result (self.new ≡ source_after_failing self.old) }
        ensures untouched { OnErr result (buf.new ≡ buf.old) }

        // Else the step, the buffer and what is left bound what is given.
        ensures count { IfOk result (λ n. n ≡ given_count self.old (length buf.old)) }
        ensures buffer { IfOk result (λ n. buf.new ≡ filled self.old.left n buf.old) }
        ensures after { IfOk result (λ n. self.new ≡ after_giving self.old n) }
    {
        self.calls = next_count(self.calls);
        if is_listed(&self.failing, self.calls) {
            self.faults = next_count(self.faults);
            return Err(Failed);
        }
        let n = copy_front(&self.bytes[self.taken..], buf, self.step);
        self.taken += n;
        Ok(n)
    }
}

/// A sink in memory that takes at most `step` bytes a call. The calls whose numbers are listed fail, and those that find
/// the room full; the first call has the number 1.
#[derive(Drop)]
pub struct MemorySink {
    shelf: Shelf,
    step: usize,
    failing: Vec<u32>,
    calls: u64,
    faults: u64,
}

impl Model for MemorySink {
    ghost use Rattle.std.specs.Prelude.{◌≤◌};
    ghost use Rattle.pooma_io.specs.Bounds.{SinkState};

    ghost Value = { SinkState };

    ghost view = { λ s. record { held = s.shelf.bytes.items; room = s.shelf.room; step = s.step; failing = s.failing.items; calls = s.calls; faults = s.faults } };

    ghost invariant = { λ s. 1 ≤ s.step };
}

impl MemorySink {
    /// An empty sink with room for so many bytes, all of which it takes now, that was not called yet. It takes at most `step`
    /// bytes a call, at least 1; `failing` has the numbers of the calls that fail, from 1, in any order. The only error is want
    /// of memory.
    pub fn new(
        alloc: Global,
        room: usize,
        step: usize,
        failing: Vec<u32>,
    ) -> Result<MemorySink, AllocError>
        requires { 1 ≤ step }
        ensures state { IfOk result (λ sink. sink ≡ record { held = []; room = room; step = step; failing = failing.items; calls = 0; faults = 0 }) }
        ensures held { IfOk result (λ sink. ⟦<MemorySink as Sink>⟧.held sink ≡ Some []) }
        ensures faults { IfOk result (λ sink. ⟦<MemorySink as Sink>⟧.faults sink ≡ 0) }
    {
        Ok(MemorySink {
            shelf: Shelf::new(alloc, room)?,
            step,
            failing,
            calls: 0,
            faults: 0,
        })
    }

    /// The bytes that the sink holds, in the order in which they were written.
    pub fn held(&self) -> &[u8]
        ensures bytes { result.now ≡ self.now.held }
        ensures within { length result.now ≤ self.now.room }
    {
        &self.shelf.bytes
    }
}

impl Sink for MemorySink {
    ghost held = { λ s. Some s.held };

    ghost faults = { λ s. s.faults };

    fn write(&mut self, piece: &[u8]) -> Result<usize, Failed>
        ensures within { IfOk result (λ n. n ≤ length piece.now) }
        ensures some { IfOk result (λ n. 0 < length piece.now → 0 < n) }
        ensures bytes { WriteAppends (Some self.old.held) (Some self.new.held) result piece.now }
        ensures cause { HasCause self.old.faults self.new.faults result }

        // The listed calls fail and those that find the room full, and no others. Nothing moves then.
        ensures fails { IsErr result ↔ RefusesNext self.old piece.now }
        ensures failed { OnErr result (self.new ≡ sink_after_failing self.old) }

        // Else the step, the piece and the room bound what is taken.
        ensures count { IfOk result (λ n. n ≡ taken_count self.old piece.now) }
        ensures after { IfOk result (λ n. self.new ≡ after_taking self.old (take n piece.now)) }
    {
        self.calls = next_count(self.calls);
        if is_listed(&self.failing, self.calls) || (!piece.is_empty() && self.shelf.is_full()) {
            self.faults = next_count(self.faults);
            return Err(Failed);
        }
        Ok(self.shelf.append(piece, self.step))
    }
}
