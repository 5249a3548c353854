//! Ends in memory that do not fail by themselves: a source that gives all that it has, and a sink that fails only where
//! its room is full.
ghost use Rattle.std.specs.Prelude.{◌≡◌, ◌<◌, ◌≤◌, ◌↔◌, [], min, length, take, Some, Ok, IfOk, OnErr, IsErr};
ghost use Rattle.std.specs.Io.KnownBytes.{ReadConsumes, WriteAppends};
ghost use Rattle.pooma_io.specs.Outside.{CountsCall, HasCause, told_count};
ghost use Rattle.pooma_io.specs.Bounds.{FindsFull, filled, sure_after_failing, sure_after_giving, sure_after_taking, sure_free};

use crate::counts::next_count;
use crate::shelf::{Shelf, copy_front};
use crate::sink::Sink;
use crate::source::{Failed, Source};
use std::alloc::{AllocError, Global};
use std::marker::Model;

/// A source in memory that never fails. A read gives all that is left, as far as the buffer reaches.
#[derive(Drop)]
pub struct SureSource {
    bytes: Vec<u8>,
    taken: usize,
    calls: u64,
}

impl Model for SureSource {
    ghost use Rattle.std.specs.Prelude.{◌≤◌, drop, vec_len};
    ghost use Rattle.pooma_io.specs.Bounds.{SureSourceState};

    ghost Value = { SureSourceState };

    ghost view = { λ s. record { left = drop s.taken s.bytes.items; calls = s.calls } };

    ghost invariant = { λ s. s.taken ≤ vec_len s.bytes };
}

impl SureSource {
    /// A source of these bytes that was not called yet. It takes no memory.
    pub fn new(bytes: Vec<u8>) -> SureSource
        ensures state { result ≡ record { left = bytes.items; calls = 0 } }
        ensures left { ⟦<SureSource as Source>⟧.left result ≡ Some bytes.items }
        ensures faults { ⟦<SureSource as Source>⟧.faults result ≡ 0 }
        ensures reads { ⟦<SureSource as Source>⟧.reads result ≡ Some 0 }
    {
        SureSource {
            bytes,
            taken: 0,
            calls: 0,
        }
    }
}

impl Source for SureSource {
    ghost left = { λ s. Some s.left };

    ghost faults = { λ _. 0 };

    ghost reads = { λ s. told_count s.calls };

    fn read(&mut self, buf: &mut [u8]) -> Result<usize, Failed>
        ensures within { IfOk result (λ n. n ≤ length buf.old) }
        ensures bytes { ReadConsumes (Some self.old.left) (Some self.new.left) result buf.new }
        ensures cause { HasCause 0 0 result }
        ensures counted { CountsCall (told_count self.old.calls) (told_count self.new.calls) }

        // It gives all that is left, as far as the buffer reaches.
        ensures count { result ≡ Ok (min (length buf.old) (length self.old.left)) }
        ensures buffer { IfOk result (λ n. buf.new ≡ filled self.old.left n buf.old) }
        ensures after { IfOk result (λ n. self.new ≡ sure_after_giving self.old n) }
    {
        self.calls = next_count(self.calls);
        let n = copy_front(&self.bytes[self.taken..], buf, usize::MAX);
        self.taken += n;
        Ok(n)
    }
}

/// A sink in memory that fails only where its room is full. A write takes all that there is room for.
#[derive(Drop)]
pub struct SureSink {
    shelf: Shelf,
    faults: u64,
}

impl Model for SureSink {
    ghost use Rattle.std.specs.Prelude.{◌≡◌, ◌<◌, length};
    ghost use Rattle.pooma_io.specs.Bounds.{SureSinkState};

    ghost Value = { SureSinkState };

    ghost view = { λ s. record { held = s.shelf.bytes.items; room = s.shelf.room; faults = s.faults } };

    ghost invariant = { λ s. length s.shelf.bytes.items < s.shelf.room → s.faults ≡ 0 };
}

impl SureSink {
    /// An empty sink with room for so many bytes, all of which it takes now, that has not failed yet. The only error is want of
    /// memory.
    pub fn new(alloc: Global, room: usize) -> Result<SureSink, AllocError>
        ensures state { IfOk result (λ sink. sink ≡ record { held = []; room = room; faults = 0 }) }
        ensures held { IfOk result (λ sink. ⟦<SureSink as Sink>⟧.held sink ≡ Some []) }
        ensures faults { IfOk result (λ sink. ⟦<SureSink as Sink>⟧.faults sink ≡ 0) }
    {
        Ok(SureSink {
            shelf: Shelf::new(alloc, room)?,
            faults: 0,
        })
    }

    /// The bytes that the sink holds. As long as there is room, it has not failed.
    pub fn held(&self) -> &[u8]
        ensures bytes { result.now ≡ self.now.held }
        ensures within { length result.now ≤ self.now.room }
        ensures sure { length result.now < self.now.room → self.now.faults ≡ 0 }
    {
        &self.shelf.bytes
    }
}

impl Sink for SureSink {
    ghost held = { λ s. Some s.held };

    ghost faults = { λ s. s.faults };

    fn write(&mut self, piece: &[u8]) -> Result<usize, Failed>
        ensures within { IfOk result (λ n. n ≤ length piece.now) }
        ensures some { IfOk result (λ n. 0 < length piece.now → 0 < n) }
        ensures bytes { WriteAppends (Some self.old.held) (Some self.new.held) result piece.now }
        ensures cause { HasCause self.old.faults self.new.faults result }

        // It fails exactly where the room is full.
        ensures full { IsErr result ↔ FindsFull self.old.room self.old.held piece.now }
        ensures failed { OnErr result (self.new ≡ sure_after_failing self.old) }

        // Else it takes all that there is room for.
        ensures count { IfOk result (λ n. n ≡ min (length piece.now) (sure_free self.old)) }
        ensures after { IfOk result (λ n. self.new ≡ sure_after_taking self.old (take n piece.now)) }
    {
        if !piece.is_empty() && self.shelf.is_full() {
            self.faults = next_count(self.faults);
            return Err(Failed);
        }
        Ok(self.shelf.append(piece, usize::MAX))
    }
}
