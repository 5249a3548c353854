//! The owner's end.
ghost use Rattle.std.specs.Prelude.{◌≡◌};

use crate::ends::{HasPut, HasTaken, Owned, Parts};
use crate::thief::Thief;
use std::alloc::{AllocError, Global};
use std::marker::Model;

// How many numbers a deque has room for before it grows.
const FIRST_ROOM: usize = 64;

/// The owner's end of a deque of numbers: it puts numbers in and takes them out, the first first.
///
/// Contracts see the numbers that it put and those that it was given, each in order, and whether a thief of its deque was made.
#[derive(Drop)]
pub struct Ready {
    deque: Owned,
    robbed: bool,
}

impl Model for Ready {
    ghost use Rattle.pooma_ready.specs.Ends.{OwnerLists};

    ghost Value = { OwnerLists };

    ghost use Rattle.pooma_ready.specs.Inside.{owner_of, IsOwner};

    ghost view = { owner_of };

    ghost invariant = { IsOwner };
}

impl Ready {
    ghost use Rattle.std.specs.Prelude.{true, false, [], ◌∷◌, ◌++◌, IfOk, IfErr, IfNone, OnOk, OnErr, MatchOption};
    ghost use Rattle.pooma_ready.specs.Dealing.{OwnerFindsNone};
    ghost use Rattle.pooma_ready.specs.Ends.{of_owner, of_thief};

    /// The owner's end of a new deque, which is empty and has no thief.
    pub fn new(alloc: Global) -> Result<Ready, AllocError>
        ensures fresh { IfOk result (λ r. r ≡ of_owner [] [] false) }
    {
        let deque = Owned::fifo_as(alloc, FIRST_ROOM)?;
        Ok(Ready {
            deque,
            robbed: false,
        })
    }

    /// Whether a thief of this deque was made.
    pub fn has_thief(&self) -> bool
        ensures told { result ≡ self.now.robbed }
    {
        self.robbed
    }

    /// Puts a number behind those in the deque, or hands it back where the deque makes no room for it.
    pub fn put(&mut self, j: u32) -> Result<(), u32>
        ensures put { OnOk result (self.new ≡ of_owner (self.old.put ++ j ∷ []) self.old.given self.old.robbed) }
        ensures refused { IfErr result (λ k. (k ≡ j) × (self.new ≡ self.old)) }
    {
        self.deque.push_as::<HasPut>(j)
    }

    /// Takes the first number of the deque. `None` says that the deque was empty at a moment of this call.
    pub fn take(&mut self) -> Option<u32>
        ensures taken { MatchOption result (self.new ≡ self.old) (λ j. self.new ≡ of_owner self.old.put (self.old.given ++ j ∷ []) self.old.robbed) }
        ensures empty { IfNone result (OwnerFindsNone self.old.put self.old.given self.old.robbed) }
    {
        self.deque.pop_as::<HasTaken>()
    }

    /// The thief's end of this deque, for another thread. A deque has one thief at most.
    pub fn thief(&mut self) -> Result<Thief, AllocError>
        requires alone { self.old.robbed ≡ false }
        ensures made { IfOk result (λ t. (t ≡ of_thief self.old.put self.old.given []) × (self.new ≡ of_owner self.old.put self.old.given true)) }
        ensures short { OnErr result (self.new ≡ self.old) }
    {
        let shared = self.deque.stealer()?;
        let token = self.deque.another::<Parts>();
        self.robbed = true;
        Ok(Thief {
            deque: shared,
            token,
        })
    }
}
