//! What each end of a deque knows, and the rule under which the calls of both stand.
use crossbeam_deque::protocol::{Outcome, Protocol, Split};
use crossbeam_deque::{Pass, Stealer, Worker};
use std::alloc::Global;
use std::collections::LinkedList;

/// What an end of a deque may do, and which numbers it knows of. It is there for the proofs: no value of it is made.
///
/// The owner's end knows all numbers that were put and those that it was given. The thief's knows those that it was given, and
/// how far the owner was when the thief was made. An owner that has no thief yet has the thief's part as well.
pub struct Known {
    pub owns: bool,
    pub steals: bool,
    pub put: LinkedList<u32>,
    pub given: LinkedList<u32>,
    pub stolen: LinkedList<u32>,
}

/// The rule: the numbers that were put are those that were given out, in the order in which they were, and then those in the deque.
pub(crate) struct EachOnce;

impl Protocol<u32, Known> for EachOnce {
    ghost use Rattle.std.specs.Prelude.{true, []};
    ghost use Rattle.pooma_ready.specs.Rule.{known, Rule};

    ghost holds = { Rule };

    ghost first = { known true true [] [] [] };

    ghost guest = { known true true [] [] [] };
}

/// The thief's part leaves the owner's.
pub(crate) struct Parts;

impl Split<Known> for Parts {
    ghost use Rattle.std.specs.Prelude.{true, false, []};
    ghost use Rattle.pooma_ready.specs.Rule.{known};

    ghost left = { λ v. known v.owns false v.put v.given [] };

    ghost right = { λ v. known false true v.put v.given v.stolen };
}

/// The owner put numbers.
pub(crate) struct HasPut;

impl Outcome<u32, Known> for HasPut {
    ghost use Rattle.std.specs.Prelude.{◌≡◌, ◌++◌};
    ghost use Rattle.pooma_ready.specs.Rule.{known};

    ghost then = { λ v xs w. w ≡ known v.owns v.steals (v.put ++ xs) v.given v.stolen };
}

/// The owner was given numbers, or found the deque empty.
pub(crate) struct HasTaken;

impl Outcome<u32, Known> for HasTaken {
    ghost use Rattle.std.specs.Prelude.{◌≡◌, ◌++◌, not};
    ghost use Rattle.pooma_ready.specs.Rule.{known};
    ghost use Rattle.pooma_ready.specs.Dealing.{OwnerFindsNone};

    ghost then = { λ v xs w. w ≡ known v.owns v.steals v.put (v.given ++ xs) v.stolen };

    ghost empty = { λ v. OwnerFindsNone v.put v.given (not v.steals) };
}

/// The thief was given numbers, or found the deque empty.
pub(crate) struct HasStolen;

impl Outcome<u32, Known> for HasStolen {
    ghost use Rattle.std.specs.Prelude.{◌≡◌, ◌++◌};
    ghost use Rattle.pooma_ready.specs.Rule.{known};
    ghost use Rattle.pooma_ready.specs.Dealing.{ThiefFindsNone};

    ghost then = { λ v xs w. w ≡ known v.owns v.steals v.put v.given (v.stolen ++ xs) };

    ghost empty = { λ v. ThiefFindsNone v.put v.given v.stolen };
}

pub(crate) type Owned = Worker<u32, Global, Known, EachOnce>;

pub(crate) type Shared = Stealer<u32, Global, Known, EachOnce>;

pub(crate) type Token = Pass<u32, Known>;
