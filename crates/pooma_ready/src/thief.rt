//! The thief's end.
ghost use Rattle.std.specs.Prelude.{◌≡◌, true, IfNone, MatchOption};
ghost use Rattle.crossbeam_deque.specs.Handles.{view, IsPassOf, stealer_deque, stealer_flavor};
ghost use Rattle.pooma_ready.specs.Dealing.{ThiefFindsNone};
ghost use Rattle.pooma_ready.specs.Rule.{with_stolen};

use crate::ends::{HasStolen, Shared, Token};
use crossbeam_deque::Steal;
use std::marker::Model;
use std::sync::Wait;

/// The thief's end of a deque of numbers: it takes numbers out, from a thread of its own.
///
/// Contracts see the numbers that it was given, in order, and what its owner had put and been given when the thief was made.
#[derive(Drop)]
pub struct Thief {
    pub(crate) deque: Shared,
    pub(crate) token: Token,
}

impl Model for Thief {
    ghost use Rattle.pooma_ready.specs.Ends.{ThiefLists};

    ghost Value = { ThiefLists };

    ghost use Rattle.pooma_ready.specs.Inside.{thief_of, IsThief};

    ghost view = { thief_of };

    ghost invariant = { IsThief };
}

impl Thief {
    ghost use Rattle.std.specs.Prelude.{[], ◌∷◌, ◌++◌};
    ghost use Rattle.pooma_ready.specs.Ends.{of_thief};

    /// Takes the first number of the deque, and tries again where another taker was faster. `None` says that the deque was empty
    /// at a moment of this call.
    pub fn steal<R: Wait>(&mut self, rt: &R) -> Option<u32>
        ensures taken { MatchOption result (self.new ≡ self.old) (λ j. self.new ≡ of_thief self.old.put_before self.old.given_before (self.old.given ++ j ∷ [])) }
        ensures empty { IfNone result (ThiefFindsNone self.old.put_before self.old.given_before self.old.given) }
    {
        first_of(rt, &self.deque, &mut self.token)
    }
}

// Takes the first number of the deque. Another taker may be faster, and then the next one is tried.
fn first_of<R: Wait>(rt: &R, deque: &Shared, token: &mut Token) -> Option<u32>
    requires token { IsPassOf (stealer_deque deque.now) token.old }
    requires flavor { stealer_flavor deque.now ≡ 0 }
    requires steals { (view token.old).steals ≡ true }
    ensures token { IsPassOf (stealer_deque deque.now) token.new }
    ensures taken { MatchOption result (view token.new ≡ view token.old) (λ j. view token.new ≡ with_stolen (view token.old) j) }
    ensures empty { IfNone result (ThiefFindsNone (view token.old).put (view token.old).given (view token.old).stolen) }
{
    for _ in rt.forever() {
        match deque.steal_as::<HasStolen>(token) {
            Steal::Success(j) => return Some(j),
            Steal::Empty => return None,
            Steal::Retry => {}
        }
    }
    unreachable!()
}
