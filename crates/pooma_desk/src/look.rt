ghost use Rattle.std.specs.Prelude.{◌≡◌, ◌≤◌, ◌↔◌, ℕ, IsTrue, MatchOption, length};
ghost use Rattle.pooma_machine.specs.Steps.{IsReady, IsLeastReady};
ghost use Rattle.pooma_machine.specs.Values.{asks_of, IsComplete};
ghost use Rattle.pooma_desk.specs.Tokens.{IsLegalFor, plan_of, history_of};
ghost use Rattle.pooma_desk.specs.Tokens.{Looks};

use crate::desk::Desk;
use crate::pass::Pass;
use pooma_machine::Work;
use std::sync::Wait;

/// What a machine answered at one moment.
#[derive(Clone, Copy, Debug, PartialEq, Eq)]
pub struct Look {
    /// The least entry not below the one asked for that could be dispatched, if there was one.
    pub ready: Option<u32>,
    /// How many entries were issued.
    pub issued: u32,
    /// Whether all of them were released.
    pub all_released: bool,
}

impl<W: Work> Desk<W> {
    /// What the machine answers at one moment of this call, which is that after what the pass has then seen. It waits for the
    /// turn.
    pub fn look<R: Wait>(&self, rt: &R, pass: Pass<W>, from: u32) -> (Pass<W>, Look)
        requires { pass.from ≡ self.now }
        ensures looks { Looks pass result.0 }
        ensures ready { MatchOption result.1.ready
            ((j : ℕ) → from ≤ j → IsReady (asks_of W.meaning (plan_of result.0)) (history_of result.0) j → ⊥)
            (IsLeastReady (asks_of W.meaning (plan_of result.0)) (history_of result.0) from) }
        ensures issued { result.1.issued ≡ length (plan_of result.0) }
        ensures all_released { IsTrue result.1.all_released ↔ IsComplete (plan_of result.0) (history_of result.0) }
        ensures legal { IsLegalFor W.meaning result.0 }
    {
        let turn = self.enter(rt, pass);
        let ready = turn.machine.ready_from(from);
        let issued = turn.machine.issued();
        let all_released = turn.machine.all_released();
        let look = Look {
            ready,
            issued,
            all_released,
        };
        (self.leave(turn), look)
    }
}
