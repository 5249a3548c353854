ghost use Rattle.std.specs.Prelude.{◌≡◌, ◌+◌, ◌<◌, ◌++◌, ◌∷◌, [], length};
ghost use Rattle.pooma_desk.specs.Seen.{longer};
ghost use Rattle.pooma_desk.specs.Tokens.{GoesOn, keeping, newly, own_calls, plan_of, history_of};

use crate::desk::Desk;
use crate::pass::Pass;
use crate::sight::{Merge, Shares};
use pooma_machine::{Machine, Work};

impl<W: Work> Desk<W> {
    /// Splits a pass that has numbers left. The second pass has the least of these for its seat and one share, and no number
    /// left; both have seen what the one had. It takes no memory and waits for nobody.
    pub fn split(&self, pass: Pass<W>) -> (Pass<W>, Pass<W>)
        requires desk { pass.from ≡ self.now }
        requires left { 0 < length pass.left }
        ensures first { result.0 ≡ keeping pass }
        ensures second { result.1 ≡ newly pass }
        // The second has made no call.
        ensures alone { own_calls result.1 ≡ [] }
    {
        let Pass {
            mut place,
            seat,
            next,
        } = pass;
        // Step 1.
        let other = self.table.shared.split_seat::<Shares>(&mut place);
        let first = Pass {
            place,
            seat,
            next: next + 1,
        };
        let second = Pass {
            place: other,
            seat: next,
            next: self.seats,
        };
        (first, second)
    }

    /// Joins the second pass into the first, which keeps its seat: the seats, shares, numbers left and calls of both are its
    /// own then, and it has seen the longer of the two lists, which goes on from both. It waits for nobody.
    pub fn join(&self, one: Pass<W>, other: Pass<W>) -> Pass<W>
        requires one { one.from ≡ self.now }
        requires other { other.from ≡ self.now }
        ensures from { result.from ≡ one.from }
        ensures seat { result.seat ≡ one.seat }
        ensures joined { result.joined ≡ one.joined ++ other.seat ∷ other.joined }
        ensures shares { result.shares ≡ one.shares + other.shares }
        // One of the two has no number left.
        ensures left { result.left ≡ longer one.left other.left }
        ensures seen { result.seen ≡ longer one.seen other.seen }
        ensures calls { GoesOn one result.seen }
        ensures other_calls { GoesOn other result.seen }
    {
        let Pass {
            mut place,
            seat,
            next,
        } = one;
        let Pass {
            place: joining,
            seat: _,
            next: least,
        } = other;
        // Step 2, and the load that ends it.
        self.table.shared.join_seat::<Shares>(&mut place, joining);
        self.table.shared.load::<Merge>(&mut place, 0);
        Pass {
            place,
            seat,
            next: next.min(least),
        }
    }

    /// Gives the machine back for the pass that has all shares. It has the works and the history that it had at the start,
    /// and then what the pass has seen. It waits for nobody.
    pub fn close(self, pass: Pass<W>) -> Machine<W>
        requires desk { pass.from ≡ self }
        requires all { pass.shares ≡ self.seats }
        ensures plan { result.plan ≡ plan_of pass }
        ensures opening { result.opening ≡ self.machine.opening }
        ensures history { result.history ≡ history_of pass }
    {
        let Desk { table, .. } = self;
        let Pass { place, .. } = pass;
        let mut closed = table.close_with(place);
        let slot = closed.take(0);
        closed.free();
        match slot {
            Some(machine) => machine,
            None => unreachable!(),
        }
    }
}
