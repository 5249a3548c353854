ghost use Rattle.std.specs.Prelude.{◌≡◌, ◌<◌, false, IsTrue, length};
ghost use Rattle.pooma_machine.specs.Values.{IsComplete};
ghost use Rattle.pooma_desk.specs.Tokens.{IsLegalFor, plan_of, history_of};
ghost use Rattle.pooma_worker.specs.Working.{Works, WorksFrom, CanGoOn};

use crate::gate::Gate;
use crate::rest::Rest;
use pooma_desk::{Desk, Pass};
use pooma_law::legal_histories_tell;
use pooma_machine::{DispatchError, Work};
use std::alloc::Global;
use std::sync::Wait;

/// How a work loop ended.
#[derive(Drop)]
pub struct Worked<W: Work> {
    /// The pass that the loop went with.
    pub pass: Pass<W>,
    /// Whether it ended for want of memory, and not because all entries were released.
    pub short: bool,
}

/// Does the entries of the desk's machine with this pass, side by side with whoever else does, until all that were issued are
/// released, or memory for one of them is wanting.
///
/// It calls the gate between each dispatch and its work. It waits for the turn, and for the works of others.
pub fn work_loop<W: Work, G: Gate, R: Wait>(
    rt: &R,
    alloc: Global,
    desk: &Desk<W>,
    pass: Pass<W>,
    gate: &G,
) -> Worked<W>
    requires { pass.from ≡ desk.now }
    ensures works { Works pass result.pass }
    // The last look found each entry released that was issued by then.
    ensures ended { result.short ≡ false → IsComplete (plan_of result.pass) (history_of result.pass) }
    ensures short { IsTrue result.short → CanGoOn W.meaning result.pass }
    ensures legal { IsLegalFor W.meaning result.pass }
{
    legal_histories_tell::<W>();
    let mut rest = Rest::new();
    let mut pass = pass;
    for _ in rt.forever() {
        let (looked, look) = desk.look(rt, pass, rest.from());
        if look.all_released {
            return Worked {
                pass: looked,
                short: false,
            };
        }
        let Some(entry) = look.ready else {
            rest.pause(look.issued);
            pass = looked;
            continue;
        };
        let worked = follow(rt, alloc, desk, looked, gate, entry);
        if worked.short {
            return worked;
        }
        rest = Rest::new();
        pass = worked.pass;
    }
    unreachable!()
}

// Does the entry, then the least that became ready by its release, and so on until none did. An entry that became ready is
// dispatched in the turn of the release that made it so.
fn follow<W: Work, G: Gate, R: Wait>(
    rt: &R,
    alloc: Global,
    desk: &Desk<W>,
    pass: Pass<W>,
    gate: &G,
    entry: u32,
) -> Worked<W>
    requires desk { pass.from ≡ desk.now }
    requires issued { entry < length (plan_of pass) }
    ensures works { WorksFrom pass result.pass entry }
    ensures short { IsTrue result.short → CanGoOn W.meaning result.pass }
    ensures legal { IsLegalFor W.meaning result.pass }
{
    let (lent, answer) = desk.dispatch(rt, alloc, pass, entry);
    let mut loan = match answer {
        Ok(loan) => loan,
        Err(error) => {
            return Worked {
                pass: lent,
                short: error == DispatchError::OutOfMemory,
            };
        }
    };
    let mut pass = lent;
    for _ in rt.forever() {
        gate.before(loan.entry());
        let (after, answer, _) = desk.release_and_dispatch(rt, alloc, pass, loan.perform());
        let Ok(next) = answer else {
            return Worked {
                pass: after,
                short: true,
            };
        };
        let Some(next) = next else {
            return Worked {
                pass: after,
                short: false,
            };
        };
        pass = after;
        loan = next;
    }
    unreachable!()
}
