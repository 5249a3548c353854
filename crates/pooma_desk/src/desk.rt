ghost use Rattle.std.specs.Prelude.{◌≡◌, ◌<◌, ◌≤◌, ◌-◌, ◌∷◌, [], Some, IfOk, IfErr};
ghost use Rattle.pooma_machine.specs.Values.{Account};
ghost use Rattle.std.specs.List.{range_with_len};

use crate::pass::Pass;
use crate::sight::{OneHistory, Sight, Start};
use atomic_table::{Refused, Table};
use pooma_machine::{Machine, Work};
use std::alloc::Global;
use std::marker::Model;
use std::snapshot::Snapshot;

/// One machine behind one turn, for as many callers as it has seats.
///
/// Contracts see which desk it is, its machine as it was when the desk was started, and the number of seats.
#[derive(Drop)]
pub struct Desk<W: Work> {
    pub(crate) table: Table<Option<Machine<W>>, Sight<W>, Start<W>, OneHistory, Global>,
    pub(crate) seats: u32,
    // How many events the machine had at the start.
    pub(crate) before: usize,
}

impl<W: Work> Model for Desk<W> {
    ghost use Rattle.std.specs.Prelude.{◌≡◌, ◌≤◌, length};
    ghost use Rattle.pooma_desk.specs.Tokens.{Started};

    ghost Value = { Started W W.Content };

    ghost view = { λ d. record { desk = d.table.shared.table_id; machine = d.table.shared.key.machine; seats = d.table.shared.key.seats } };

    ghost invariant = { λ d. (d.table.shared.table_id.words ≡ 2) × (d.table.shared.table_id.slots ≡ 1) × (d.seats ≡ d.table.shared.key.seats) × (d.before ≡ length d.table.shared.key.machine.history) × (d.seats ≤ 64) };
}

impl<W: Work> Desk<W> {
    /// A desk of so many seats before this machine, and its first pass, which has seat 0, all shares and the other numbers
    /// left. Only want of memory refuses it, and hands the machine back.
    pub fn start(
        alloc: Global,
        machine: Machine<W>,
        seats: u32,
    ) -> Result<(Desk<W>, Pass<W>), Machine<W>>
        requires some { 0 < seats }
        requires few { seats ≤ 64 }
        ensures machine { IfOk result (λ r. r.0.machine ≡ machine) }
        ensures seats { IfOk result (λ r. r.0.seats ≡ seats) }
        ensures from { IfOk result (λ r. r.1.from ≡ r.0) }
        ensures seat { IfOk result (λ r. r.1.seat ≡ 0) }
        ensures joined { IfOk result (λ r. r.1.joined ≡ []) }
        ensures shares { IfOk result (λ r. r.1.shares ≡ seats) }
        ensures left { IfOk result (λ r. r.1.left ≡ range_with_len 1 (seats - 1)) }
        ensures seen { IfOk result (λ r. r.1.seen ≡ []) }
        ensures given_back { IfErr result (λ given. given ≡ machine) }
    {
        let before = machine.history().len();
        let start = Start {
            machine: Snapshot::of(&machine),
            seats,
        };
        let Ok(mut slots) = Vec::with_capacity(alloc, 1) else {
            return Err(machine);
        };
        slots.push_reserved(Some(machine));
        match Table::new(alloc, &[0, 0], slots, &start) {
            Ok((table, place)) => {
                let desk = Desk {
                    table,
                    seats,
                    before,
                };
                let pass = Pass {
                    place,
                    seat: 0,
                    next: 1,
                };
                Ok((desk, pass))
            }
            Err(Refused { slots }) => Err(given_back(slots)),
        }
    }
}

// The machine in the one slot.
fn given_back<W: Work>(slots: Vec<Option<Machine<W>>>) -> Machine<W>
    requires { (machine : Account W W.Content) × (slots.items ≡ Some machine ∷ []) }
    ensures { slots.items ≡ Some result ∷ [] }
{
    let mut slots = slots;
    match slots.pop() {
        Some(Some(machine)) => machine,
        _ => unreachable!(),
    }
}
