use atomic_table::{Join, Play, Split, TableRule};
use pooma_machine::{Event, EventKind, Machine, Work};
use std::collections::LinkedList;
use std::marker::{Brand, Model, PhantomData};
use std::snapshot::Snapshot;

/// What a desk was started with: its machine as it was then, and the number of seats.
#[derive(Drop)]
pub struct Start<W: Work> {
    pub machine: Snapshot<Machine<W>>,
    pub seats: u32,
}

impl<W: Work> Model for Start<W> {
    ghost use Rattle.pooma_desk.specs.Sight.{Began};

    ghost Value = { Began W W.Content };

    ghost view = { λ s. record { machine = s.machine.value; seats = s.seats } };
}

/// An event since the start; a request stands with its work. No value of it is made.
pub struct Noted<W> {
    pub event: Event,
    pub work: Option<W>,
}

/// What is known at the place of a pass. No value of it is made.
pub struct Sight<W: Work> {
    start: Start<W>,
    seats: LinkedList<u32>,
    next: u32,
    shares: u32,
    seen: LinkedList<Noted<W>>,
    others: LinkedList<u32>,
    told: LinkedList<Noted<W>>,
    holds: bool,
}

impl<W: Work> Model for Sight<W> {
    ghost use Rattle.pooma_desk.specs.Sight.{Sight};

    ghost Value = { Sight W W.Content };

    ghost view = { λ s. record { start = s.start; seats = s.seats; next = s.next; shares = s.shares; seen = s.seen; others = s.others; told = s.told; holds = s.holds } };
}

/// The rule of a desk.
pub struct OneHistory;

impl<W: Work> TableRule<Option<Machine<W>>, Sight<W>, Start<W>> for OneHistory {
    ghost use Rattle.pooma_desk.specs.Rule.{IsKept};
    ghost use Rattle.pooma_desk.specs.Steps.{first_sight};

    ghost holds = { IsKept };

    ghost first = { first_sight };
}

/// Step 3.
pub struct Take;

impl<W: Work> Play<Option<Machine<W>>, Sight<W>> for Take {
    ghost use Rattle.pooma_desk.specs.Steps.{Takes};

    ghost then = { Takes };
}

/// A look before step 3.
pub struct Peek;

impl<W: Work> Play<Option<Machine<W>>, Sight<W>> for Peek {
    ghost use Rattle.pooma_desk.specs.Steps.{Peeks};

    ghost then = { Peeks };
}

/// Which event a step notes: its caller picks it, since the step itself carries numbers alone.
pub trait Picked<W> {
    ghost use Rattle.pooma_desk.specs.declared.sight.Noted.{Noted};

    ghost event: { Noted W };
}

impl<W> Picked<W> for Brand {
    ghost use Rattle.std.specs.Prelude.{None};
    ghost use Rattle.pooma_machine.specs.declared.step.EventKind.TheVariants as kind;

    ghost event = { record { event = record { kind = kind.Request; entry = 0; seat = 0 }; work = None } };
}

/// Step 5.
pub struct Note<E> {
    event: PhantomData<E>,
}

impl<W: Work, E: Picked<W>> Play<Option<Machine<W>>, Sight<W>> for Note<E> {
    ghost use Rattle.pooma_desk.specs.Steps.{Notes};

    ghost then = { Notes E.event };
}

/// Step 7.
pub struct Leave;

impl<W: Work> Play<Option<Machine<W>>, Sight<W>> for Leave {
    ghost use Rattle.pooma_desk.specs.Steps.{Leaves};

    ghost then = { Leaves };
}

/// The load that ends step 2.
pub struct Merge;

impl<W: Work> Play<Option<Machine<W>>, Sight<W>> for Merge {
    ghost use Rattle.pooma_desk.specs.Steps.{Joins};

    ghost then = { Joins };
}

/// Steps 1 and 2.
pub struct Shares;

impl<W: Work> Split<Sight<W>> for Shares {
    ghost use Rattle.pooma_desk.specs.Steps.{given_away, newcomer};

    ghost left = { given_away };

    ghost right = { newcomer };
}

impl<W: Work> Join<Sight<W>> for Shares {
    ghost use Rattle.pooma_desk.specs.Steps.{joining, spent};

    ghost both = { joining };

    ghost spent = { spent };
}
