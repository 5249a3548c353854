//! The places of the workers of a window, each with its pass.
ghost use Rattle.std.specs.Prelude.{◌≡◌, ◌≢◌, ◌-◌, ◌<◌, ℕ, true, None, Some, All, IfOk, [], length};
ghost use Rattle.std.specs.List.{range_with_len};
ghost use Rattle.pooma_desk.specs.Tokens.{own_calls, seats_of};
ghost use Rattle.pooma_desk.specs.Seen.{is_one_of};
ghost use Rattle.pooma_window.specs.Workers.{AsksNothing, HasPass, HasWorker, StaysSeated};

use crossbeam_utils::CachePadded;
use pooma_desk::{Desk, Pass};
use pooma_machine::Work;
use pooma_worker::{Gate, work_loop};
use std::alloc::{AllocError, Global};
use std::marker::Model;
use std::sync::Wait;

/// The place of a worker: its pass, while no loop has it, on cache lines of its own.
#[derive(Drop)]
pub(crate) struct Place<W: Work> {
    pass: CachePadded<Option<Pass<W>>>,
}

impl<W: Work> Model for Place<W> {
    ghost use Rattle.std.specs.Prelude.{Option};
    ghost use Rattle.crossbeam_utils.specs.Padded.{padded_value};
    ghost use Rattle.pooma_desk.specs.Tokens.{Token};

    ghost Value = { Option (Token W W.Content) };

    ghost view = { λ p. padded_value p.pass };
}

impl<W: Work> Place<W> {
    // The place with this pass.
    fn with(pass: Pass<W>) -> Place<W>
        ensures { result ≡ Some pass }
    {
        Place {
            pass: CachePadded::new(Some(pass)),
        }
    }

    // Takes the pass from its place.
    fn into_pass(self) -> Pass<W>
        requires { self ≢ None }
        ensures { self ≡ Some result }
    {
        match self.pass.into_inner() {
            Some(pass) => pass,
            None => unreachable!(),
        }
    }

    /// Runs a loop with the pass at this place, and leaves the pass there.
    pub(crate) fn run<R: Wait, G: Gate>(&mut self, rt: &R, alloc: Global, desk: &Desk<W>, gate: &G)
        requires { HasPass desk.now self.old }
        ensures { StaysSeated desk.now self.old self.new }
    {
        let Some(pass) = self.pass.take() else {
            unreachable!();
        };
        let worked = work_loop(rt, alloc, desk, pass, gate);
        *self = Place::with(worked.pass);
    }
}

/// Splits the first pass of a desk of so many seats into one for each seat, and gives each a place.
pub(crate) fn dealt<W: Work>(
    alloc: Global,
    desk: &Desk<W>,
    first: Pass<W>,
    seats: u32,
) -> Result<Vec<Place<W>>, AllocError>
    requires from { first.from ≡ desk.now }
    requires some { 0 < seats }
    requires seat { first.seat ≡ 0 }
    requires shares { first.shares ≡ seats }
    requires left { first.left ≡ range_with_len 1 (seats - 1) }
    requires quiet { own_calls first ≡ [] }
    ensures count { IfOk result (λ places. length places.items ≡ seats) }
    ensures passes { IfOk result (λ places. All (HasPass desk.now) places.items) }
    ensures workers { IfOk result (λ places. (seat : ℕ) → seat < seats → HasWorker places.items seat) }
{
    let mut places = Vec::new(alloc);
    let mut first = first;
    for _ in 1..seats {
        let (kept, other) = desk.split(first);
        first = kept;
        places.push(Place::with(other))?;
    }
    places.push(Place::with(first))?;
    Ok(places)
}

/// Joins the passes at these places into one, which has all their shares and seats.
pub(crate) fn gathered<W: Work>(desk: &Desk<W>, places: Vec<Place<W>>) -> Pass<W>
    requires some { 0 < length places.items }
    requires passes { All (HasPass desk.now) places.items }
    ensures from { result.from ≡ desk.now }
    ensures shares { result.shares ≡ length places.items }
    ensures seats { (seat : ℕ) → HasWorker places.items seat → is_one_of (seats_of result) seat ≡ true }
    ensures quiet { AsksNothing result }
{
    let mut places = places;
    let Some(last) = places.pop() else {
        unreachable!();
    };
    let mut pass = last.into_pass();
    while let Some(place) = places.pop() {
        pass = desk.join(pass, place.into_pass());
    }
    pass
}
