ghost use Rattle.std.specs.Prelude.{◌≡◌};

use crate::sight::Sight;
use atomic_table::Seat;
use pooma_machine::{Machine, Work};
use std::marker::Model;

/// The place of a pass at its desk, with what is known there.
pub(crate) type Place<W> = Seat<Option<Machine<W>>, Sight<W>>;

/// A caller's token at one desk.
///
/// Contracts see the desk that it came from, its seat and those that were joined into it, its shares and the numbers of seats
/// that it has left, and what it has seen of what happened since the desk was started. Its own calls among that are those
/// under its seats.
#[derive(Drop)]
pub struct Pass<W: Work> {
    pub(crate) place: Place<W>,
    pub(crate) seat: u32,
    pub(crate) next: u32,
}

impl<W: Work> Model for Pass<W> {
    ghost use Rattle.pooma_desk.specs.Tokens.{Token, token_of};
    ghost use Rattle.pooma_desk.specs.Turns.{IsOutside};

    ghost Value = { Token W W.Content };

    ghost view = { λ p. token_of p.place.table_id p.place.me.0 };

    ghost invariant = { λ p. IsOutside W.meaning p.place.me p.seat p.next };
}

impl<W: Work> Pass<W> {
    ghost use Rattle.std.specs.Prelude.{◌<◌, ℕ, Contains};
    ghost use Rattle.pooma_desk.specs.declared.sight.Noted.{Noted};
    ghost use Rattle.pooma_desk.specs.Tokens.{IsLegalFor};

    /// Its own seat.
    pub fn seat(&self) -> u32
        ensures seat { result ≡ self.now.seat }
        // What it has seen is legal, and each event of it names a seat of the desk.
        ensures legal { IsLegalFor W.meaning self.now }
        ensures named { (n : Noted W) → Contains self.now.seen n → n.event.seat < self.now.from.seats }
    {
        self.seat
    }
}
