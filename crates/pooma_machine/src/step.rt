use pooma_queue::Mode;

/// What an entry asks of one object.
#[derive(Clone, Copy, Debug, Default, PartialEq, Eq)]
pub struct Request {
    /// The number of the object.
    pub object: u32,
    /// What it asks for.
    pub mode: Mode,
}

/// What happens to an entry.
#[derive(Clone, Copy, Debug, PartialEq, Eq)]
pub enum EventKind {
    /// It is issued.
    Request,
    /// Its objects' values are lent to it.
    Dispatch,
    /// It gives them back.
    Release,
}

/// One event of a machine's history.
#[derive(Clone, Copy, Debug, PartialEq, Eq)]
pub struct Event {
    /// What happened.
    pub kind: EventKind,
    /// The number of the entry.
    pub entry: u32,
    /// The seat of the caller.
    pub seat: u32,
}

/// Where an entry stands.
#[derive(Clone, Copy, Debug, PartialEq, Eq)]
pub enum Status {
    /// It was issued, and not dispatched yet.
    Waiting,
    /// It was dispatched at this seat, and not released yet.
    Out(u32),
    /// It was released, after a dispatch at this seat.
    Released(u32),
}

impl Status {
    ghost use Rattle.std.specs.Prelude.{◌≡◌, ℕ, Some};
    ghost use Rattle.pooma_machine.specs.Steps.{is_released, next, seat_of};
    ghost use Rattle.pooma_machine.specs.declared.step.EventKind.TheVariants as kind;

    /// Whether the entry was released.
    pub(crate) fn is_released(&self) -> bool
        ensures { result ≡ is_released (Some self.now) }
    {
        matches!(self, Status::Released(_))
    }

    /// The seat of the entry's dispatch, if it was dispatched.
    pub(crate) fn seat(&self) -> Option<u32>
        ensures { result ≡ seat_of (Some self.now) }
    {
        match self {
            Status::Waiting => None,
            Status::Out(seat) | Status::Released(seat) => Some(*seat),
        }
    }

    /// Marks an entry that is out as released.
    pub(crate) fn release(&mut self)
        ensures { (seat : ℕ) → Some self.new ≡ next kind.Release seat (Some self.old) }
    {
        if let Status::Out(seat) = *self {
            *self = Status::Released(seat);
        }
    }
}
