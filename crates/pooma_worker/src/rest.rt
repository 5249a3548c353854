use crossbeam_utils::Backoff;

// The pause between two looks grows up to 2 to this number of snoozes.
const LONGEST: u32 = 7;

// Between two whole looks there is at the most one short look for so many entries.
const ENTRIES_A_LOOK: u32 = 64;

/// How a loop rests while it finds nothing ready.
///
/// A look at all that waits keeps the turn for as long as there are entries. So these looks come more and more rarely, and
/// those between them see no more than whether all is released.
#[derive(Drop)]
pub(crate) struct Rest {
    backoff: Backoff,
    // How many pauses there were in a row, as far as they make the next one longer.
    pauses: u32,
    // How many short looks are left before the next whole one, and how many come behind that one.
    left: u32,
    next: u32,
}

impl Rest {
    /// No rest yet: the next look is a whole one.
    pub(crate) fn new() -> Rest {
        Rest {
            backoff: Backoff::new(),
            pauses: 0,
            left: 0,
            next: 0,
        }
    }

    /// The entry from which the next look goes: all of them in a whole look, none in a short one.
    pub(crate) fn from(&self) -> u32 {
        if self.left == 0 { 0 } else { u32::MAX }
    }

    /// Pauses after a look that found nothing ready among so many entries.
    pub(crate) fn pause(&mut self, entries: u32) {
        if self.left > 0 {
            self.left -= 1;
        } else {
            self.left = self.next;
            self.next = self
                .next
                .saturating_mul(2)
                .saturating_add(1)
                .min(entries / ENTRIES_A_LOOK);
        }
        for _ in 0..1u32 << self.pauses.min(LONGEST) {
            self.backoff.snooze();
        }
        self.pauses = self.pauses.saturating_add(1);
    }
}
