ghost use Rattle.std.specs.Prelude.{◌≡◌, ◌||◌, [], false, length, take, nat_lt};
ghost use Rattle.pooma_machine.specs.Became.{with_entry};

use arrayvec::ArrayVec;
use std::marker::Model;

// The greatest number of entries that are named.
const MOST: usize = 16;

/// The entries that became ready by a release: all of them, or the 16 least where there were more. It takes no memory.
///
/// Contracts see these entries, and whether there were further ones.
#[derive(Drop)]
pub struct Became {
    // In order. There is room for one more than is named: it is put in before the last one is cut off.
    entries: ArrayVec<u32, 17>,
    more: bool,
}

impl Model for Became {
    ghost use Rattle.std.specs.Prelude.{◌≤◌, length};
    ghost use Rattle.pooma_machine.specs.Became.{Woken, IsAscending};

    ghost Value = { Woken };

    ghost view = { λ b. record { entries = b.entries.items; more = b.more } };

    ghost invariant = { λ b. IsAscending b.entries.items × (length b.entries.items ≤ 16) };
}

impl Became {
    /// No entries.
    pub(crate) fn none() -> Became
        ensures entries { result.entries ≡ [] }
        ensures more { result.more ≡ false }
    {
        Became {
            entries: ArrayVec::new(),
            more: false,
        }
    }

    /// The entries that became ready, in order, or the 16 least of them where there were more than 16.
    pub fn entries(&self) -> &[u32]
        ensures { result.now ≡ self.now.entries }
    {
        self.entries.as_slice()
    }

    /// Whether there were further ones.
    pub fn more(&self) -> bool
        ensures { result ≡ self.now.more }
    {
        self.more
    }

    /// Notes one more entry, if it is not noted yet.
    pub(crate) fn note(&mut self, entry: u32)
        ensures entries { self.new.entries ≡ take 16 (with_entry entry self.old.entries) }
        ensures more { self.new.more ≡ (self.old.more || nat_lt 16 (length (with_entry entry self.old.entries))) }
    {
        if let Err(place) = self.entries.binary_search(&entry) {
            self.entries.insert(place, entry);
            self.more |= self.entries.len() > MOST;
            self.entries.truncate(MOST);
        }
    }
}
