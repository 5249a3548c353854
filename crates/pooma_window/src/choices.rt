ghost use Rattle.std.specs.Prelude.{◌≡◌, ◌≢◌, ◌↔◌, ◌⊎◌, ◌<◌, ◌≤◌, ℕ, [], Contains, IfNone, IfOk, IfSome, OnErr, OnOk, length, slice_index};
ghost use Rattle.pooma_machine.specs.Became.{IsAscending};

use std::alloc::{AllocError, Global};
use std::marker::Model;

/// The entries that may be run now, ascending. Contracts see them as a list.
#[derive(Drop)]
pub(crate) struct Choices {
    entries: Vec<u32>,
    // Those in front of this place were taken off, and nothing was moved for it.
    from: usize,
}

impl Model for Choices {
    ghost use Rattle.std.specs.Prelude.{◌≤◌, ℕ, List, drop, length};
    ghost use Rattle.pooma_machine.specs.Became.{IsAscending};

    ghost Value = { List ℕ };

    ghost view = { λ c. drop c.from c.entries.items };

    ghost invariant = { λ c. (c.from ≤ length c.entries.items) × IsAscending (drop c.from c.entries.items) };
}

impl Choices {
    /// No entries. It takes no memory.
    pub(crate) fn none(alloc: Global) -> Choices
        ensures { result ≡ [] }
    {
        Choices {
            entries: Vec::new(alloc),
            from: 0,
        }
    }

    /// The entries.
    pub(crate) fn as_slice(&self) -> &[u32]
        ensures entries { result.now ≡ self.now }
        ensures ascending { IsAscending self.now }
    {
        &self.entries[self.from..]
    }

    /// Takes off the entry at this place, and answers it. The first is taken off without moving the others.
    pub(crate) fn take_off(&mut self, place: usize) -> u32
        requires { place < length self.old }
        ensures entry { result ≡ slice_index self.old place }
        ensures others { (j : ℕ) → Contains self.new j ↔ (Contains self.old j × (j ≢ result)) }
    {
        if place == 0 {
            let entry = self.entries[self.from];
            self.from += 1;
            entry
        } else {
            self.entries.remove(self.from + place)
        }
    }

    /// Puts an entry to the others, if it is not there yet. Only want of memory refuses it, and then all is as before.
    pub(crate) fn put(&mut self, _alloc: Global, entry: u32) -> Result<(), AllocError>
        ensures ok { OnOk result ((j : ℕ) → Contains self.new j ↔ (Contains self.old j ⊎ (j ≡ entry))) }
        ensures err { OnErr result (self.new ≡ self.old) }
    {
        let Err(place) = self.as_slice().binary_search(&entry) else {
            return Ok(());
        };
        if place == 0 && self.from > 0 {
            self.from -= 1;
            self.entries[self.from] = entry;
            Ok(())
        } else {
            self.entries.insert(self.from + place, entry)?;
            Ok(())
        }
    }

    /// Puts ascending entries to the others, each that is not there yet, in one pass over all of them. Only want of memory
    /// refuses it, and then all is as before.
    pub(crate) fn put_all(&mut self, alloc: Global, more: &[u32]) -> Result<(), AllocError>
        requires { IsAscending more.now }
        ensures ok { OnOk result ((j : ℕ) → Contains self.new j ↔ (Contains self.old j ⊎ Contains more.now j)) }
        ensures err { OnErr result (self.new ≡ self.old) }
    {
        let entries = merged(alloc, self.as_slice(), more)?;
        *self = Choices { entries, from: 0 };
        Ok(())
    }
}

// The entries of two ascending lists as one.
fn merged(alloc: Global, one: &[u32], other: &[u32]) -> Result<Vec<u32>, AllocError>
    requires one { IsAscending one.now }
    requires other { IsAscending other.now }
    ensures ascending { IfOk result (λ all. IsAscending all.items) }
    ensures exactly { IfOk result (λ all. (j : ℕ) → Contains all.items j ↔ (Contains one.now j ⊎ Contains other.now j)) }
{
    let mut all = Vec::with_capacity(alloc, one.len().max(other.len()))?;
    let mut left = one;
    let mut right = other;
    'entries: while let Some(entry) = least(left, right) {
        all.push(entry)?;
        left = behind(left, entry);
        right = behind(right, entry);
    }
    Ok(all)
}

// The least entry of two ascending lists.
fn least(one: &[u32], other: &[u32]) -> Option<u32>
    requires one { IsAscending one.now }
    requires other { IsAscending other.now }
    ensures none { IfNone result ((one.now ≡ []) × (other.now ≡ [])) }
    ensures there { IfSome result (λ entry. Contains one.now entry ⊎ Contains other.now entry) }
    ensures least { IfSome result (λ entry. (j : ℕ) → Contains one.now j ⊎ Contains other.now j → entry ≤ j) }
{
    match (one.first(), other.first()) {
        (None, None) => None,
        (Some(a), None) => Some(*a),
        (None, Some(b)) => Some(*b),
        (Some(a), Some(b)) => Some((*a).min(*b)),
    }
}

// What an ascending list has behind an entry that none of it is below.
fn behind(entries: &[u32], entry: u32) -> &[u32]
    requires ascending { IsAscending entries.now }
    requires least { (j : ℕ) → Contains entries.now j → entry ≤ j }
    ensures ascending { IsAscending result.now }
    ensures others { (j : ℕ) → Contains result.now j ↔ (Contains entries.now j × (j ≢ entry)) }
    ensures shorter { length result.now ≤ length entries.now }
    ensures off { Contains entries.now entry → length result.now < length entries.now }
{
    match entries {
        [first, rest @ ..] if *first == entry => rest,
        _ => entries,
    }
}
