ghost use Rattle.std.specs.Prelude.{◌≡◌, IsTrue, IfSome, None, Some, option_map};
ghost use Rattle.std.specs.Arc.{arc_value};
ghost use Rattle.pooma_machine.specs.Values.{FitsLent, new_value_of, outcome_of};
ghost use Rattle.pooma_machine.specs.Slots.{contents_of};

use crate::work::Work;
use std::marker::Model;
use std::snapshot::Snapshot;
use std::sync::Arc;

/// What a dispatch lends to an entry: its work, the value of the object that it writes, which it owns and which is ready to
/// be written, and the values that it reads, which it shares. The work fits them.
///
/// Contracts see the entry, the work and the contents of the values.
#[derive(Drop)]
pub struct Loan<W: Work> {
    entry: u32,
    work: Arc<W>,
    written: Option<W::Value>,
    reads: Vec<Arc<W::Value>>,
}

impl<W: Work> Model for Loan<W> {
    ghost use Rattle.std.specs.Prelude.{IsTrue, IfSome};
    ghost use Rattle.std.specs.Arc.{arc_value};
    ghost use Rattle.pooma_machine.specs.Values.{Loaned, FitsLent};
    ghost use Rattle.pooma_machine.specs.Slots.{contents_of};

    ghost Value = { Loaned W W.Content };

    ghost view = { λ l. record { entry = l.entry; work = arc_value l.work; lent = contents_of W.content l.written l.reads.items } };

    ghost invariant = { λ l. FitsLent W.meaning (arc_value l.work) (contents_of W.content l.written l.reads.items) × IfSome l.written (λ value. IsTrue (W.ready value)) };
}

/// What comes back for a loan: the entry, its work and what was lent to it, with the new value of the object that it writes
/// and the outcome, which are those that the work's meaning gives on what was lent.
#[derive(Drop)]
pub struct Done<W: Work> {
    entry: u32,
    work: Arc<W>,
    lent: Snapshot<Option<W::Value>>,
    written: Option<W::Value>,
    reads: Vec<Arc<W::Value>>,
    outcome: W::Outcome,
}

impl<W: Work> Model for Done<W> {
    ghost use Rattle.std.specs.Prelude.{◌≡◌, option_map};
    ghost use Rattle.std.specs.Arc.{arc_value};
    ghost use Rattle.pooma_machine.specs.Values.{Loaned, new_value_of, outcome_of};
    ghost use Rattle.pooma_machine.specs.Slots.{contents_of};

    ghost Value = { Loaned W W.Content };

    ghost view = { λ d. record { entry = d.entry; work = arc_value d.work; lent = contents_of W.content d.lent.value d.reads.items } };

    ghost invariant = { λ d. (option_map W.content d.written ≡ new_value_of W.meaning (arc_value d.work) (contents_of W.content d.lent.value d.reads.items)) × (d.outcome ≡ outcome_of W.meaning (arc_value d.work) (contents_of W.content d.lent.value d.reads.items)) × (option_map W.meaning.shape (option_map W.content d.written) ≡ option_map W.meaning.shape (option_map W.content d.lent.value)) };
}

impl<W: Work> Loan<W> {
    /// What is lent to an entry.
    pub(crate) fn new(
        entry: u32,
        work: Arc<W>,
        written: Option<W::Value>,
        reads: Vec<Arc<W::Value>>,
    ) -> Loan<W>
        requires fits { FitsLent W.meaning (arc_value work) (contents_of W.content written reads.items) }
        requires ready { IfSome written (λ value. IsTrue (W.ready value)) }
        ensures { result ≡ record { entry = entry; work = arc_value work; lent = contents_of W.content written reads.items } }
    {
        Loan {
            entry,
            work,
            written,
            reads,
        }
    }

    /// The entry that was dispatched.
    pub fn entry(&self) -> u32
        ensures { result ≡ self.now.entry }
    {
        self.entry
    }

    /// Does the work. It takes no memory.
    pub fn perform(self) -> Done<W>
        ensures entry { result.entry ≡ self.entry }
        ensures work { result.work ≡ self.work }
        ensures lent { result.lent ≡ self.lent }
    {
        let Loan {
            entry,
            work,
            written,
            reads,
        } = self;
        let lent = Snapshot::of(&written);
        match written {
            None => {
                let outcome = read_with(&*work, reads.as_slice());
                Done {
                    entry,
                    work,
                    lent,
                    written: None,
                    reads,
                    outcome,
                }
            }
            Some(value) => {
                let (value, outcome) = write_with(&*work, value, reads.as_slice());
                Done {
                    entry,
                    work,
                    lent,
                    written: Some(value),
                    reads,
                    outcome,
                }
            }
        }
    }
}

// The outcome of a work that writes nothing.
fn read_with<'a, W: Work>(work: &'a W, reads: &'a [Arc<W::Value>]) -> W::Outcome
    requires { FitsLent W.meaning work.now (contents_of W.content None reads.now) }
    ensures { result ≡ outcome_of W.meaning work.now (contents_of W.content None reads.now) }
{
    let nothing: Option<&'a mut W::Value> = None;
    work.perform(nothing, reads)
}

// The new value and the outcome of a work that writes.
fn write_with<W: Work>(work: &W, value: W::Value, reads: &[Arc<W::Value>]) -> (W::Value, W::Outcome)
    requires fits { FitsLent W.meaning work.now (contents_of W.content (Some value) reads.now) }
    requires ready { IsTrue (W.ready value) }
    ensures value { Some (W.content result.0) ≡ new_value_of W.meaning work.now (contents_of W.content (Some value) reads.now) }
    ensures outcome { result.1 ≡ outcome_of W.meaning work.now (contents_of W.content (Some value) reads.now) }
    ensures shape { W.meaning.shape (W.content result.0) ≡ W.meaning.shape (W.content value) }
{
    let mut value = value;
    let outcome = work.perform(Some(&mut value), reads);
    (value, outcome)
}

impl<W: Work> Done<W> {
    /// The entry whose work was done.
    pub fn entry(&self) -> u32
        ensures { result ≡ self.now.entry }
    {
        self.entry
    }

    /// What the machine keeps of it: the work, the new value of the object that it writes, and the outcome.
    pub(crate) fn kept(self) -> (Arc<W>, Option<W::Value>, W::Outcome)
        ensures work { arc_value result.0 ≡ self.work }
        ensures value { option_map W.content result.1 ≡ new_value_of W.meaning self.work self.lent }
        ensures shape { option_map W.meaning.shape (option_map W.content result.1) ≡ option_map W.meaning.shape self.lent.written }
        ensures outcome { result.2 ≡ outcome_of W.meaning self.work self.lent }
    {
        let Done {
            entry: _,
            work,
            lent,
            written,
            reads,
            outcome,
        } = self;
        drop(lent);
        drop(reads);
        (work, written, outcome)
    }
}
