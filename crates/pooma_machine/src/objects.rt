ghost use Rattle.std.specs.Prelude.{◌≡◌, ◌<◌, ◌≤◌, All, IfErr, IfOk, IfSome, IsSome, IsTrue, None, OnErr, OnOk, Some, [], length, map, option_map, option_and_then, vec_capacity};
ghost use Rattle.std.specs.Arc.{arc_value};
ghost use Rattle.pooma_machine.specs.Values.{FitsLent, put_back, read_objects, written_object, is_write};
ghost use Rattle.pooma_machine.specs.Slots.{content_in, contents, home_at, lent_from, reads_from};
ghost use Rattle.pooma_machine.specs.declared.slot.Slot.{Slot};

use crate::loan::Loan;
use crate::slot::{Slot, into_shared, share, take};
use crate::step::Request;
use crate::work::Work;
use pooma_queue::Mode;
use std::alloc::{AllocError, Global};
use std::marker::Model;
use std::sync::Arc;

/// The values of a machine's objects. Contracts see the content of each that is not lent to write.
#[derive(Drop)]
pub(crate) struct Objects<W: Work> {
    slots: Vec<Slot<W::Value>>,
}

impl<W: Work> Model for Objects<W> {
    ghost use Rattle.std.specs.Prelude.{List, Option, map};
    ghost use Rattle.pooma_machine.specs.Slots.{content_in};

    ghost Value = { List (Option W.Content) };

    ghost view = { λ o. map (content_in W.content) o.slots.items };
}

impl<W: Work> Objects<W> {
    /// Objects of these values. Only want of memory refuses it, and hands them back.
    pub(crate) fn new(
        alloc: Global,
        values: Vec<Arc<W::Value>>,
    ) -> Result<Objects<W>, Vec<Arc<W::Value>>>
        ensures there { IfOk result (λ objects. objects ≡ map (λ content. Some content) (contents W.content values.items)) }
        ensures given_back { IfErr result (λ given. given.items ≡ values.items) }
    {
        match Vec::with_capacity(alloc, values.len()) {
            Ok(slots) => Ok(Objects {
                slots: shared(slots, values),
            }),
            Err(_) => Err(values),
        }
    }

    /// Lends to this entry what its work asks for, which is there and which it fits. The loan shares the work. After want of
    /// memory all are as before.
    pub(crate) fn lend(
        &mut self,
        alloc: Global,
        entry: u32,
        work: &Arc<W>,
    ) -> Result<Loan<W>, AllocError>
        requires home { All (λ r. IsSome (home_at self.old r.object)) (W.meaning.requests (arc_value work.now)) }
        requires fits { FitsLent W.meaning (arc_value work.now) (lent_from self.old (W.meaning.requests (arc_value work.now))) }
        ensures loan { IfOk result (λ loan. loan ≡ record { entry = entry; work = arc_value work.now; lent = lent_from self.old (W.meaning.requests (arc_value work.now)) }) }
        ensures away { OnOk result (self.new ≡ put_back self.old (written_object (W.meaning.requests (arc_value work.now))) (Some None)) }
        ensures err { OnErr result (self.new ≡ self.old) }
    {
        let work = Arc::try_clone(work)?;
        let reads = self.lend_reads(alloc, work.requests())?;
        let written = self.lend_written(alloc, written(work.requests()))?;
        Ok(Loan::new(entry, work, written, reads))
    }

    // Shares the values of the objects that the requests ask to read. No content changes, also where memory is short.
    fn lend_reads(
        &mut self,
        alloc: Global,
        requests: &[Request],
    ) -> Result<Vec<Arc<W::Value>>, AllocError>
        requires { All (λ r. IsSome (home_at self.old r.object)) requests.now }
        ensures same { self.new ≡ self.old }
        ensures ok { IfOk result (λ reads. contents W.content reads.items ≡ reads_from self.old requests.now) }
    {
        let mut reads = Vec::new(alloc);
        for request in requests {
            if !is_write(request.mode) {
                reads.push(share::<W>(alloc, &mut self.slots[request.object as usize])?)?;
            }
        }
        Ok(reads)
    }

    // Takes the value of this object, if there is one. After want of memory no content has changed.
    fn lend_written(
        &mut self,
        alloc: Global,
        object: Option<u32>,
    ) -> Result<Option<W::Value>, AllocError>
        requires { IfSome object (λ o. IsSome (home_at self.old o)) }
        ensures ok { IfOk result (λ written. option_map W.content written ≡ option_and_then (home_at self.old) object) }
        ensures ready { IfOk result (λ written. IfSome written (λ value. IsTrue (W.ready value))) }
        ensures away { OnOk result (self.new ≡ put_back self.old object (Some None)) }
        ensures err { OnErr result (self.new ≡ self.old) }
    {
        match object {
            None => Ok(None),
            Some(object) => {
                let value = take::<W>(alloc, &mut self.slots[object as usize])?;
                Ok(Some(value))
            }
        }
    }

    /// Puts the value back to the object that these requests ask to write, if there are both.
    pub(crate) fn give_back(&mut self, requests: &[Request], value: Option<W::Value>)
        requires { IfSome (written_object requests.now) (λ o. o < length self.old) }
        ensures { self.new ≡ put_back self.old (written_object requests.now) (option_map (λ content. Some content) (option_map W.content value)) }
    {
        match (written(requests), value) {
            (Some(object), Some(value)) => self.slots[object as usize] = Slot::Owned(value),
            (_, _) => {}
        }
    }

    /// The values, all of which are there. After want of memory they are given up.
    pub(crate) fn into_values(self, alloc: Global) -> Result<Vec<Arc<W::Value>>, AllocError>
        requires { All (λ home. IsSome home) self }
        ensures { IfOk result (λ values. self ≡ map (λ content. Some content) (contents W.content values.items)) }
    {
        brought_home::<W>(alloc, self.slots)
    }
}

// The values of slots none of which is away.
fn brought_home<W: Work>(
    alloc: Global,
    slots: Vec<Slot<W::Value>>,
) -> Result<Vec<Arc<W::Value>>, AllocError>
    requires { All (λ home. IsSome home) (map (content_in W.content) slots.items) }
    ensures { IfOk result (λ values. map (content_in W.content) slots.items ≡ map (λ content. Some content) (contents W.content values.items)) }
{
    let mut values = Vec::new(alloc);
    for slot in slots {
        values.push(into_shared::<W>(alloc, slot)?)?;
    }
    Ok(values)
}

// The object that the requests ask to write.
fn written(requests: &[Request]) -> Option<u32>
    ensures { result ≡ written_object requests.now }
{
    requests
        .iter()
        .find(|request| is_write(request.mode))
        .map(|request| request.object)
}

fn is_write(mode: Mode) -> bool
    ensures { result ≡ is_write mode }
{
    match mode {
        Mode::Read => false,
        Mode::Write => true,
    }
}

// The values, each where others may share it.
fn shared<V: Drop>(mut slots: Vec<Slot<V>>, values: Vec<Arc<V>>) -> Vec<Slot<V>>
    requires empty { slots.items ≡ [] }
    requires room { length values.items ≤ vec_capacity slots }
    ensures { result.items ≡ map (λ arc. Slot.Shared arc) values.items }
{
    for arc in values {
        slots.push_reserved(Slot::Shared(arc));
    }
    slots
}
