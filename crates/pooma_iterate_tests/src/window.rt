ghost use Rattle.std.specs.Prelude.{◌≡◌, ◌<◌, ◌+◌, ◌^◌, ◌++◌, ◌∷◌, [], List, OnOk, length};
ghost use Rattle.pooma_machine.specs.Told.{Window};
ghost use Rattle.pooma_window.specs.Questions.{Question};

use pooma_machine::{EventKind, ListJournal, Mode, Request, Work};
use pooma_window::{Completer, ListPicker, OneThread};
use std::alloc::{AllocError, Global};
use std::slice;
use std::sync::Arc;

// A work that adds one to the object that it asks for, which is one of two.
#[derive(Drop)]
struct Step {
    asks: Request,
    ghost there: { asks.object < 2 },
}

impl Work for Step {
    type Value = u64;

    type Outcome = ();

    type Content = u64;

    type Shape = ();

    ghost use Rattle.std.specs.Prelude.{◌+◌, ◌%◌, ◌^◌, ◌∷◌, [], true};

    ghost content = { λ v. v };

    ghost ready = { λ v. true };

    ghost meaning = { record { statement = λ w. 0; requests = λ w. w.asks ∷ []; new_value = λ w v rs. (v + 1) % 2 ^ 64; outcome = λ w v rs. tt; shape = λ v. tt; fits = λ w s rs. true } };

    fn requests(&self) -> &[Request] {
        slice::from_ref(&self.asks)
    }

    fn statement(&self) -> u32 {
        0
    }

    fn perform(&self, write: Option<&mut u64>, _reads: &[Arc<u64>]) {
        if let Some(value) = write {
            *value = value.wrapping_add(1);
        }
    }

    fn copied(_alloc: Global, value: &u64) -> Result<u64, AllocError> {
        Ok(*value)
    }

    fn prepared(_alloc: Global, _value: &mut u64) -> Result<(), AllocError> {
        Ok(())
    }
}

// A work that writes this object.
fn write_to(alloc: Global, object: u32) -> Result<Arc<Step>, AllocError>
    requires { object < 2 }
{
    Ok(Arc::new(
        alloc,
        Step {
            asks: Request {
                object,
                mode: Mode::Write,
            },
        },
    )?)
}

// Completes a window of these works.
fn complete(
    alloc: Global,
    picker: &mut ListPicker,
    journal: &mut ListJournal,
    works: Vec<Arc<Step>>,
) -> Result<(), AllocError>
    requires { length works.items < 100 }
    ensures asked { OnOk result ((questions : List Question) × (picker.new.questions ≡ picker.old.questions ++ questions)) }
    ensures told { OnOk result ((window : Window) × (journal.new ≡ journal.old ++ window ∷ [])) }
{
    let objects = vec![in alloc; Arc::new(alloc, 0u64)?, Arc::new(alloc, 0u64)?]?;
    let mut one = OneThread::new(picker, journal);
    let _done = one.complete(alloc, objects, works)?;
    Ok(())
}

// Whether these are the questions that were asked, each with its list and its answer.
fn asked_are(picker: &ListPicker, expected: &[(&[u32], usize)]) -> bool {
    for (k, (ready, answer)) in expected.iter().enumerate() {
        if k >= picker.questions() || picker.ready(k) != *ready || picker.answer(k) != *answer {
            return false;
        }
    }
    picker.questions() == expected.len()
}

// Whether one window was told, in which these entries were dispatched in this order.
fn dispatched_are(journal: &ListJournal, expected: &[u32]) -> bool {
    if journal.windows() != 1 {
        return false;
    }
    let mut place = 0;
    for event in journal.events(0) {
        if event.kind == EventKind::Dispatch {
            if place >= expected.len() || expected[place] != event.entry {
                return false;
            }
            place += 1;
        }
    }
    place == expected.len()
}

// Four entries, the third behind the first and the fourth behind the second, where the picker answers the last place.
const QUESTIONS: &[(&[u32], usize)] = &[(&[0, 1], 1), (&[0, 3], 1), (&[0], 0), (&[2], 0)];

const ORDER: &[u32] = &[1, 3, 0, 2];

fn four(alloc: Global) -> Result<bool, AllocError> {
    let mut picker = ListPicker::new(alloc, true);
    let mut journal = ListJournal::new(alloc);
    let works = vec![in alloc;
        write_to(alloc, 0)?,
        write_to(alloc, 1)?,
        write_to(alloc, 0)?,
        write_to(alloc, 1)?,
    ]?;
    complete(alloc, &mut picker, &mut journal, works)?;
    Ok(asked_are(&picker, QUESTIONS) && dispatched_are(&journal, ORDER))
}

#[test]
fn the_last_place_of_each_list(rt: HostRuntime) {
    assert!(rt; four(rt.alloc()) == Ok(true));
}
