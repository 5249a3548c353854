//! Runs of programs, with the answers that they come to.
ghost use Rattle.std.specs.Prelude.{◌≡◌, ◌≤◌, IfOk, OnOk};
ghost use Rattle.pooma_model.specs.Serial.{serial_of};
ghost use Rattle.pooma_run.specs.Told.{HasAsked};
ghost use Rattle.pooma_top.specs.Output.{ended, run_output, shown};

use crate::output::Answer;
use crate::status::Status;
use pooma_machine::NoJournal;
use pooma_model::Program;
use pooma_run::{Ended, First, Picker, run_many, run_one};
use pooma_worker::Gate;
use std::alloc::{AllocError, Global};
use std::sync::Wait;
use std::thread::Threads;

/// The answer to a program that is run on this thread, in the order of the picker. The only error is want of memory.
pub fn by_picker<P: Picker>(
    alloc: Global,
    program: &Program,
    picker: &mut P,
) -> Result<Answer, AllocError>
    ensures answer { IfOk result (λ answer. shown answer ≡ run_output (serial_of program.now)) }
    ensures asked { OnOk result (HasAsked program.now (P.asked picker.old) (P.asked picker.new)) }
{
    let run = run_one(alloc, program, picker, &mut NoJournal)?;
    Ok(answer_of(run))
}

/// The answer to a program that is run by so many workers, 1 to 64, who call the gate before each work. The only error is want
/// of memory. One worker is this thread, which starts no other.
pub fn by_workers<R: Threads + Wait + Sync, G: Gate + Sync>(
    rt: &R,
    alloc: Global,
    program: &Program,
    workers: u32,
    gate: &G,
) -> Result<Answer, AllocError>
    requires some { 1 ≤ workers }
    requires few { workers ≤ 64 }
    ensures { IfOk result (λ answer. shown answer ≡ run_output (serial_of program.now)) }
{
    if workers == 1 {
        return by_picker(alloc, program, &mut First);
    }
    let run = run_many(rt, alloc, program, workers, gate, &mut NoJournal)?;
    Ok(answer_of(run))
}

// The answer of a run that ended.
fn answer_of(run: Ended) -> Answer
    ensures { shown result ≡ run_output run }
{
    let status = status_of(run.faulted());
    Answer {
        text: run.into_bytes(),
        status,
    }
}

// How a run ended.
fn status_of(faulted: bool) -> Status
    ensures { result ≡ ended faulted }
{
    if faulted {
        Status::Faulted
    } else {
        Status::Done
    }
}
