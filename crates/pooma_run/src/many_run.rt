//! Runs by several workers.
ghost use Rattle.std.specs.Prelude.{◌≡◌, ◌<◌, ◌≤◌, All, IfOk, OnErr, OnOk};
ghost use Rattle.pooma_model.specs.Serial.{serial_of};
ghost use Rattle.pooma_piece.specs.Meaning.{pieces};
ghost use Rattle.pooma_window.specs.Workers.{IsDone};
ghost use Rattle.pooma_run.specs.Workers.{HasShared, HasSharedFirst};

use crate::driver::run;
use crate::ended::Ended;
use pooma_machine::{Journal, Machine};
use pooma_model::Program;
use pooma_piece::Piece;
use pooma_window::{ManyThreads, share_out};
use pooma_worker::Gate;
use std::alloc::{AllocError, Global};
use std::sync::Wait;
use std::thread::Threads;

/// Runs a program by so many workers, 1 to 64, who call the gate before each work. The journal is told each window once all of
/// its entries are released. It waits for the works. The only error is want of memory; then the journal keeps the windows told
/// so far.
pub fn run_many<R: Threads + Wait + Sync, G: Gate + Sync, J: Journal<Piece>>(
    rt: &R,
    alloc: Global,
    program: &Program,
    workers: u32,
    gate: &G,
    journal: &mut J,
) -> Result<Ended, AllocError>
    requires some { 0 < workers }
    requires few { workers ≤ 64 }
    // The bytes and the end are those of the statements done one after another.
    ensures serial { IfOk result (λ ended. ended ≡ serial_of program.now) }

    // The windows told are those of the program, each shared by the workers: a legal history in which all were released, with
    // every event at the seat of one of them.
    ensures windows { OnOk result (HasShared workers program.now (J.told journal.old) (J.told journal.new)) }

    // After want of memory they are the first of them.
    ensures front { OnErr result (HasSharedFirst workers program.now (J.told journal.old) (J.told journal.new)) }
{
    // A closure: a method of a trait that starts threads over a gate of any type is not yet covered by the kit's check.
    let share = |machine: Machine<Piece>| -> Result<Machine<Piece>, AllocError>
        requires { (0 < workers) × (workers ≤ 64) × All (λ event. event.seat ≡ 0) machine.history }
        ensures { IfOk result (λ done. IsDone pieces workers machine done) }
    { share_out(rt, alloc, workers, gate, machine) };
    run(
        alloc,
        program,
        &mut ManyThreads::new(share, workers, journal),
    )
}
