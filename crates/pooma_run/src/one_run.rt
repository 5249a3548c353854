//! Runs on one thread.
ghost use Rattle.std.specs.Prelude.{◌≡◌, IfOk, OnErr, OnOk};
ghost use Rattle.pooma_model.specs.Serial.{serial_of};
ghost use Rattle.pooma_piece.specs.Meaning.{pieces};
ghost use Rattle.pooma_run.specs.Told.{HasAsked, HasTold, HasToldFirst};
ghost use Rattle.pooma_window.specs.Windows.{IsPickedFrom, IsStopped};

use crate::driver::run;
use crate::ended::Ended;
use pooma_machine::Journal;
use pooma_model::Program;
use pooma_piece::Piece;
use pooma_window::{OneThread, Picker};
use std::alloc::{AllocError, Global};

/// Runs a program on one thread. In each window the picker says which entry is run next, and the journal is told the window
/// once all of its entries are released. The only error is want of memory; then the journal keeps the windows told so far, and
/// the picker its questions.
pub fn run_one<P: Picker, J: Journal<Piece>>(
    alloc: Global,
    program: &Program,
    picker: &mut P,
    journal: &mut J,
) -> Result<Ended, AllocError>
    // The bytes and the end are those of the statements done one after another.
    ensures serial { IfOk result (λ ended. ended ≡ serial_of program.now) }

    // The windows told are those of the program, each with the questions asked of it, in their order.
    ensures windows { OnOk result (HasTold (IsPickedFrom pieces) program.now (J.told journal.old) (J.told journal.new) (P.asked picker.old) (P.asked picker.new)) }

    // So the questions are those of all its windows, whether or not the journal tells these.
    ensures asked { OnOk result (HasAsked program.now (P.asked picker.old) (P.asked picker.new)) }

    // After want of memory the windows are the first of them, and the questions those that were asked till then.
    ensures front { OnErr result (HasToldFirst (IsPickedFrom pieces) (IsStopped pieces) program.now (J.told journal.old) (J.told journal.new) (P.asked picker.old) (P.asked picker.new)) }
{
    run(alloc, program, &mut OneThread::new(picker, journal))
}
