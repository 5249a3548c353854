//! How the works that are pending are completed.
ghost use Rattle.std.specs.Prelude.{◌≡◌, ◌⊎◌, false, [], All, IfOk, OnErr, OnOk, map};
ghost use Rattle.std.specs.Arc.{arc_value};
ghost use Rattle.pooma_machine.specs.Machine.{FitsShapes};
ghost use Rattle.pooma_piece.specs.Meaning.{pieces};
ghost use Rattle.pooma_split.specs.Statements.{done_in_order};
ghost use Rattle.pooma_store.specs.Numbering.{areas_of, object_count};
ghost use Rattle.pooma_run.specs.Turns.{NoneTold, WindowTold};
ghost use Rattle.pooma_window.specs.Windows.{AsksWithin};

use pooma_field::numbers_of_cells;
use pooma_piece::{Outcome, Piece};
use pooma_store::Store;
use pooma_window::Completer;
use std::alloc::{AllocError, Global};
use std::mem;
use std::sync::Arc;

/// Has the pending works completed on the objects of the store, and answers their outcomes. Where none are pending, no window
/// is completed. The only error is want of memory, and gives the objects up.
pub(crate) fn complete_pending<C: Completer<Piece>>(
    alloc: Global,
    completer: &mut C,
    store: &mut Store,
    pending: &mut Vec<Arc<Piece>>,
) -> Result<Vec<Outcome>, AllocError>
    requires ready { C.ready completer.old }
    requires home { store.old.lent ≡ false }
    requires there { All (AsksWithin pieces (object_count store.old.layouts)) (map arc_value pending.old.items) }
    requires fits { All (FitsShapes pieces (areas_of store.old.layouts)) (map arc_value pending.old.items) }
    ensures store { OnOk result (store.new ≡ record store.old { objects = (done_in_order (map arc_value pending.old.items) store.old.objects).objects }) }
    ensures outcomes { IfOk result (λ outcomes. outcomes.items ≡ (done_in_order (map arc_value pending.old.items) store.old.objects).outcomes) }
    ensures none { OnOk result (pending.new.items ≡ []) }
    ensures stays { C.stays completer.old completer.new }
    ensures told { OnOk result (WindowTold C.tells (map arc_value pending.old.items) (C.told completer.old) (C.told completer.new) completer.old completer.new) }
    ensures err { OnErr result (NoneTold C.stops (map arc_value pending.old.items) (C.told completer.old) (C.told completer.new) completer.old completer.new
        ⊎ WindowTold C.tells (map arc_value pending.old.items) (C.told completer.old) (C.told completer.new) completer.old completer.new) }
{
    numbers_of_cells();
    if pending.is_empty() {
        return Ok(Vec::new(alloc));
    }
    // Entries are numbered by 32 bits.
    if pending.len() >= 4_294_967_295 {
        return Err(AllocError);
    }
    let works = mem::replace(pending, Vec::new(alloc));
    let done = completer.complete(alloc, store.lend(), works)?;
    store.settle(done.objects);
    Ok(done.outcomes)
}
