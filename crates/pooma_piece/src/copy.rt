//! What is done with a guard copy.
ghost use Rattle.std.specs.Prelude.{◌≡◌, Some, false, IsTrue, map};
ghost use Rattle.pooma_machine.specs.Slots.{contents};
ghost use Rattle.pooma_piece.specs.declared.task.Task.{Task};
ghost use Rattle.pooma_piece.specs.Effects.{answer_by, content_by};
ghost use Rattle.pooma_piece.specs.Lent.{fits};
ghost use Rattle.pooma_piece.specs.Meaning.{area_of, content_of};

use crate::fitting::source_at;
use crate::outcome::Outcome;
use crate::piece::Piece;
use crate::source::Source;
use pooma_domain::order_of_cells;
use pooma_field::numbers_of_cells;
use pooma_patch::Patch;
use std::sync::Arc;

/// Sets the cells of a guard copy, from the patch that owns them.
pub(crate) fn copy(piece: &Piece, array: u32, patch: &mut Patch, reads: &[Arc<Patch>]) -> Outcome
    requires task { piece.now.task ≡ Task.Guard array }
    requires fits { IsTrue (fits piece.now (Some patch.old.content.area) (map area_of (contents content_of reads.now))) }
    requires writable { patch.old.one ≡ false }
    ensures content { patch.new.content ≡ content_by (Task.Guard array) piece.now patch.old.content (contents content_of reads.now) }
    ensures outcome { result ≡ answer_by (Task.Guard array) piece.now (Some patch.old.content) (contents content_of reads.now) }
    ensures area { patch.new.content.area ≡ patch.old.content.area }
    ensures writable { patch.new.one ≡ false }
{
    order_of_cells();
    numbers_of_cells();
    // For what they promise: the patch has a number for each cell, and the piece is one.
    let _area = patch.area();
    let _code = piece.code();
    match source_at(piece, 0) {
        Source::Written => unreachable!(),
        Source::Read(place) => {
            let from: &Patch = &reads[place];
            patch.copy_box(from, &piece.positions());
        }
    }
    Outcome::Done
}
