//! What is done with a piece.
ghost use Rattle.std.specs.Prelude.{◌≡◌, Some, None, false, IsTrue, IfSome, option_map, map};
ghost use Rattle.std.specs.Option.{option_copied, option_copied_mut};
ghost use Rattle.pooma_machine.specs.Behind.{left_behind};
ghost use Rattle.pooma_machine.specs.Slots.{contents, contents_of};
ghost use Rattle.pooma_machine.specs.Values.{FitsLent, new_value_of, outcome_of};
ghost use Rattle.pooma_piece.specs.Effects.{answer_by, content_by};
ghost use Rattle.pooma_piece.specs.Lent.{fits};
ghost use Rattle.pooma_piece.specs.Meaning.{area_of, content_of, pieces};

use crate::copy::copy;
use crate::fill::fill;
use crate::lent::value_at;
use crate::outcome::Outcome;
use crate::piece::Piece;
use crate::task::Task;
use pooma_domain::order_of_cells;
use pooma_expr::{Partial, Reduction};
use pooma_field::numbers_of_cells;
use pooma_patch::Patch;
use pooma_view::View;
use std::sync::Arc;

// Sets the cells of the target, position by position, up to the first whose value is a fault.
fn assign(piece: &Piece, target: &View, patch: &mut Patch, reads: &[Arc<Patch>]) -> Outcome
    requires task { piece.now.task ≡ Task.Assign target.now }
    requires fits { IsTrue (fits piece.now (Some patch.old.content.area) (map area_of (contents content_of reads.now))) }
    requires writable { patch.old.one ≡ false }
    ensures content { patch.new.content ≡ content_by (Task.Assign target.now) piece.now patch.old.content (contents content_of reads.now) }
    ensures outcome { result ≡ answer_by (Task.Assign target.now) piece.now (Some patch.old.content) (contents content_of reads.now) }
    ensures area { patch.new.content.area ≡ patch.old.content.area }
    ensures writable { patch.new.one ≡ false }
{
    order_of_cells();
    numbers_of_cells();
    // For what they promise: the patch has a number for each cell, and the piece is one.
    let _area = patch.area();
    let _code = piece.code();
    let positions = piece.positions();
    for k in 0..positions.count() {
        let p = positions.cell_at(k);
        match value_at(piece, Some(&*patch), reads, &p) {
            Ok(x) => patch.set(&target.cell(&p), x),
            Err(kind) => return Outcome::Fault { position: p, kind },
        }
    }
    Outcome::Done
}

// Takes the numbers together, position by position, up to the first whose value is a fault.
fn reduce(
    piece: &Piece,
    reduction: Reduction,
    written: Option<&Patch>,
    reads: &[Arc<Patch>],
) -> Outcome
    requires task { piece.now.task ≡ Task.Reduce reduction }
    requires fits { IsTrue (fits piece.now (option_map area_of (option_map content_of (option_copied written))) (map area_of (contents content_of reads.now))) }
    ensures { result ≡ answer_by (Task.Reduce reduction) piece.now (option_map content_of (option_copied written.entry)) (contents content_of reads.now) }
{
    let _code = piece.code();
    let positions = piece.positions();
    let mut partial = Partial::start(reduction);
    for k in 0..positions.count() {
        let p = positions.cell_at(k);
        match value_at(piece, written, reads, &p) {
            Ok(x) => partial.push(x),
            Err(fault) => {
                return Outcome::Fault {
                    position: p,
                    kind: fault,
                };
            }
        }
    }
    Outcome::Value(partial)
}

/// Does a piece that is lent a patch to write.
pub(crate) fn write_with(piece: &Piece, patch: &mut Patch, reads: &[Arc<Patch>]) -> Outcome
    requires fits { IsTrue (fits piece.now (Some patch.old.content.area) (map area_of (contents content_of reads.now))) }
    requires writable { patch.old.one ≡ false }
    ensures content { patch.new.content ≡ content_by piece.now.task piece.now patch.old.content (contents content_of reads.now) }
    ensures outcome { result ≡ answer_by piece.now.task piece.now (Some patch.old.content) (contents content_of reads.now) }
    ensures area { patch.new.content.area ≡ patch.old.content.area }
    ensures writable { patch.new.one ≡ false }
{
    match *piece.task() {
        Task::Assign { target } => assign(piece, &target, patch, reads),
        Task::Reduce { reduction } => reduce(piece, reduction, Some(&*patch), reads),
        Task::Fill { shape, slab, array } => fill(piece, &shape, &slab, array, patch, reads),
        Task::Guard { array } => copy(piece, array, patch, reads),
    }
}

/// Does a piece that is lent patches to read alone.
pub(crate) fn read_with(piece: &Piece, reads: &[Arc<Patch>]) -> Outcome
    requires { IsTrue (fits piece.now None (map area_of (contents content_of reads.now))) }
    ensures { result ≡ answer_by piece.now.task piece.now None (contents content_of reads.now) }
{
    match *piece.task() {
        Task::Assign { target: _ } => unreachable!(),
        Task::Fill { .. } => unreachable!(),
        Task::Guard { array: _ } => unreachable!(),
        Task::Reduce { reduction } => reduce(piece, reduction, None, reads),
    }
}

/// Does a piece on the patches of its objects, which are lent in the order of its requests: the one that it writes, which is
/// not kept as one, and those that it reads. The piece fits their areas. It goes through the positions in order, up to the
/// first whose value is a fault, and does what is to be done at those before it; a fill or a guard copy has no
/// fault. It takes no memory.
pub fn run_piece(piece: &Piece, write: Option<&mut Patch>, reads: &[Arc<Patch>]) -> Outcome
    requires fits { FitsLent pieces piece.now (contents_of content_of (option_copied_mut write) reads.now) }
    requires writable { IfSome (option_copied_mut write) (λ patch. patch.one ≡ false) }
    ensures content { option_map content_of (left_behind write.exit) ≡ new_value_of pieces piece.now (contents_of content_of (option_copied_mut write.entry) reads.now) }
    ensures outcome { result ≡ outcome_of pieces piece.now (contents_of content_of (option_copied_mut write.entry) reads.now) }
    ensures area { option_map area_of (option_map content_of (left_behind write.exit)) ≡ option_map area_of (option_map content_of (option_copied_mut write.entry)) }
    ensures writable { IfSome (left_behind write.exit) (λ patch. patch.one ≡ false) }
{
    match write {
        None => read_with(piece, reads),
        Some(patch) => write_with(piece, patch, reads),
    }
}
