//! Pieces that are done on patches, one after another.
ghost use Rattle.std.specs.Prelude.{◌≡◌, map};
ghost use Rattle.std.specs.Arc.{arc_value};
ghost use Rattle.pooma_store.specs.Stored.{contents_of};

use pooma_machine::{Mode, Request};
use pooma_patch::Patch;
use pooma_piece::{Outcome, Piece, run_piece};
use pooma_store::patches_in_place;
use std::alloc::Global;
use std::sync::Arc;

// Does a piece on the patch that it writes, where it fits and answers no fault.
fn set(alloc: Global, patch: &mut Patch, piece: &Piece, reads: &[Arc<Patch>]) -> Option<()>
    ensures { patch.new.content.area ≡ patch.old.content.area }
{
    patch.writable(alloc).ok()?;
    if patch.is_one() || !piece.fits(Some(&*patch), reads) {
        return None;
    }
    match run_piece(piece, Some(patch), reads) {
        Outcome::Done => Some(()),
        _ => None,
    }
}

// The same, where the patch has no other owner.
fn set_alone(
    alloc: Global,
    patch: &mut Arc<Patch>,
    piece: &Piece,
    reads: &[Arc<Patch>],
) -> Option<()>
    ensures { (arc_value patch.new).content.area ≡ (arc_value patch.old).content.area }
{
    match Arc::get_mut(patch) {
        Some(sole) => set(alloc, sole, piece, reads),
        None => None,
    }
}

// The patches that are read, in the order of the requests.
fn read(alloc: Global, patches: &[Arc<Patch>], requests: &[Request]) -> Option<Vec<Arc<Patch>>> {
    let mut reads = Vec::new(alloc);
    for request in requests {
        if request.mode == Mode::Read {
            let patch = patches.get(request.object as usize)?.clone().ok()?;
            reads.push(patch).ok()?;
        }
    }
    Some(reads)
}

// The object that is written.
fn written(requests: &[Request]) -> Option<usize> {
    for request in requests {
        if request.mode == Mode::Write {
            return Some(request.object as usize);
        }
    }
    None
}

// Does a piece that sets cells.
fn perform_one(alloc: Global, patches: &mut [Arc<Patch>], piece: &Piece) -> Option<()>
    ensures { map (λ object. object.area) (contents_of patches.new) ≡ map (λ object. object.area) (contents_of patches.old) }
{
    patches_in_place();
    let reads = read(alloc, patches, piece.requests())?;
    let object = written(piece.requests())?;
    if object >= patches.len() {
        return None;
    }
    set_alone(alloc, &mut patches[object], piece, &reads)
}

/// Does pieces that set cells, one after another. None where one answers a fault, and for want of memory.
pub(crate) fn perform(alloc: Global, patches: &mut [Arc<Patch>], pieces: &[Piece]) -> Option<()>
    ensures { map (λ object. object.area) (contents_of patches.new) ≡ map (λ object. object.area) (contents_of patches.old) }
{
    for piece in pieces {
        perform_one(alloc, patches, piece)?;
    }
    Some(())
}
