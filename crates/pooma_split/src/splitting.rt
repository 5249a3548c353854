//! A task over positions cut into pieces.
ghost use Rattle.std.specs.Prelude.{◌≡◌, Contains, IfOk};
ghost use Rattle.pooma_expr.specs.Trees.{views_of};
ghost use Rattle.pooma_model.specs.Parts.{parts_of};
ghost use Rattle.pooma_split.specs.Splits.{CanSplit, declared_in, piece_of, pieces_with, views_with};

use crate::cutting::parts;
use crate::owners::{reads_for, written_for};
use pooma_domain::BoxN;
use pooma_expr::Code;
use pooma_model::parts_of_statements;
use pooma_piece::{Piece, Task};
use pooma_store::Store;
use std::alloc::{AllocError, Global};

// The piece of one part.
fn piece_at(
    alloc: Global,
    store: &Store,
    number: u32,
    task: &Task,
    code: &Code,
    positions: &BoxN,
    part: &BoxN,
) -> Result<Piece, AllocError>
    requires can { CanSplit (declared_in store.now 0) task.now code.now positions.now }
    requires part { Contains (parts_of (declared_in store.now 0) (views_with task.now (views_of code.now)) positions.now) part.now }
    ensures { IfOk result (λ piece. piece ≡ piece_of (declared_in store.now 0) number task.now code.now part.now) }
{
    // For what they promise: the parts have each position once, and both boxes are some.
    parts_of_statements();
    let _dims = part.dims();
    let _all = positions.dims();
    let write = written_for(store, task, part);
    let reads = reads_for(alloc, store, code.reads(), part)?;
    Piece::new(
        alloc,
        number,
        *part,
        *task,
        code.shared()?,
        write,
        reads.as_slice(),
    )
}

/// One piece for each part of the positions, all of which share the code.
pub(crate) fn split(
    alloc: Global,
    store: &Store,
    number: u32,
    task: &Task,
    code: &Code,
    positions: &BoxN,
) -> Result<Vec<Piece>, AllocError>
    requires { CanSplit (declared_in store.now 0) task.now code.now positions.now }
    ensures { IfOk result (λ made. made.items ≡ pieces_with (declared_in store.now 0) number task.now code.now positions.now) }
{
    let boxes = parts(alloc, store, task, code, positions)?;
    let mut made = Vec::with_capacity(alloc, boxes.len())?;
    for part in &boxes {
        made.push(piece_at(alloc, store, number, task, code, positions, part)?)?;
    }
    Ok(made)
}
