//! The objects in whose patches a piece reads and writes.
ghost use Rattle.std.specs.Prelude.{◌≡◌, ℤ, List, [], map, All, IfOk};
ghost use Rattle.pooma_domain.specs.Cells.{IsIn};
ghost use Rattle.pooma_view.specs.Slots.{positions_of};
ghost use Rattle.pooma_split.specs.Splits.{IsPlaced, declared_in, object_for, views_with, written_for};

use pooma_domain::BoxN;
use pooma_piece::Task;
use pooma_store::Store;
use pooma_view::View;
use smallvec::SmallVec;
use std::alloc::{AllocError, Global};

/// The object whose patch owns the cell that the view names at the first position of the box.
pub(crate) fn object_for(store: &Store, view: &View, part: &BoxN) -> u32
    requires placed { IsPlaced (declared_in store.now 0) (positions_of view.now.slots) view.now }
    requires within { (p : List ℤ) → IsIn part.now p → IsIn (positions_of view.now.slots) p }
    ensures { result ≡ object_for (declared_in store.now 0) part.now view.now }
{
    let c = view.cell(&part.least());
    let owner = store.layout(view.array()).owner(&c);
    store.object(view.array(), owner)
}

/// The object in whose patch the task sets cells.
pub(crate) fn written_for(store: &Store, task: &Task, part: &BoxN) -> Option<u32>
    requires { All (λ view. IsPlaced (declared_in store.now 0) (positions_of view.slots) view × ((p : List ℤ) → IsIn part.now p → IsIn (positions_of view.slots) p)) (views_with task.now []) }
    ensures { result ≡ written_for (declared_in store.now 0) part.now task.now }
{
    match *task {
        Task::Assign { target } => Some(object_for(store, &target, part)),
        _ => None,
    }
}

/// For each of these views the object in whose patch it is read.
pub(crate) fn reads_for(
    alloc: Global,
    store: &Store,
    views: &[View],
    part: &BoxN,
) -> Result<SmallVec<u32, 8>, AllocError>
    requires { All (λ view. IsPlaced (declared_in store.now 0) (positions_of view.slots) view × ((p : List ℤ) → IsIn part.now p → IsIn (positions_of view.slots) p)) views.now }
    ensures { IfOk result (λ reads. reads.items ≡ map (object_for (declared_in store.now 0) part.now) views.now) }
{
    let mut reads = SmallVec::new(alloc);
    for view in views {
        reads.push(object_for(store, view, part))?;
    }
    Ok(reads)
}
