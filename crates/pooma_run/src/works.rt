//! What a statement adds to the works that are pending, and the arrays of a program.
ghost use Rattle.std.specs.Prelude.{◌≡◌, ◌+◌, ◌++◌, false, pos, IfOk, IsTrue, OnOk, length, map, replicate};
ghost use Rattle.std.specs.Arc.{arc_value};
ghost use Rattle.pooma_fill.specs.Marks.{HasArrays, declared_of, fills_before};
ghost use Rattle.pooma_model.specs.Fit.{IsFit};
ghost use Rattle.pooma_split.specs.Splits.{declared_in};
ghost use Rattle.pooma_split.specs.Words.{literals_fit_in};
ghost use Rattle.pooma_store.specs.Numbering.{new_objects};
ghost use Rattle.pooma_run.specs.Plan.{ends_window, works_of};

use pooma_fill::Stale;
use pooma_model::{Action, Program};
use pooma_piece::Piece;
use pooma_split::pieces;
use pooma_store::Store;
use std::alloc::{AllocError, Global};
use std::sync::Arc;

/// The arrays of a program as they are before its first statement: each has the shape and the layout that the program declares,
/// by its number, and all its numbers are 0. All patches are at home. The only error is want of memory, and nothing stands
/// after it.
pub fn open_store(alloc: Global, program: &Program) -> Result<Store, AllocError>
    ensures shapes { IfOk result (λ store. store.shapes ≡ program.now.declared.shapes) }
    ensures layouts { IfOk result (λ store. store.layouts ≡ program.now.declared.layouts) }
    ensures objects { IfOk result (λ store. store.objects ≡ new_objects program.now.declared.layouts) }
    ensures home { IfOk result (λ store. store.lent ≡ false) }
{
    let mut store = Store::new(alloc);
    'arrays: for array in 0..program.arrays() {
        let layout = program.layout(array).copied(alloc)?;
        store.declare(alloc, *program.shape(array), layout)?;
    }
    Ok(store)
}

/// So many numbers 0.
pub(crate) fn zeros(alloc: Global, count: u32) -> Result<Vec<i64>, AllocError>
    ensures { IfOk result (λ numbers. numbers.items ≡ replicate count (pos 0)) }
{
    vec![in alloc; 0; count as usize]
}

/// Puts the works of the executed statement of this number behind those that are pending: its fills and then its pieces. It
/// answers the place at which the pieces begin.
pub(crate) fn add_works(
    alloc: Global,
    number: u32,
    action: &Action,
    stale: &Stale,
    store: &Store,
    scalars: &[i64],
    pending: &mut Vec<Arc<Piece>>,
) -> Result<usize, AllocError>
    requires declared { declared_in store.now (length scalars.now) ≡ declared_of stale.now }
    requires fit { IsFit (declared_of stale.now) action.now }
    ensures works { OnOk result (map arc_value pending.new.items ≡ map arc_value pending.old.items ++ works_of stale.now scalars.now number action.now) }
    ensures begin { IfOk result (λ place. place ≡ length pending.old.items + length (fills_before stale.now.layouts stale.now number action.now)) }
    ensures literals { IfOk result (λ place. IsTrue (literals_fit_in action.now)) }
{
    let fills = stale.fills_before(alloc, number, action, store)?;
    put_behind(alloc, pending, fills)?;
    let begin = pending.len();
    let made = pieces(alloc, number, action, store, scalars)?;
    put_behind(alloc, pending, made)?;
    Ok(begin)
}

// Puts works behind those that are pending.
fn put_behind(
    alloc: Global,
    pending: &mut Vec<Arc<Piece>>,
    works: Vec<Piece>,
) -> Result<(), AllocError>
    ensures works { OnOk result (map arc_value pending.new.items ≡ map arc_value pending.old.items ++ works.items) }
    ensures count { OnOk result (length pending.new.items ≡ length pending.old.items + length works.items) }
{
    'works: for work in works {
        pending.push(Arc::new(alloc, work)?)?;
    }
    Ok(())
}

/// Whether a window ends behind the action: it gives a scalar a number, it prints, or it is a block.
pub(crate) fn ends_window(action: &Action) -> bool
    ensures { result ≡ ends_window action.now }
{
    match action {
        Action::Assign {
            target: _,
            value: _,
            mask: _,
        } => false,
        Action::Reduce {
            scalar: _,
            reduction: _,
            positions: _,
            value: _,
        } => true,
        Action::PrintView { view: _ } => true,
        Action::PrintScalar { scalar: _ } => true,
        Action::Block => true,
    }
}
