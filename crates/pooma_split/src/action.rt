//! The pieces of an action.
ghost use Rattle.std.specs.Prelude.{◌≡◌, length, IfOk, IsTrue};
ghost use Rattle.pooma_model.specs.Fit.{IsFit};
ghost use Rattle.pooma_split.specs.Splits.{declared_in, pieces_of};
ghost use Rattle.pooma_split.specs.Words.{literals_fit_in};

use crate::splitting::split;
use crate::whole::code_of;
use pooma_expr::Code;
use pooma_model::Action;
use pooma_piece::{Piece, Task};
use pooma_store::Store;
use std::alloc::{AllocError, Global};

/// The pieces of an action that fits the store's arrays and so many scalars, as the executed statement of this number, counted
/// from 0, where the scalars have these numbers. There is one piece for each part of its positions, in the order of their
/// first positions. A piece asks to write the patch that owns the target's cells, and to read those that own the cells of
/// the views of the whole value, the mask and the target with it where there is a mask. A print and a block have no piece. All
/// pieces share one code. Only want of memory is an error. The action's literals are numbers of 64 bits.
pub fn pieces(
    alloc: Global,
    number: u32,
    action: &Action,
    store: &Store,
    scalars: &[i64],
) -> Result<Vec<Piece>, AllocError>
    requires { IsFit (declared_in store.now (length scalars.now)) action.now }
    ensures pieces { IfOk result (λ made. made.items ≡ pieces_of (declared_in store.now (length scalars.now)) scalars.now number action.now) }
    ensures literals { IfOk result (λ made. IsTrue (literals_fit_in action.now)) }
{
    // For what it promises: each array has a shape and a layout with the same domains.
    let _objects = store.objects();
    match action {
        Action::Assign {
            target,
            value,
            mask,
        } => {
            let code = code_of(alloc, *target, value, mask, scalars)?;
            let task = Task::Assign { target: *target };
            split(alloc, store, number, &task, &code, &target.positions())
        }
        Action::Reduce {
            scalar: _,
            reduction,
            positions,
            value,
        } => {
            let code = Code::of(alloc, value, scalars)?;
            let task = Task::Reduce {
                reduction: *reduction,
            };
            split(alloc, store, number, &task, &code, positions)
        }
        Action::PrintView { view: _ } | Action::PrintScalar { scalar: _ } | Action::Block => {
            Ok(Vec::new(alloc))
        }
    }
}
