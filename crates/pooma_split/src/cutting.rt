//! The parts of a statement's positions.
ghost use Rattle.std.specs.Prelude.{◌≡◌, ◌<◌, ◌++◌, ◌∷◌, [], length, map, All, IfOk, OnOk};
ghost use Rattle.pooma_expr.specs.Trees.{views_of};
ghost use Rattle.pooma_model.specs.Parts.{parts_of};
ghost use Rattle.pooma_part.specs.Cuts.{laid_in};
ghost use Rattle.pooma_split.specs.Splits.{declared_in, views_with};

use pooma_domain::BoxN;
use pooma_expr::Code;
use pooma_part::{Seen, cut, cuts_are_parts};
use pooma_piece::Task;
use pooma_store::Store;
use pooma_view::View;
use std::alloc::{AllocError, Global};

// A view beside the layout of its array.
fn seen<'a>(store: &'a Store, view: &'a View) -> Seen<'a>
    requires { view.now.array < length store.now.layouts }
    ensures { result ≡ laid_in (declared_in store.now 0) view.now }
{
    Seen {
        view,
        layout: store.layout(view.array()),
    }
}

// The target, where there is one, in a list that has room for the read views.
fn begun<'a>(alloc: Global, store: &'a Store, task: &'a Task) -> Result<Vec<Seen<'a>>, AllocError>
    requires { All (λ view. view.array < length store.now.layouts) (views_with task.now []) }
    ensures { IfOk result (λ list. list.items ≡ map (laid_in (declared_in store.now 0)) (views_with task.now [])) }
{
    let mut list = Vec::new(alloc);
    if let Task::Assign { target } = task {
        list.push(seen(store, target))?;
    }
    Ok(list)
}

/// The parts of positions with the views of a task and a code.
pub(crate) fn parts(
    alloc: Global,
    store: &Store,
    task: &Task,
    code: &Code,
    positions: &BoxN,
) -> Result<Vec<BoxN>, AllocError>
    requires { All (λ view. view.array < length store.now.layouts) (views_with task.now (views_of code.now)) }
    ensures { IfOk result (λ boxes. boxes.items ≡ parts_of (declared_in store.now 0) (views_with task.now (views_of code.now)) positions.now) }
{
    cuts_are_parts();
    let mut list = begun(alloc, store, task)?;
    for view in code.reads() {
        list.push(seen(store, view))?;
    }
    cut(alloc, &list, positions)?.boxes(alloc)
}
