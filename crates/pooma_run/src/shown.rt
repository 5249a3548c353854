//! Prints of views, from the store.
ghost use Rattle.std.specs.Prelude.{◌≡◌, ◌++◌, ℤ, List, OnOk};
ghost use Rattle.pooma_domain.specs.Cells.{IsBox, IsIn};
ghost use Rattle.pooma_view.specs.Slots.{positions_of};
ghost use Rattle.pooma_model.specs.Texts.{view_text};
ghost use Rattle.pooma_run.specs.Showing.{CanShow, OwnersHave, stored_at};

use pooma_domain::{Cell, order_of_cells};
use pooma_expr::Reads;
use pooma_print::view_text;
use pooma_store::Store;
use pooma_view::View;
use std::alloc::{AllocError, Global};

/// Appends the numbers that a view has in the store: a line for each row along its first axis.
pub(crate) fn push_view(
    alloc: Global,
    out: &mut Vec<u8>,
    store: &Store,
    view: &View,
) -> Result<(), AllocError>
    requires positions { IsBox (positions_of view.now.slots) }
    requires cells { (p : List ℤ) → IsIn (positions_of view.now.slots) p → CanShow store.now view.now p }
    ensures { OnOk result ((number : List ℤ → ℤ) → OwnersHave store.now view.now number
        → out.new.items ≡ out.old.items ++ view_text number (positions_of view.now.slots)) }
{
    order_of_cells();
    let shown = Shown { store, view };
    view_text(alloc, out, &view.positions(), &shown)
}

// A view, read in the patches of its array.
#[derive(Drop)]
struct Shown<'a> {
    store: &'a Store,
    view: &'a View,
}

impl Reads for Shown<'_> {
    ghost use Rattle.pooma_run.specs.Showing.{CanShow, stored_at};

    ghost number = { λ shown read p. stored_at shown.store.now shown.view.now p };

    ghost can_ask = { λ shown read p. CanShow shown.store.now shown.view.now p };

    fn value(&self, _read: usize, p: &Cell) -> i64 {
        self.store.get(self.view.array(), &self.view.cell(p))
    }
}
