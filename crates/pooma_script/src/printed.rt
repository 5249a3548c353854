//! How many values a statement prints.
ghost use Rattle.std.specs.Prelude.{◌≡◌, ◌≤◌, drop, length, min};
ghost use Rattle.pooma_domain.specs.Cells.{cells_of};
ghost use Rattle.pooma_view.specs.Slots.{positions_of};
ghost use Rattle.pooma_script.specs.Statements.{values_printed};

use crate::count::{CAP, times};
use pooma_domain::order_of_cells;
use pooma_model::Action;
use pooma_view::{Slot, View};

/// How many positions the slots of a view from this one on make, or `CAP` where they make more.
fn positions_from(view: &View, n: usize) -> u64
    requires { n ≤ length view.now.slots }
    ensures { result ≡ min (length (cells_of (positions_of (drop n view.now.slots)))) CAP }
{
    order_of_cells();
    if n == view.dims() {
        return 1;
    }
    match view.slot(n) {
        Slot::Fixed(_) => positions_from(view, n + 1),
        Slot::Along(numbers) => times(u64::from(numbers.count), positions_from(view, n + 1)),
    }
}

/// How many values an action prints once, or `CAP` where it prints more.
pub fn values_up_to_cap(action: &Action) -> u64
    ensures { result ≡ min (values_printed action.now) CAP }
{
    match action {
        Action::PrintView { view } => positions_from(view, 0),
        Action::PrintScalar { .. } => 1,
        Action::Assign { .. } | Action::Reduce { .. } | Action::Block => 0,
    }
}
