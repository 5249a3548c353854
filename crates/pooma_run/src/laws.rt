ghost use Rattle.pooma_run.specs.Gathered.{HasLaws};

use pooma_domain::order_of_cells;
use pooma_fill::{fills_fit, fills_make_fresh, marks_tell_stale};
use pooma_law::ser_composes;
use pooma_model::{assignments_change_cells, reads_stand_apart, worlds_keep_cells};
use pooma_piece::Piece;
use pooma_split::{pieces_of_statements, statements_in_pieces};
use pooma_store::new_arrays;

// The laws of the crates below on works done one after another, on the fills and pieces of statements, and on worlds.
pub(crate) fn laws_below()
    ensures { HasLaws }
{
    ser_composes::<Piece>();
    pieces_of_statements();
    statements_in_pieces();
    fills_fit();
    fills_make_fresh();
    marks_tell_stale();
    worlds_keep_cells();
    assignments_change_cells();
    reads_stand_apart();
    order_of_cells();
    new_arrays();
}
