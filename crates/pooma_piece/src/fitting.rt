//! The test of what a piece asks of the patches that are lent to it.
ghost use Rattle.std.specs.Prelude.{◌≡◌, ◌<◌, ℕ, Some, option_map, map, length, slice_get};
ghost use Rattle.std.specs.List.{list_all};
ghost use Rattle.std.specs.Option.{option_copied};
ghost use Rattle.pooma_domain.specs.Cells.{cells_of, IsIn};
ghost use Rattle.pooma_field.specs.ShapeOf.{shape_of};
ghost use Rattle.pooma_field.specs.Slabs.{cell_sources};
ghost use Rattle.pooma_view.specs.Views.{Viewed};
ghost use Rattle.pooma_expr.specs.Trees.{views_of};
ghost use Rattle.pooma_machine.specs.Slots.{contents};
ghost use Rattle.pooma_piece.specs.Kept.{sources_of};
ghost use Rattle.pooma_piece.specs.Lent.{fits, has_all, has_cells, has_one, have_sources, is_in, lent_for, read_in, task_fits};
ghost use Rattle.pooma_piece.specs.Meaning.{area_of, content_of};
ghost use Rattle.pooma_piece.specs.Pieces.{HasPositions};
ghost use Rattle.pooma_piece.specs.Sources.{from_source};

use crate::piece::Piece;
use crate::source::Source;
use crate::task::Task;
use pooma_domain::{BoxN, Cell};
use pooma_field::{Shape, Slab};
use pooma_patch::Patch;
use pooma_view::View;
use std::sync::Arc;

// Whether the area has each cell that the view names at these positions.
fn has_cells(area: &BoxN, view: &View, positions: &BoxN) -> bool
    requires { HasPositions positions.now view.now }
    ensures { result ≡ has_cells (Some area.now) view.now.slots (cells_of positions.now) }
{
    for k in 0..positions.count() {
        let p = positions.cell_at(k);
        if !area.contains(&view.cell(&p)) {
            return false;
        }
    }
    true
}

// The area of the patch that is found at a source, where one is lent there.
fn area_at(source: Source, write: Option<&Patch>, reads: &[Arc<Patch>]) -> Option<BoxN>
    ensures { result ≡ from_source source (option_map area_of (option_map content_of (option_copied write.entry))) (map area_of (contents content_of reads.now)) }
{
    match source {
        Source::Written => match write {
            Some(patch) => Some(patch.area()),
            None => None,
        },
        Source::Read(place) => {
            if place < reads.len() {
                let patch: &Patch = &reads[place];
                Some(patch.area())
            } else {
                None
            }
        }
    }
}

fn view_at(piece: &Piece, read: usize) -> &View
    requires { read < length (views_of piece.now.code) }
    ensures { slice_get (views_of piece.now.code) read ≡ Some result.now }
{
    &piece.code().reads()[read]
}

/// Where the patch of a read, or of a fill's source, is found.
pub(crate) fn source_at(piece: &Piece, read: usize) -> Source
    requires { read < length piece.now.reads }
    ensures { slice_get (sources_of piece.now) read ≡ Some result }
{
    piece.sources()[read]
}

// Whether the patch of a read has each cell that is read in it.
fn finds(piece: &Piece, read: usize, write: Option<&Patch>, reads: &[Arc<Patch>]) -> bool
    requires { read < length (views_of piece.now.code) }
    ensures { (view : Viewed) → slice_get (views_of piece.now.code) read ≡ Some view
        → result ≡ has_cells (lent_for piece.now (option_map area_of (option_map content_of (option_copied write.entry))) (map area_of (contents content_of reads.now)) (read_in piece.now view)) view.slots (cells_of piece.now.positions) }
{
    // For what it promises: there are as many reads as views.
    let _code = piece.code();
    let view = view_at(piece, read);
    match area_at(source_at(piece, read), write, reads) {
        Some(area) => has_cells(&area, view, &piece.positions()),
        None => false,
    }
}

// Whether the area has each of the cells.
fn has_each(area: &BoxN, cells: &BoxN) -> bool
    ensures { result ≡ list_all (is_in area.now) (cells_of cells.now) }
{
    for k in 0..cells.count() {
        if !area.contains(&cells.cell_at(k)) {
            return false;
        }
    }
    true
}

// Whether there is an area, and it has each of the cells.
fn has_all(area: Option<BoxN>, cells: &BoxN) -> bool
    ensures { result ≡ has_all area (cells_of cells.now) }
{
    match area {
        Some(given) => has_each(&given, cells),
        None => false,
    }
}

// Whether the patch in which the sources at this place are read has this cell.
fn has_source(
    piece: &Piece,
    place: usize,
    s: &Cell,
    write: Option<&Patch>,
    reads: &[Arc<Patch>],
) -> bool
    requires { place < length piece.now.reads }
    ensures { (object : ℕ) → slice_get piece.now.reads place ≡ Some object
        → result ≡ has_one (lent_for piece.now (option_map area_of (option_map content_of (option_copied write.entry))) (map area_of (contents content_of reads.now)) object) s.now }
{
    match area_at(source_at(piece, place), write, reads) {
        Some(area) => area.contains(s),
        None => false,
    }
}

// Whether the patches in which the sources of a cell are read have them.
fn has_sources(
    piece: &Piece,
    shape: &Shape,
    slab: &Slab,
    array: u32,
    c: &Cell,
    write: Option<&Patch>,
    reads: &[Arc<Patch>],
) -> bool
    requires task { piece.now.task ≡ Task.Fill shape.now slab.now array }
    requires inside { IsIn piece.now.positions c.now }
    ensures { result ≡ have_sources piece.now (option_map area_of (option_map content_of (option_copied write.entry))) (map area_of (contents content_of reads.now)) piece.now.reads (cell_sources (shape_of shape.now) slab.now c.now) }
{
    // For what it promises: there is an object for each source.
    let _code = piece.code();
    for place in 0..slab.sources() {
        let s = slab.source_at(shape, c, place);
        if !has_source(piece, place, &s, write, reads) {
            return false;
        }
    }
    true
}

// The same for each cell that a fill sets.
fn all_have_sources(
    piece: &Piece,
    shape: &Shape,
    slab: &Slab,
    array: u32,
    write: Option<&Patch>,
    reads: &[Arc<Patch>],
) -> bool
    requires { piece.now.task ≡ Task.Fill shape.now slab.now array }
    ensures { result ≡ list_all (λ c. have_sources piece.now (option_map area_of (option_map content_of (option_copied write.entry))) (map area_of (contents content_of reads.now)) piece.now.reads (cell_sources (shape_of shape.now) slab.now c)) (cells_of piece.now.positions) }
{
    let positions = piece.positions();
    for k in 0..positions.count() {
        let c = positions.cell_at(k);
        if !has_sources(piece, shape, slab, array, &c, write, reads) {
            return false;
        }
    }
    true
}

// Whether the patch that is written has each cell of a guard copy, and so has the one that is read.
fn has_copied(piece: &Piece, array: u32, write: Option<&Patch>, reads: &[Arc<Patch>]) -> bool
    requires task { piece.now.task ≡ Task.Guard array }
    ensures { result ≡ task_fits (Task.Guard array) piece.now (option_map area_of (option_map content_of (option_copied write.entry))) (map area_of (contents content_of reads.now)) }
{
    // For what it promises: there is one object to read.
    let _code = piece.code();
    let cells = piece.positions();
    has_all(area_at(Source::Written, write, reads), &cells)
        && has_all(area_at(source_at(piece, 0), write, reads), &cells)
}

impl Piece {
    /// Whether the piece fits the patches that are lent to it, in the order of its requests: whether each cell that it reads
    /// or sets lies in the area of the patch in which it does. `run_piece` asks for that. The test looks at each of these cells.
    pub fn fits(&self, write: Option<&Patch>, reads: &[Arc<Patch>]) -> bool
        ensures { result ≡ fits self.now (option_map area_of (option_map content_of (option_copied write.entry))) (map area_of (contents content_of reads.now)) }
    {
        for k in 0..self.code().reads().len() {
            if !finds(self, k, write, reads) {
                return false;
            }
        }
        match *self.task() {
            Task::Assign { target } => match write {
                Some(patch) => has_cells(&patch.area(), &target, &self.positions()),
                None => false,
            },
            Task::Reduce { reduction: _ } => true,
            Task::Fill { shape, slab, array } => {
                has_all(area_at(Source::Written, write, reads), &self.positions())
                    && all_have_sources(self, &shape, &slab, array, write, reads)
            }
            Task::Guard { array } => has_copied(self, array, write, reads),
        }
    }
}
