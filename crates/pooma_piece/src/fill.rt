//! What is done with a fill.
ghost use Rattle.std.specs.Prelude.{◌≡◌, ℕ, pos, Some, None, false, IsTrue, ◌<◌, length, map, slice_get, slice_index_or, option_map};
ghost use Rattle.std.specs.Option.{option_copied};
ghost use Rattle.pooma_domain.specs.Cells.{IsIn};
ghost use Rattle.pooma_field.specs.ShapeOf.{shape_of};
ghost use Rattle.pooma_field.specs.Slabs.{cell_sources};
ghost use Rattle.pooma_machine.specs.Slots.{contents};
ghost use Rattle.pooma_piece.specs.Effects.{answer_by, content_by};
ghost use Rattle.pooma_piece.specs.Fills.{filled_at, numbers_lent};
ghost use Rattle.pooma_piece.specs.Lent.{fits, number_in};
ghost use Rattle.pooma_piece.specs.Meaning.{area_of, content_of};
ghost use Rattle.pooma_piece.specs.Sources.{FindsSources, from_source, HasCellAt};

use crate::fitting::source_at;
use crate::outcome::Outcome;
use crate::piece::Piece;
use crate::source::Source;
use crate::task::Task;
use pooma_domain::{Cell, order_of_cells};
use pooma_field::{Shape, Slab, numbers_of_cells, slabs_in_order};
use pooma_patch::Patch;
use std::sync::Arc;

// The number of a cell in the patch that is found at a source.
fn number_at(source: Source, written: &Patch, reads: &[Arc<Patch>], c: &Cell) -> i64
    requires { HasCellAt source (Some written.now.content) (contents content_of reads.now) c.now }
    ensures { result ≡ number_in (from_source source (Some written.now.content) (contents content_of reads.now)) c.now }
{
    match source {
        Source::Written => written.get(c),
        Source::Read(place) => {
            let patch: &Patch = &reads[place];
            patch.get(c)
        }
    }
}

// The number of the source at this place of a cell; 0 where the cell has fewer sources.
fn source_number(
    piece: &Piece,
    shape: &Shape,
    slab: &Slab,
    array: u32,
    written: &Patch,
    reads: &[Arc<Patch>],
    c: &Cell,
    place: usize,
) -> i64
    requires task { piece.now.task ≡ Task.Fill shape.now slab.now array }
    requires inside { IsIn piece.now.positions c.now }
    requires there { FindsSources piece.now (Some written.now.content) (contents content_of reads.now) (cell_sources (shape_of shape.now) slab.now c.now) }
    ensures { result ≡ slice_index_or (numbers_lent piece.now (Some written.now.content) (contents content_of reads.now) piece.now.reads (cell_sources (shape_of shape.now) slab.now c.now)) place (pos 0) }
{
    // For what it promises: there is an object for each source.
    let _code = piece.code();
    if place >= slab.sources() {
        return 0;
    }
    let s = slab.source_at(shape, c, place);
    let from = source_at(piece, place);
    number_at(from, written, reads, &s)
}

// What the slab's updater makes for a cell of the numbers at its sources.
fn filled(
    piece: &Piece,
    shape: &Shape,
    slab: &Slab,
    array: u32,
    written: &Patch,
    reads: &[Arc<Patch>],
    c: &Cell,
) -> i64
    requires task { piece.now.task ≡ Task.Fill shape.now slab.now array }
    requires inside { IsIn piece.now.positions c.now }
    requires there { FindsSources piece.now (Some written.now.content) (contents content_of reads.now) (cell_sources (shape_of shape.now) slab.now c.now) }
    ensures { result ≡ filled_at (shape_of shape.now) slab.now piece.now (Some written.now.content) (contents content_of reads.now) c.now }
{
    let _code = piece.code();
    let first = source_number(piece, shape, slab, array, written, reads, c, 0);
    let second = source_number(piece, shape, slab, array, written, reads, c, 1);
    slab.value_at(shape, c, [first, second])
}

/// Sets the cells of a fill, one after another. No source is among them.
pub(crate) fn fill(
    piece: &Piece,
    shape: &Shape,
    slab: &Slab,
    array: u32,
    patch: &mut Patch,
    reads: &[Arc<Patch>],
) -> Outcome
    requires task { piece.now.task ≡ Task.Fill shape.now slab.now array }
    requires fits { IsTrue (fits piece.now (Some patch.old.content.area) (map area_of (contents content_of reads.now))) }
    requires writable { patch.old.one ≡ false }
    ensures content { patch.new.content ≡ content_by (Task.Fill shape.now slab.now array) piece.now patch.old.content (contents content_of reads.now) }
    ensures outcome { result ≡ answer_by (Task.Fill shape.now slab.now array) piece.now (Some patch.old.content) (contents content_of reads.now) }
    ensures area { patch.new.content.area ≡ patch.old.content.area }
    ensures writable { patch.new.one ≡ false }
{
    order_of_cells();
    numbers_of_cells();
    slabs_in_order();
    // For what they promise: the patch has a number for each cell, and the piece is one.
    let _area = patch.area();
    let _code = piece.code();
    let positions = piece.positions();
    for k in 0..positions.count() {
        let c = positions.cell_at(k);
        let x = filled(piece, shape, slab, array, &*patch, reads, &c);
        patch.set(&c, x);
    }
    Outcome::Done
}
