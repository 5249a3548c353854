//! The numbers that the views of a piece name in the patches that are lent to it.
ghost use Rattle.std.specs.Prelude.{◌≡◌, [], option_map};
ghost use Rattle.std.specs.Option.{option_copied};
ghost use Rattle.pooma_expr.specs.Values.{Contents, value};
ghost use Rattle.pooma_domain.specs.Cells.{IsIn};
ghost use Rattle.pooma_machine.specs.Slots.{contents};
ghost use Rattle.pooma_piece.specs.Meaning.{content_of};
ghost use Rattle.pooma_piece.specs.Sources.{CanSee, SeesAs};

use crate::piece::Piece;
use crate::source::Source;
use pooma_domain::{Cell, coordinates_of_cells};
use pooma_expr::{Reads, eval_at};
use pooma_num::FaultKind;
use pooma_patch::Patch;
use pooma_view::View;
use std::sync::Arc;

// The views of a piece's code, where each is read, and the patches.
#[derive(Clone, Copy)]
struct Lent<'a> {
    views: &'a [View],
    sources: &'a [Source],
    written: Option<&'a Patch>,
    reads: &'a [Arc<Patch>],
}

impl Reads for Lent<'_> {
    ghost use Rattle.std.specs.Prelude.{option_map};
    ghost use Rattle.std.specs.Option.{option_copied};
    ghost use Rattle.pooma_machine.specs.Slots.{contents};
    ghost use Rattle.pooma_piece.specs.Meaning.{content_of};
    ghost use Rattle.pooma_piece.specs.Sources.{CanRead, number_read};

    ghost number = { λ lent read p. number_read lent.views.now lent.sources.now (option_map content_of (option_copied lent.written)) (contents content_of lent.reads.now) read p };

    ghost can_ask = { λ lent read p. CanRead lent.views.now lent.sources.now (option_map content_of (option_copied lent.written)) (contents content_of lent.reads.now) read p };

    fn value(&self, read: usize, p: &Cell) -> i64 {
        let c = self.views[read].cell(p);
        match self.sources[read] {
            Source::Written => match self.written {
                Some(patch) => patch.get(&c),
                None => unreachable!(),
            },
            Source::Read(place) => {
                let patch: &Patch = &self.reads[place];
                patch.get(&c)
            }
        }
    }
}

/// The value of the piece's code at one of its positions, where the patches that are lent have each cell that it reads there.
pub(crate) fn value_at(
    piece: &Piece,
    written: Option<&Patch>,
    reads: &[Arc<Patch>],
    p: &Cell,
) -> Result<i64, FaultKind>
    requires inside { IsIn piece.now.positions p.now }
    requires there { CanSee piece.now (option_map content_of (option_copied written)) (contents content_of reads.now) p.now }
    ensures { (has : Contents) → SeesAs piece.now (option_map content_of (option_copied written.entry)) (contents content_of reads.now) has p.now
        → result ≡ value [] has piece.now.code p.now }
{
    coordinates_of_cells();
    let code = piece.code();
    let lent = Lent {
        views: code.reads(),
        sources: piece.sources(),
        written,
        reads,
    };
    eval_at(code, &lent, p)
}
