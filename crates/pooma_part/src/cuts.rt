//! The parts of positions.
ghost use Rattle.std.specs.Prelude.{◌≡◌, ◌≤◌, ◌∷◌, length, map, flat_map, All, IfOk};
ghost use Rattle.pooma_domain.specs.Cells.{cells_of, IsBox};
ghost use Rattle.pooma_layout.specs.Blocks.{product};
ghost use Rattle.pooma_layout.specs.Patches.{boxes_of};
ghost use Rattle.pooma_part.specs.CutLines.{parts_in, AreCutLines};
ghost use Rattle.pooma_part.specs.Cuts.{cuts_of};

use crate::line::Line;
use crate::seen::Seen;
use pooma_domain::BoxN;
use std::alloc::{AllocError, Global};
use std::marker::Model;

/// The parts into which each axis of a box of positions is cut, in order.
#[derive(Debug, Drop)]
pub struct Cutting {
    lines: Vec<Line>,
}

impl Model for Cutting {
    ghost use Rattle.std.specs.Prelude.{List, map};
    ghost use Rattle.pooma_domain.specs.Cells.{Interval};
    ghost use Rattle.pooma_part.specs.CutLines.{parts_in, AreCutLines};

    ghost Value = { List (List Interval) };

    ghost view = { λ c. map parts_in c.lines.items };

    ghost invariant = { λ c. AreCutLines c.lines.items };
}

/// Where the positions are cut: at each place at which some view comes to another part of its array's layout. The axes of
/// positions are those of the slots that go along an axis, in order. The places are found from the borders of the layouts; it
/// takes no step for a position. Its only error is want of memory.
pub fn cut(alloc: Global, seen: &[Seen<'_>], positions: &BoxN) -> Result<Cutting, AllocError>
    ensures { IfOk result (λ cutting. cutting ≡ cuts_of seen.now 0 positions.now) }
{
    let mut lines = Vec::with_capacity(alloc, positions.dims())?;
    for n in 0..positions.dims() {
        lines.push(Line::cut(alloc, seen, n, positions.axis(n))?)?;
    }
    Ok(Cutting { lines })
}

// How many choices of a part of each axis there are.
fn count_of(lines: &[Line]) -> u64
    requires { AreCutLines lines.now }
    ensures value { result ≡ product (map length (map parts_in lines.now)) }
    ensures few { result ≤ length (cells_of (map (λ line. line.whole) lines.now)) }
{
    match lines {
        [] => 1,
        [first, later @ ..] => first.parts() as u64 * count_of(later),
    }
}

// The box of each choice of a part of each axis.
fn boxes_of(alloc: Global, lines: &[Line]) -> Result<Vec<BoxN>, AllocError>
    requires { AreCutLines lines.now }
    ensures { IfOk result (λ boxes. boxes.items ≡ boxes_of (map parts_in lines.now)) }
{
    match lines {
        [] => {
            let mut boxes = Vec::with_capacity(alloc, 1)?;
            boxes.push(BoxN::point())?;
            Ok(boxes)
        }
        [first, later @ ..] => with_parts(alloc, first, &boxes_of(alloc, later)?),
    }
}

// The boxes of each part of the first axis with each box of the later ones.
fn with_parts(alloc: Global, first: &Line, later: &[BoxN]) -> Result<Vec<BoxN>, AllocError>
    requires { All (λ rest. All (λ part. IsBox (part ∷ rest)) (parts_in first.now)) later.now }
    ensures { IfOk result (λ boxes. boxes.items ≡ flat_map (λ rest. map (λ part. part ∷ rest) (parts_in first.now)) later.now) }
{
    let mut boxes = Vec::new(alloc);
    for rest in later {
        first.add_boxes(alloc, &mut boxes, rest)?;
    }
    Ok(boxes)
}

impl Cutting {
    /// How many parts the positions have: the product of what the axes have.
    pub fn count(&self) -> u64
        ensures product { result ≡ product (map length self.now) }
        ensures boxes { result ≡ length (boxes_of self.now) }
    {
        count_of(&self.lines)
    }

    /// The parts as boxes of positions, in the order of their first positions.
    pub fn boxes(&self, alloc: Global) -> Result<Vec<BoxN>, AllocError>
        ensures { IfOk result (λ boxes. boxes.items ≡ boxes_of self.now) }
    {
        boxes_of(alloc, &self.lines)
    }
}
