//! An axis of positions that is cut.
ghost use Rattle.std.specs.Prelude.{◌≡◌, ◌++◌, ◌∷◌, ◌<◌, Some, length, map, slice_get, All, IfOk, IsSomeAnd, OnOk};
ghost use Rattle.pooma_domain.specs.Axes.{interval_of};
ghost use Rattle.pooma_domain.specs.Cells.{IsBox};
ghost use Rattle.pooma_model.specs.Parts.{borders_on};
ghost use Rattle.pooma_part.specs.CutLines.{parts_in, IsCutLine};
ghost use Rattle.pooma_part.specs.Cuts.{parts_on};

use crate::seen::Seen;
use crate::views::places_on;
use pooma_domain::{Axis, BoxN};
use std::alloc::{AllocError, Global};
use std::marker::Model;

/// An axis of positions, and the first place of each part but the first.
#[derive(Debug, Drop)]
pub(crate) struct Line {
    axis: Axis,
    borders: Vec<i32>,
}

impl Model for Line {
    ghost use Rattle.pooma_domain.specs.Cells.{interval};
    ghost use Rattle.pooma_part.specs.CutLines.{CutLine, IsCutLine};

    ghost Value = { CutLine };

    ghost view = { λ l. record { whole = interval l.axis.first l.axis.last; borders = l.borders.items } };

    ghost invariant = { λ l. IsCutLine (record { whole = interval l.axis.first l.axis.last; borders = l.borders.items }) };
}

impl Line {
    /// The n-th axis of positions, cut where some view comes to another part.
    pub(crate) fn cut(
        alloc: Global,
        seen: &[Seen<'_>],
        n: usize,
        axis: Axis,
    ) -> Result<Line, AllocError>
        ensures whole { IfOk result (λ line. line.whole ≡ interval_of axis) }
        ensures borders { IfOk result (λ line. line.borders ≡ borders_on (parts_on seen.now n) (interval_of axis)) }
        ensures valid { IfOk result IsCutLine }
    {
        let mut places = places_on(alloc, seen, n, axis)?;
        places.sort_unstable();
        places.dedup();
        Ok(Line {
            axis,
            borders: places,
        })
    }

    /// How many parts it has.
    pub(crate) fn parts(&self) -> usize
        ensures value { result ≡ length (parts_in self.now) }
        ensures valid { IsCutLine self.now }
    {
        self.borders.len() + 1
    }

    // The first place of a part.
    fn first_of(&self, k: usize) -> i32
        requires { k < length (parts_in self.now) }
        ensures value { IsSomeAnd (slice_get (parts_in self.now) k) (λ part. part.first ≡ result) }
        ensures valid { IsCutLine self.now }
    {
        match self.borders[..k].last() {
            Some(border) => *border,
            None => self.axis.first,
        }
    }

    // The last place of a part.
    fn last_of(&self, k: usize) -> i32
        requires { k < length (parts_in self.now) }
        ensures { IsSomeAnd (slice_get (parts_in self.now) k) (λ part. part.last ≡ result) }
    {
        match self.borders.get(k) {
            Some(border) => *border - 1,
            None => self.axis.last,
        }
    }

    // The places of a part.
    fn part(&self, k: usize) -> Axis
        requires { k < length (parts_in self.now) }
        ensures { slice_get (parts_in self.now) k ≡ Some (interval_of result) }
    {
        Axis {
            first: self.first_of(k),
            last: self.last_of(k),
        }
    }

    /// Adds the boxes of each part with the box of the later axes.
    pub(crate) fn add_boxes(
        &self,
        _alloc: Global,
        boxes: &mut Vec<BoxN>,
        later: &BoxN,
    ) -> Result<(), AllocError>
        requires { All (λ part. IsBox (part ∷ later.now)) (parts_in self.now) }
        ensures { OnOk result (boxes.new.items ≡ boxes.old.items ++ map (λ part. part ∷ later.now) (parts_in self.now)) }
    {
        for k in 0..self.parts() {
            boxes.push(later.after(self.part(k)))?;
        }
        Ok(())
    }
}
