ghost use Rattle.std.specs.Prelude.{◌≡◌, ◌+◌, ◌^◌, ◌<◌, ◌≤◌, pos, ◌≤ℤ◌, Some, length, map, slice_get, sum_by, IfOk, IsSomeAnd};
ghost use Rattle.pooma_domain.specs.Axes.{interval_of};
ghost use Rattle.pooma_domain.specs.Cells.{axis_length};
ghost use Rattle.pooma_layout.specs.Axes.{cut_axis, total_axis, parts, part_of, allocated_part, IsNear, IsDepth, IsCovering, IsCutAxis};
ghost use Rattle.pooma_layout.specs.Blocks.{part_lengths, block_lengths, AreBlockStarts};

use pooma_domain::Axis;
use std::alloc::{AllocError, Global};
use std::marker::Model;

/// An axis of a layout, cut into parts at its borders: the first number of each part but the first.
#[derive(Debug, Drop)]
pub(crate) struct AxisParts {
    physical: Axis,
    external: i32,
    internal: i32,
    borders: Vec<i32>,
}

impl Model for AxisParts {
    ghost use Rattle.pooma_domain.specs.Cells.{interval};
    ghost use Rattle.pooma_layout.specs.Axes.{CutAxis, cut_axis, IsCutAxis};

    ghost Value = { CutAxis };

    ghost view = { λ a. cut_axis (interval a.physical.first a.physical.last) a.external a.internal a.borders.items };

    ghost invariant = { λ a. IsCutAxis (cut_axis (interval a.physical.first a.physical.last) a.external a.internal a.borders.items) };
}

// How many numbers an axis has.
fn axis_len(axis: Axis) -> u32
    ensures value { result ≡ axis_length (interval_of axis) }
    ensures few { result ≤ 8000001 }
{
    (axis.last - axis.first + 1) as u32
}

// The first number of each block but the first, where so many cells from a first number on are cut
// into blocks.
fn block_borders(alloc: Global, first: i32, cells: u32, parts: u32) -> Result<Vec<i32>, AllocError>
    requires some { 0 < parts }
    requires enough { parts ≤ cells }
    requires near { (pos cells ≤ℤ pos 2000001) × (first ≤ℤ pos 1000000) }
    ensures count { IfOk result (λ made. length made.items + 1 ≡ parts) }
    ensures starts { IfOk result (λ made. AreBlockStarts first cells parts made.items) }
{
    let short = cells / parts;
    let longer = cells % parts;
    let mut borders = Vec::with_capacity(alloc, parts as usize - 1)?;
    for k in 1..parts {
        borders.push(first + (k * short + k.min(longer)) as i32)?;
    }
    Ok(borders)
}

impl AxisParts {
    // The axis cut at these borders.
    fn new(physical: Axis, borders: Vec<i32>, internal: i32, external: i32) -> AxisParts
        requires { IsCutAxis (cut_axis (interval_of physical) external internal borders.items) }
        ensures { result ≡ cut_axis (interval_of physical) external internal borders.items }
    {
        AxisParts {
            physical,
            external,
            internal,
            borders,
        }
    }

    /// The axis cut at these borders.
    pub(crate) fn cut(
        alloc: Global,
        physical: Axis,
        borders: &[i32],
        internal: i32,
        external: i32,
    ) -> Result<AxisParts, AllocError>
        requires { IsCutAxis (cut_axis (interval_of physical) external internal borders.now) }
        ensures { IfOk result (λ made. made ≡ cut_axis (interval_of physical) external internal borders.now) }
    {
        let borders = Vec::from_slice(alloc, borders)?;
        Ok(AxisParts::new(physical, borders, internal, external))
    }

    /// The axis cut into so many blocks, of which the first ones are longer by one where the blocks
    /// do not divide the axis.
    pub(crate) fn blocks(
        alloc: Global,
        physical: Axis,
        parts: u32,
        internal: i32,
        external: i32,
    ) -> Result<AxisParts, AllocError>
        requires near { IsNear (interval_of physical) }
        requires depths { IsDepth internal × IsDepth external }
        requires covering { IsCovering (interval_of physical) external }
        requires some { 0 < parts }
        requires enough { parts ≤ axis_length (interval_of physical) }
        ensures physical { IfOk result (λ made. made.physical ≡ interval_of physical) }
        ensures guards { IfOk result (λ made. (made.internal ≡ internal) × (made.external ≡ external)) }
        ensures lengths { IfOk result (λ made. part_lengths made ≡ block_lengths (axis_length (interval_of physical)) parts) }
        ensures valid { IfOk result IsCutAxis }
    {
        let cells = axis_len(physical);
        let borders = block_borders(alloc, physical.first, cells, parts)?;
        Ok(AxisParts::new(physical, borders, internal, external))
    }

    /// An equal axis.
    pub(crate) fn copied(&self, alloc: Global) -> Result<AxisParts, AllocError>
        ensures { IfOk result (λ made. made ≡ self.now) }
    {
        AxisParts::cut(
            alloc,
            self.physical,
            &self.borders,
            self.internal,
            self.external,
        )
    }

    /// The axis without its guards.
    pub(crate) fn physical(&self) -> Axis
        ensures { interval_of result ≡ self.now.physical }
    {
        self.physical
    }

    /// The axis with its external guards.
    pub(crate) fn total(&self) -> Axis
        ensures { interval_of result ≡ total_axis self.now }
    {
        Axis {
            first: self.physical.first - self.external,
            last: self.physical.last + self.external,
        }
    }

    /// The guard layers round each part.
    pub(crate) fn internal(&self) -> i32
        ensures value { result ≡ self.now.internal }
        ensures valid { IsCutAxis self.now }
    {
        self.internal
    }

    /// The first number of each part but the first.
    pub(crate) fn borders(&self) -> &[i32]
        ensures value { result.now ≡ self.now.borders }
        ensures valid { IsCutAxis self.now }
    {
        &self.borders
    }

    /// How many parts the axis has.
    pub(crate) fn parts(&self) -> usize
        ensures value { result ≡ length (parts self.now) }
        ensures valid { IsCutAxis self.now }
    {
        self.borders().len() + 1
    }

    // The least number of a part.
    fn first_of(&self, k: usize) -> i32
        requires { k < length (parts self.now) }
        ensures value { IsSomeAnd (slice_get (parts self.now) k) (λ part. part.first ≡ result) }
        ensures valid { IsCutAxis self.now }
    {
        match self.borders()[..k].last() {
            Some(border) => *border,
            None => self.total().first,
        }
    }

    // The greatest number of a part.
    fn last_of(&self, k: usize) -> i32
        requires { k < length (parts self.now) }
        ensures { IsSomeAnd (slice_get (parts self.now) k) (λ part. part.last ≡ result) }
    {
        match self.borders().get(k) {
            Some(border) => *border - 1,
            None => self.total().last,
        }
    }

    /// The numbers of a part, which at the edges reaches through the external guards.
    pub(crate) fn part(&self, k: usize) -> Axis
        requires { k < length (parts self.now) }
        ensures { slice_get (parts self.now) k ≡ Some (interval_of result) }
    {
        Axis {
            first: self.first_of(k),
            last: self.last_of(k),
        }
    }

    /// The numbers of a part with its internal guards, as far as the axis goes.
    pub(crate) fn allocated(&self, k: usize) -> Axis
        requires { k < length (parts self.now) }
        ensures { slice_get (map (allocated_part self.now) (parts self.now)) k ≡ Some (interval_of result) }
    {
        let total = self.total();
        let part = self.part(k);
        let depth = self.internal();
        Axis {
            first: (part.first - depth).max(total.first),
            last: (part.last + depth).min(total.last),
        }
    }

    /// The number of the part that has a coordinate.
    pub(crate) fn part_of(&self, x: i32) -> usize
        ensures { result ≡ part_of self.now.borders x }
    {
        self.borders().partition_point(|border| *border <= x)
    }

    /// How many numbers all parts allocate together.
    pub(crate) fn allocated_len(&self) -> u64
        requires { length (parts self.now) ≤ 256 }
        ensures value { result ≡ sum_by axis_length (map (allocated_part self.now) (parts self.now)) }
        ensures few { result < 2 ^ 21 }
    {
        let mut len = 0;
        for k in 0..self.parts() {
            len += u64::from(axis_len(self.allocated(k)));
        }
        len
    }
}
