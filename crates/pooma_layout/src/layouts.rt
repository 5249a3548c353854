ghost use Rattle.std.specs.Prelude.{◌≡◌, ℕ, ◌+◌, ◌^◌, ◌<◌, ◌≤◌, Some, length, map, slice_get, All, IfOk};
ghost use Rattle.std.specs.List.{AllZip};
ghost use Rattle.pooma_domain.specs.Cells.{count_of, IsIn};
ghost use Rattle.pooma_domain.specs.Operations.{each_of};
ghost use Rattle.pooma_layout.specs.Axes.{IsNear, IsDepth, IsCovering, IsAscending, AreBorders};
ghost use Rattle.pooma_layout.specs.Blocks.{part_lengths, blocks_of, product, IsPartCount};
ghost use Rattle.pooma_layout.specs.Patches.{physical_of, total_of, external_of, internal_of, borders_of, owned_boxes, allocated_boxes, allocated_count, owner_of, Owns, IsLayout};

use crate::axes::AxisParts;
use crate::patches;
use pooma_domain::{BoxN, Cell};
use std::alloc::{AllocError, Global};
use std::marker::Model;

/// How a box of one to three axes, the domain, is cut into patches. Each axis is cut into parts; a patch
/// is a choice of one part an axis, and patches are numbered from 0, the first axis fastest. External
/// guards are layers of cells beyond the domain, 0 to 8 on each axis and no more than it has cells;
/// internal guards are 0 to 8 layers round each part, where a patch keeps copies of its neighbours'
/// cells.
///
/// A patch *owns* the cells of its parts, where a part at an edge reaches through the external guards.
/// So each cell of the domain with its external guards has one owner. It *allocates* these and those
/// within its internal guards.
///
/// A layout takes memory in the number of parts of its axes, and not of its patches.
#[derive(Debug, Drop)]
pub struct Layout {
    axes: Vec<AxisParts>,
}

impl Model for Layout {
    ghost use Rattle.std.specs.Prelude.{List};
    ghost use Rattle.pooma_layout.specs.Axes.{CutAxis};
    ghost use Rattle.pooma_layout.specs.Patches.{IsLayout};

    ghost Value = { List CutAxis };

    ghost view = { λ l. l.axes.items };

    ghost invariant = { λ l. IsLayout l.axes.items };
}

impl Layout {
    /// The domain cut on each axis into so many blocks. Where they do not divide the axis, the first
    /// ones have one cell more. Its only error is want of memory.
    pub fn grid(
        alloc: Global,
        domain: BoxN,
        parts: &Cell,
        internal: &Cell,
        external: &Cell,
    ) -> Result<Layout, AllocError>
        requires some { 0 < length domain }
        requires near { All IsNear domain }
        requires blocks { AllZip IsPartCount domain parts.now }
        requires patches { product (map count_of parts.now) ≤ 256 }
        requires same_dims { (length internal.now ≡ length domain) × (length external.now ≡ length domain) }
        requires depths { All IsDepth internal.now × All IsDepth external.now }
        requires covering { AllZip IsCovering domain external.now }
        ensures physical { IfOk result (λ made. physical_of made ≡ domain) }
        ensures internal { IfOk result (λ made. internal_of made ≡ internal.now) }
        ensures external { IfOk result (λ made. external_of made ≡ external.now) }
        ensures lengths { IfOk result (λ made. map part_lengths made ≡ each_of blocks_of domain parts.now) }
    {
        let mut axes = Vec::with_capacity(alloc, domain.dims())?;
        for n in 0..domain.dims() {
            let axis = AxisParts::blocks(
                alloc,
                domain.axis(n),
                parts.at(n) as u32,
                internal.at(n),
                external.at(n),
            )?;
            axes.push(axis)?;
        }
        Ok(Layout { axes })
    }

    /// The domain cut on each axis at these numbers, each the first of a part. An axis that is not cut
    /// has an empty list. Its only error is want of memory.
    pub fn cuts(
        alloc: Global,
        domain: BoxN,
        cuts: &[Vec<i32>],
        internal: &Cell,
        external: &Cell,
    ) -> Result<Layout, AllocError>
        requires some { 0 < length domain }
        requires near { All IsNear domain }
        requires ascending { All (λ list. IsAscending list.items) cuts.now }
        requires inside { AllZip (λ axis list. AreBorders axis list.items) domain cuts.now }
        requires patches { product (map (λ list. length list.items + 1) cuts.now) ≤ 256 }
        requires same_dims { (length internal.now ≡ length domain) × (length external.now ≡ length domain) }
        requires depths { All IsDepth internal.now × All IsDepth external.now }
        requires covering { AllZip IsCovering domain external.now }
        ensures physical { IfOk result (λ made. physical_of made ≡ domain) }
        ensures internal { IfOk result (λ made. internal_of made ≡ internal.now) }
        ensures external { IfOk result (λ made. external_of made ≡ external.now) }
        ensures borders { IfOk result (λ made. borders_of made ≡ map (λ list. list.items) cuts.now) }
    {
        let mut axes = Vec::with_capacity(alloc, domain.dims())?;
        for (n, list) in cuts.iter().enumerate() {
            let axis = AxisParts::cut(alloc, domain.axis(n), list, internal.at(n), external.at(n))?;
            axes.push(axis)?;
        }
        Ok(Layout { axes })
    }

    /// An equal layout, for a further array. Its only error is want of memory.
    pub fn copied(&self, alloc: Global) -> Result<Layout, AllocError>
        ensures { IfOk result (λ made. made ≡ self.now) }
    {
        let mut axes = Vec::with_capacity(alloc, self.axes.len())?;
        for axis in &self.axes {
            axes.push(axis.copied(alloc)?)?;
        }
        Ok(Layout { axes })
    }

    /// How many patches there are: 1 to 256.
    pub fn patches(&self) -> usize
        ensures value { result ≡ length (owned_boxes self.now) }
        ensures some { 0 < result }
        ensures valid { IsLayout self.now }
    {
        patches::count(&self.axes)
    }

    /// The domain, without guards.
    pub fn physical(&self) -> BoxN
        ensures { result ≡ physical_of self.now }
    {
        patches::physical(&self.axes)
    }

    /// The domain grown by the external guards.
    pub fn total(&self) -> BoxN
        ensures { result ≡ total_of self.now }
    {
        patches::total(&self.axes)
    }

    /// The borders of this axis, counted from 0: the first number of each part but the first, ascending.
    pub fn borders(&self, axis: usize) -> &[i32]
        requires { axis < length self.now }
        ensures { slice_get (borders_of self.now) axis ≡ Some result.now }
    {
        self.axes[axis].borders()
    }

    /// How many internal guard layers were given for this axis, counted from 0.
    pub fn internal(&self, axis: usize) -> i32
        requires { axis < length self.now }
        ensures { slice_get (internal_of self.now) axis ≡ Some result }
    {
        self.axes[axis].internal()
    }

    /// The cells that the patch owns: its parts, which at the edges reach through the external guards.
    pub fn owned(&self, p: usize) -> BoxN
        requires { p < length (owned_boxes self.now) }
        ensures { slice_get (owned_boxes self.now) p ≡ Some result }
    {
        patches::owned(&self.axes, p)
    }

    /// The cells that the patch allocates: those that it owns and those within its internal guards, as
    /// far as the domain with its external guards goes.
    pub fn allocated(&self, p: usize) -> BoxN
        requires { p < length (owned_boxes self.now) }
        ensures { slice_get (allocated_boxes self.now) p ≡ Some result }
    {
        patches::allocated(&self.axes, p)
    }

    /// The number of the patch that owns the cell.
    pub fn owner(&self, c: &Cell) -> usize
        requires { IsIn (total_of self.now) c.now }
        ensures owns { Owns self.now result c.now }
        ensures no_other { (p : ℕ) → Owns self.now p c.now → p ≡ result }
        ensures by_parts { result ≡ owner_of self.now c.now }
    {
        patches::owner(&self.axes, c)
    }

    /// How many cells all patches allocate together. It walks over the parts of the axes, and not over
    /// the patches.
    pub fn allocated_cells(&self) -> u64
        ensures value { result ≡ allocated_count self.now }
        ensures few { result < 2 ^ 63 }
    {
        patches::allocated_cells(&self.axes)
    }
}
