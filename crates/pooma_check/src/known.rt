//! What the lines before a line have made known.
ghost use Rattle.std.specs.Prelude.{◌≡◌, ◌+◌, ◌<◌, ◌≤◌, None, length, OnOk};
ghost use Rattle.std.specs.Map.{lookup};
ghost use Rattle.std.specs.Str.{bytes_eq};
ghost use Rattle.pooma_domain.specs.Cells.{cells_of};
ghost use Rattle.pooma_field.specs.ShapeOf.{shape_of};
ghost use Rattle.pooma_layout.specs.Patches.{allocated_count, physical_of, total_of};
ghost use Rattle.pooma_script.specs.After.{with_layout, with_new_array};
ghost use Rattle.pooma_script.specs.Known.{nothing_known};
ghost use Rattle.pooma_check.specs.Kept.{IsKept, known_of};

use pooma_field::Shape;
use pooma_layout::Layout;
use pooma_model::Draft;
use pooma_script::names::{Named, Names};
use pooma_stencil::Stencil;
use std::alloc::{AllocError, Global};

/// The names, the layouts and stencils that have names, the program so far, and what is counted.
#[derive(Debug, Drop)]
pub struct Known<'a> {
    /// What each name names.
    pub names: Names<'a>,
    /// The layouts that have names, by their numbers.
    pub layouts: Vec<Layout>,
    /// The stencils, by their numbers.
    pub stencils: Vec<Stencil>,
    /// The arrays, the scalars and the statements so far.
    pub draft: Draft,
    /// For each open repeat, the outermost first, how often a line in it is done, or `CAP` where that is more.
    pub turns: Vec<u64>,
    /// The cells that all patches of all arrays allocate, those of a layout once for each array over it.
    pub allocated: u64,
    /// The statements that are executed, those in repeats as often as they will be.
    pub executed: u64,
    /// The values that are printed, the same way.
    pub printed: u64,
}

/// What is known before the first line.
pub fn nothing<'a>(alloc: Global) -> Known<'a>
    ensures known { known_of result ≡ nothing_known }
    ensures kept { IsKept result }
{
    Known {
        names: Names::new(alloc),
        layouts: Vec::new(alloc),
        stencils: Vec::new(alloc),
        draft: Draft::new(alloc),
        turns: Vec::new(alloc),
        allocated: 0,
        executed: 0,
        printed: 0,
    }
}

/// Notes a layout by its name. Its only error is want of memory.
pub fn note_layout<'a>(
    alloc: Global,
    known: &mut Known<'a>,
    name: &'a [u8],
    layout: Layout,
) -> Result<(), AllocError>
    requires { lookup (bytes_eq name.now) known.old.names ≡ None }
    ensures known { OnOk result (known_of known.new ≡ with_layout name.now layout (known_of known.old)) }
    ensures turns { OnOk result (known.new.turns.items ≡ known.old.turns.items) }
{
    let number = known.layouts.len();
    known.layouts.push(layout)?;
    known.names.declare(alloc, name, Named::Layout(number))
}

/// Declares an array by its name. Its only error is want of memory.
pub fn note_array<'a>(
    alloc: Global,
    known: &mut Known<'a>,
    name: &'a [u8],
    shape: Shape,
    layout: Layout,
) -> Result<(), AllocError>
    requires new { lookup (bytes_eq name.now) known.old.names ≡ None }
    requires few_arrays { length known.old.draft.declared.shapes < 256 }
    requires physical { physical_of layout ≡ shape.physical }
    requires total { total_of layout ≡ shape.total }
    requires few_cells { length (cells_of shape.total) ≤ 4194304 }
    requires few_allocated { known.old.allocated + allocated_count layout ≤ 16777216 }
    ensures known { OnOk result (known_of known.new ≡ with_new_array name.now (shape_of shape) layout (known_of known.old)) }
    ensures turns { OnOk result (known.new.turns.items ≡ known.old.turns.items) }
{
    known.allocated += layout.allocated_cells();
    let number = known.draft.declare(alloc, shape, layout)?;
    known.names.declare(alloc, name, Named::Array(number))
}
