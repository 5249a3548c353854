//! What the lines of layouts, arrays and stencils make known.
ghost use Rattle.std.specs.Prelude.{◌≡◌, ◌+◌, ◌*◌, ◌≤◌, ◌<◌, None, Some, length, All, IsTrue, IfOk, OnOk, map};
ghost use Rattle.std.specs.Map.{lookup};
ghost use Rattle.std.specs.List.{AllZip};
ghost use Rattle.std.specs.Str.{bytes_eq};
ghost use Rattle.pooma_domain.specs.Cells.{IsIn, IsOrdered, cells_of};
ghost use Rattle.pooma_domain.specs.Operations.{reaches};
ghost use Rattle.pooma_field.specs.Faces.{by_axis};
ghost use Rattle.pooma_layout.specs.Axes.{IsCovering};
ghost use Rattle.pooma_layout.specs.Blocks.{product};
ghost use Rattle.pooma_layout.specs.Patches.{allocated_count, total_of};
ghost use Rattle.pooma_script.specs.After.{with_layout, with_new_array, with_stencil};
ghost use Rattle.pooma_script.specs.Bodies.{body_of, offsets_in};
ghost use Rattle.pooma_script.specs.Known.{is_layout, layout_named, named_at};
ghost use Rattle.pooma_script.specs.Layouts.{axes_of, brick_of, layers, layout_of, shape_on};
ghost use Rattle.pooma_script.specs.Operators.{updater_of};
ghost use Rattle.pooma_script.specs.Tests.{AreAxes, AreFew, CutsInside, HasParts, IsNearZero, cut_count, parts_by};
ghost use Rattle.pooma_check.specs.Kept.{IsKept, known_of};

use crate::known::{Known, note_array, note_layout};
use pooma_layout::Layout;
use pooma_parse::{RawCutting, RawExpr, Updater4};
use pooma_script::LimitName;
use pooma_script::body::body;
use pooma_script::made::{brick, cell_of, faces_of, said, shape_over};
use pooma_script::names::Named;
use pooma_stencil::Stencil;
use pooma_text::Span;
use std::alloc::{AllocError, Global};

/// Notes the layout that a line says. Its only error is want of memory.
pub fn take_layout<'a>(
    alloc: Global,
    known: &mut Known<'a>,
    name: &'a [u8],
    domain: &[(i32, i32)],
    cutting: &RawCutting,
    internal: &[i32],
    external: &[i32],
) -> Result<(), AllocError>
    requires new { lookup (bytes_eq name.now) known.old.names ≡ None }
    requires axes { AreAxes (length domain.now) }
    requires cut { cut_count cutting.now ≡ length domain.now }
    requires layers { (length (layers (axes_of domain.now) internal.now) ≡ length domain.now)
        × (length (layers (axes_of domain.now) external.now) ≡ length domain.now) }
    requires ordered { All IsOrdered (axes_of domain.now) }
    requires parts { HasParts (axes_of domain.now) cutting.now }
    requires cuts { CutsInside (axes_of domain.now) cutting.now }
    requires near { All IsNearZero domain.now }
    requires patches { product (parts_by cutting.now) ≤ 256 }
    requires guards { AreFew LimitName.Guards (layers (axes_of domain.now) internal.now) × AreFew LimitName.Guards (layers (axes_of domain.now) external.now)
        × AllZip IsCovering (axes_of domain.now) (layers (axes_of domain.now) external.now) }
    ensures known { OnOk result (known_of known.new
        ≡ with_layout name.now (layout_of (axes_of domain.now) cutting.now internal.now external.now) (known_of known.old)) }
    ensures turns { OnOk result (known.new.turns.items ≡ known.old.turns.items) }
{
    let layout = said(alloc, domain, cutting, internal, external)?;
    note_layout(alloc, known, name, layout)
}

/// Declares the brick that a line says. Its only error is want of memory.
pub fn take_brick<'a>(
    alloc: Global,
    known: &mut Known<'a>,
    name: &'a [u8],
    domain: &[(i32, i32)],
) -> Result<(), AllocError>
    requires new { lookup (bytes_eq name.now) known.old.names ≡ None }
    requires axes { AreAxes (length domain.now) }
    requires ordered { All IsOrdered (axes_of domain.now) }
    requires near { All IsNearZero domain.now }
    requires few_arrays { length known.old.draft.declared.shapes < 256 }
    requires few_cells { length (cells_of (axes_of domain.now)) ≤ 4194304 }
    requires few_allocated { known.old.allocated + allocated_count (brick_of (axes_of domain.now)) ≤ 16777216 }
    ensures known { OnOk result (known_of known.new
        ≡ with_new_array name.now (shape_on (brick_of (axes_of domain.now)) None) (brick_of (axes_of domain.now)) (known_of known.old)) }
    ensures turns { OnOk result (known.new.turns.items ≡ known.old.turns.items) }
{
    let layout = brick(alloc, domain)?;
    let shape = shape_over(&layout, None);
    note_array(alloc, known, name, shape, layout)
}

/// The layout that is named, for a further array. Its only error is want of memory.
fn layout_at(
    alloc: Global,
    known: &Known<'_>,
    text: &[u8],
    name: Span,
) -> Result<Layout, AllocError>
    requires kept { IsKept known.now }
    requires named { IsTrue (is_layout (named_at (known_of known.now) text.now name)) }
    ensures { IfOk result (λ made. made ≡ layout_named (known_of known.now) (named_at (known_of known.now) text.now name)) }
{
    let Some(Named::Layout(n)) = known.names.named(text, name) else {
        unreachable!();
    };
    let Some(layout) = known.layouts.get(n) else {
        unreachable!();
    };
    layout.copied(alloc)
}

/// Declares the array that a line says over the layout that it names. Its only error is want of memory.
pub fn take_array<'a>(
    alloc: Global,
    known: &mut Known<'a>,
    text: &'a [u8],
    name: &'a [u8],
    on: Span,
) -> Result<(), AllocError>
    requires kept { IsKept known.old }
    requires new { lookup (bytes_eq name.now) known.old.names ≡ None }
    requires named { IsTrue (is_layout (named_at (known_of known.old) text.now on)) }
    requires few_arrays { length known.old.draft.declared.shapes < 256 }
    requires few_cells { length (cells_of (total_of (layout_named (known_of known.old) (named_at (known_of known.old) text.now on)))) ≤ 4194304 }
    requires few_allocated { known.old.allocated + allocated_count (layout_named (known_of known.old) (named_at (known_of known.old) text.now on)) ≤ 16777216 }
    ensures known { OnOk result (let layout = layout_named (known_of known.old) (named_at (known_of known.old) text.now on) in
        known_of known.new ≡ with_new_array name.now (shape_on layout None) layout (known_of known.old)) }
    ensures turns { OnOk result (known.new.turns.items ≡ known.old.turns.items) }
{
    let layout = layout_at(alloc, known, text, on)?;
    let shape = shape_over(&layout, None);
    note_array(alloc, known, name, shape, layout)
}

/// Declares the field that a line says over the layout that it names. Its only error is want of memory.
pub fn take_field<'a>(
    alloc: Global,
    known: &mut Known<'a>,
    text: &'a [u8],
    name: &'a [u8],
    on: Span,
    faces: &[Updater4],
) -> Result<(), AllocError>
    requires kept { IsKept known.old }
    requires new { lookup (bytes_eq name.now) known.old.names ≡ None }
    requires named { IsTrue (is_layout (named_at (known_of known.old) text.now on)) }
    requires faced { length faces.now ≡ 2 * length (layout_named (known_of known.old) (named_at (known_of known.old) text.now on)) }
    requires few_arrays { length known.old.draft.declared.shapes < 256 }
    requires few_cells { length (cells_of (total_of (layout_named (known_of known.old) (named_at (known_of known.old) text.now on)))) ≤ 4194304 }
    requires few_allocated { known.old.allocated + allocated_count (layout_named (known_of known.old) (named_at (known_of known.old) text.now on)) ≤ 16777216 }
    ensures known { OnOk result (let layout = layout_named (known_of known.old) (named_at (known_of known.old) text.now on) in
        known_of known.new ≡ with_new_array name.now (shape_on layout (Some (by_axis (map updater_of faces.now)))) layout (known_of known.old)) }
    ensures turns { OnOk result (known.new.turns.items ≡ known.old.turns.items) }
{
    let layout = layout_at(alloc, known, text, on)?;
    // For what it promises: a layout has one to three axes.
    let _patches = layout.patches();
    let shape = shape_over(&layout, Some(faces_of(faces)));
    note_array(alloc, known, name, shape, layout)
}

/// Notes the stencil that a line says. Its only error is want of memory.
pub fn take_stencil<'a>(
    alloc: Global,
    known: &mut Known<'a>,
    name: &'a [u8],
    lower: &[i32],
    upper: &[i32],
    expr: &RawExpr,
) -> Result<(), AllocError>
    requires new { lookup (bytes_eq name.now) known.old.names ≡ None }
    requires axes { AreAxes (length lower.now) }
    requires paired { length upper.now ≡ length lower.now }
    requires along { All (λ offset. length offset ≡ length lower.now) (offsets_in expr.now) }
    requires within { All (IsIn (reaches lower.now upper.now)) (offsets_in expr.now) }
    requires few { AreFew LimitName.Extents lower.now × AreFew LimitName.Extents upper.now }
    ensures known { OnOk result (known_of known.new
        ≡ with_stencil name.now (record { lower = lower.now; upper = upper.now; body = body_of expr.now }) (known_of known.old)) }
    ensures turns { OnOk result (known.new.turns.items ≡ known.old.turns.items) }
{
    let made = body(alloc, expr)?;
    let stencil = Stencil::new(cell_of(lower), cell_of(upper), made);
    let number = known.stencils.len();
    known.stencils.push(stencil)?;
    known.names.declare(alloc, name, Named::Stencil(number))
}
