//! The texts of views and of scalars.
ghost use Rattle.std.specs.Prelude.{◌≡◌, ◌<◌, ◌++◌, ℤ, pos, ◌+ℤ◌, ◌≤ℤ◌, List, [], ◌∷◌, length, map, IfOk, OnOk, OnErr};
ghost use Rattle.pooma_domain.specs.Axes.{interval_of};
ghost use Rattle.pooma_domain.specs.Cells.{axis_length, coordinates, IsIn};
ghost use Rattle.pooma_model.specs.Texts.{row_text, view_text};
ghost use Rattle.pooma_print.specs.Texts.{GrowsByFront};

use crate::join::push_number;
use pooma_domain::{Axis, BoxN, Cell};
use pooma_expr::Reads;
use pooma_text::decimal;
use std::alloc::{AllocError, Global};

/// Appends the numbers of read 0 over the positions: a line for each row along the first axis, the rows in the order of the
/// cells of the other axes, and one line where there are no axes.
///
/// After want of memory `out` has grown by a front of the text.
pub fn view_text<R: Reads>(
    alloc: Global,
    out: &mut Vec<u8>,
    positions: &BoxN,
    reads: &R,
) -> Result<(), AllocError>
    requires { (p : List ℤ) → IsIn positions.now p → R.can_ask reads.now 0 p }
    ensures ok { OnOk result (out.new.items ≡ out.old.items ++ view_text (R.number reads.now 0) positions.now) }
    ensures err { OnErr result (GrowsByFront out.old.items out.new.items (view_text (R.number reads.now 0) positions.now)) }
{
    if positions.dims() == 0 {
        return scalar_text(alloc, out, reads.value(0, &Cell::none()));
    }
    let axis = positions.axis(0);
    let rows = positions.rest();
    for k in 0..rows.count() {
        let row = row(alloc, axis, &rows.cell_at(k), reads)?;
        out.extend_from_slice(&row)?;
    }
    Ok(())
}

// The text of a row: the numbers along the axis, where the position has these numbers on the others.
fn row<R: Reads>(alloc: Global, axis: Axis, rest: &Cell, reads: &R) -> Result<Vec<u8>, AllocError>
    requires few { length rest.now < 3 }
    requires asked { (x : ℤ) → axis.first ≤ℤ x → x ≤ℤ axis.last → R.can_ask reads.now 0 (x ∷ rest.now) }
    ensures { IfOk result (λ text. text.items ≡ row_text (map (λ x. R.number reads.now 0 (x ∷ rest.now)) (coordinates (interval_of axis)))) }
{
    let mut text = Vec::new(alloc);
    for k in 0..length_of(axis) {
        let number = reads.value(0, &rest.after(number_at(axis, k)));
        push_number(alloc, &mut text, k as usize, b' ', number)?;
    }
    text.push(b'\n')?;
    Ok(text)
}

// How many numbers the axis has.
fn length_of(axis: Axis) -> u32
    ensures { result ≡ axis_length (interval_of axis) }
{
    (axis.last - axis.first + 1) as u32
}

// The number that stands so many places after the axis's first one.
fn number_at(axis: Axis, k: u32) -> i32
    requires { k < axis_length (interval_of axis) }
    ensures number { result ≡ axis.first +ℤ pos k }
    ensures within { (axis.first ≤ℤ result) × (result ≤ℤ axis.last) }
{
    axis.first + k as i32
}

/// Appends a number and a line end. Want of memory leaves `out` as it was.
pub fn scalar_text(alloc: Global, out: &mut Vec<u8>, value: i64) -> Result<(), AllocError>
    ensures ok { OnOk result (out.new.items ≡ out.old.items ++ row_text (value ∷ [])) }
    ensures err { OnErr result (out.new.items ≡ out.old.items) }
{
    let mut text = Vec::new(alloc);
    decimal(alloc, &mut text, value)?;
    text.push(b'\n')?;
    out.extend_from_slice(&text)
}
