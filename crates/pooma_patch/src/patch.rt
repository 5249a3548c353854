//! One block of numbers.
ghost use Rattle.std.specs.Prelude.{◌≡◌, ◌≢◌, ◌↔◌, ℕ, ◌^◌, ◌<◌, ℤ, pos, ◌*ℤ◌, FitsSigned, false, true, List, length, replicate, slice_index_or, IsTrue, IsSome, IfSome, OnOk, OnErr, IfOk};
ghost use Rattle.std.specs.Int.{w64};
ghost use Rattle.pooma_compress.specs.Kept.{AreEqual};
ghost use Rattle.pooma_compress.specs.Rows.{IsRowWithin};
ghost use Rattle.pooma_domain.specs.Cells.{cells_of, IsIn};
ghost use Rattle.pooma_field.specs.Numbered.{number_at, with_number, IsFull};
ghost use Rattle.pooma_patch.specs.Rows.{row_cell, ArePlaced, IsRowIn};

use pooma_compress::Cells;
use pooma_domain::{BoxN, Cell, coordinates_of_cells, neighbours_in_order, order_of_cells};
use pooma_field::numbers_of_cells;
use std::alloc::{AllocError, Global};
use std::marker::Model;

/// A block of an array's numbers: a box, and a number for each of its cells, in the order of cells, in which the first axis is
/// fastest.
///
/// The numbers are kept as one while they are all equal. A patch is written to only once it is made `writable`.
#[derive(Debug, Drop)]
pub struct Patch {
    area: BoxN,
    cells: Cells,
}

impl Model for Patch {
    ghost use Rattle.std.specs.Prelude.{◌≡◌, length};
    ghost use Rattle.pooma_domain.specs.Cells.{cells_of};
    ghost use Rattle.pooma_patch.specs.Patched.{Patched};

    ghost Value = { Patched };

    ghost view = { λ p. record { content = record { area = p.area; numbers = p.cells.numbers }; one = p.cells.one } };

    ghost invariant = { λ p. length p.cells.numbers ≡ length (cells_of p.area) };
}

impl Patch {
    /// The patch of this box with the number 0 at each cell, kept as one. It takes no memory.
    pub fn zeros(area: BoxN) -> Patch
        ensures content { result.content ≡ record { area = area; numbers = replicate (length (cells_of area)) (pos 0) } }
        ensures one { result.one ≡ true }
    {
        Patch {
            area,
            cells: Cells::one(0, area.count() as usize),
        }
    }

    /// The box whose cells have numbers.
    pub fn area(&self) -> BoxN
        ensures value { result ≡ self.now.content.area }
        ensures full { IsFull self.now.content }
    {
        let _cells = &self.cells;
        self.area
    }

    /// The number at this cell.
    pub fn get(&self, c: &Cell) -> i64
        requires { IsIn self.now.content.area c.now }
        ensures { result ≡ number_at self.now.content c.now }
    {
        numbers_of_cells();
        self.cells.get(self.area.place_of(c) as usize)
    }

    /// Whether the numbers are kept as one. This is so of no patch that is writable.
    pub fn is_one(&self) -> bool
        ensures { result ≡ self.now.one }
    {
        self.cells.is_one()
    }

    /// The number at each cell, if the numbers are kept as one.
    pub fn one_value(&self) -> Option<i64>
        ensures found { IsSome result ↔ IsTrue self.now.one }
        ensures numbers { IfSome result (λ v. (c : List ℤ) → IsIn self.now.content.area c → number_at self.now.content c ≡ v) }
    {
        numbers_of_cells();
        // For what it promises: there is a number for each cell.
        let _area = self.area();
        self.cells.one_value()
    }

    /// Copies a row of the numbers out: those at the first cell, at the one that lies a stride from it along an axis, forwards
    /// or backwards, and so on. It takes no memory.
    pub fn read_row(&self, first: &Cell, axis: usize, stride: i32, out: &mut [i64])
        requires axis { axis < length self.now.content.area }
        requires inside { IsRowIn self.now.content.area first.now axis stride (length out.old) }
        ensures { (k : ℕ) → k < length out.new → slice_index_or out.new k (pos 0) ≡ number_at self.now.content (row_cell first.now axis stride k) }
    {
        if out.is_empty() {
            return;
        }
        let (place, step) = self.row_places(first, axis, stride, out.len());
        self.cells.read_row(place, step, out);
    }

    /// Puts numbers at the cells of a row: at the first cell, at the one that lies a stride from it along an axis, forwards or
    /// backwards, and so on. It leaves the others, and takes no memory.
    pub fn write_row(&mut self, first: &Cell, axis: usize, stride: i32, row: &[i64])
        requires axis { axis < length self.old.content.area }
        requires inside { IsRowIn self.old.content.area first.now axis stride (length row.now) }
        requires apart { stride ≢ pos 0 }
        requires writable { self.old.one ≡ false }
        ensures area { self.new.content.area ≡ self.old.content.area }
        ensures row { (k : ℕ) → k < length row.now → number_at self.new.content (row_cell first.now axis stride k) ≡ slice_index_or row.now k (pos 0) }
        ensures kept { (c : List ℤ) → IsIn self.old.content.area c → ((k : ℕ) → k < length row.now → c ≢ row_cell first.now axis stride k)
            → number_at self.new.content c ≡ number_at self.old.content c }
        ensures full { IsFull self.new.content }
        ensures writable { self.new.one ≡ false }
    {
        numbers_of_cells();
        coordinates_of_cells();
        neighbours_in_order();
        // For what it promises: there is a number for each cell.
        let _area = self.area();
        if row.is_empty() {
            return;
        }
        let (place, step) = self.row_places(first, axis, stride, row.len());
        self.cells.write_row(place, step, row);
    }

    // The place of the first of so many cells of a row, and how far on, or back, that of the next one is.
    fn row_places(&self, first: &Cell, axis: usize, stride: i32, count: usize) -> (usize, i64)
        requires axis { axis < length self.now.content.area }
        requires some { 0 < count }
        requires inside { IsRowIn self.now.content.area first.now axis stride count }
        ensures placed { ArePlaced self.now.content.area first.now axis stride count result.0 result.1 }
        ensures within { IsRowWithin result.0 result.1 count (length self.now.content.numbers) }
        ensures apart { stride ≢ pos 0 → result.1 ≢ pos 0 }
    {
        numbers_of_cells();
        coordinates_of_cells();
        neighbours_in_order();
        let area = self.area();
        // For what it promises: it fits.
        let _count = area.count();
        let place = area.place_of(first);
        let step = if count > 1 {
            scaled(stride, area.stride(axis))
        } else {
            i64::from(stride)
        };
        (place as usize, step)
    }

    /// Puts a number at this cell, and leaves the others. It takes no memory.
    pub fn set(&mut self, c: &Cell, v: i64)
        requires inside { IsIn self.old.content.area c.now }
        requires writable { self.old.one ≡ false }
        ensures content { self.new.content ≡ with_number self.old.content c.now v }
        ensures writable { self.new.one ≡ false }
    {
        numbers_of_cells();
        self.cells.set(self.area.place_of(c) as usize, v);
    }

    /// Puts the numbers of another patch at the cells of a box that lies in both, and leaves the others. It takes no memory.
    pub fn copy_box(&mut self, from: &Patch, b: &BoxN)
        requires inside { (c : List ℤ) → IsIn b.now c → IsIn self.old.content.area c }
        requires there { (c : List ℤ) → IsIn b.now c → IsIn from.now.content.area c }
        requires writable { self.old.one ≡ false }
        ensures area { self.new.content.area ≡ self.old.content.area }
        ensures copied { (c : List ℤ) → IsIn b.now c → number_at self.new.content c ≡ number_at from.now.content c }
        ensures kept { (c : List ℤ) → ¬ (IsIn b.now c) → number_at self.new.content c ≡ number_at self.old.content c }
        ensures full { IsFull self.new.content }
        ensures writable { self.new.one ≡ false }
    {
        order_of_cells();
        numbers_of_cells();
        // For what it promises: there is a number for each cell.
        let _area = self.area();
        for k in 0..b.count() {
            let c = b.cell_at(k);
            self.set(&c, from.get(&c));
        }
    }

    /// An equal patch, kept in the same way. The only error is want of memory.
    pub fn copied(&self, alloc: Global) -> Result<Patch, AllocError>
        ensures { IfOk result (λ copy. copy ≡ self.now) }
    {
        Ok(Patch {
            area: self.area,
            cells: self.cells.copied(alloc)?,
        })
    }

    /// Keeps the numbers as one if they are all equal. It looks no further than the first that differs, and takes
    /// no memory.
    pub fn compress(&mut self)
        ensures content { self.new.content ≡ self.old.content }
        ensures one { IsTrue self.new.one ↔ AreEqual self.new.content.numbers }
    {
        self.cells.compress();
    }

    /// Keeps each number by itself, so that it can be set. The only error is want of memory; then the patch is kept as it was.
    pub fn writable(&mut self, alloc: Global) -> Result<(), AllocError>
        ensures content { self.new.content ≡ self.old.content }
        ensures writable { OnOk result (self.new.one ≡ false) }
        ensures refused { OnErr result (self.new ≡ self.old) }
    {
        self.cells.expand(alloc)
    }
}

// So many times the stride of an axis.
fn scaled(stride: i32, by: u64) -> i64
    requires fits { FitsSigned w64 (stride *ℤ pos by) }
    requires small { by < 2 ^ 63 }
    ensures { result ≡ stride *ℤ pos by }
{
    i64::from(stride) * by as i64
}
