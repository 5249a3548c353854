//! Which fields are stale.
ghost use Rattle.std.specs.Prelude.{◌≡◌, ◌++◌, ◌<◌, ◌≤◌, Some, map, length, slice_get, All, IfOk, OnOk};
ghost use Rattle.pooma_field.specs.ShapeOf.{shape_of};
ghost use Rattle.pooma_model.specs.Fit.{IsFit};
ghost use Rattle.pooma_piece.specs.Words.{HaveWords};
ghost use Rattle.pooma_store.specs.Standing.{shape_at};
ghost use Rattle.pooma_fill.specs.Kept.{layouts_of, marks_of, shapes_of};
ghost use Rattle.pooma_fill.specs.Marks.{declared_of, fills_before, fills_if, first_mark, is_needed, mark_after, marks_after, HasArrays};

use crate::constants::constants_fit;
use crate::fills::add_fills;
use crate::reading::{is_target, reads_external};
use pooma_field::Shape;
use pooma_layout::Layout;
use pooma_model::{Action, Program};
use pooma_piece::Piece;
use pooma_store::Store;
use std::alloc::{AllocError, Global};
use std::marker::Model;

/// What of an array is stale.
#[derive(Clone, Copy, Debug)]
pub struct Mark {
    /// Its external cells: they may have other values in the patches that own them than looking them up gives.
    pub external: bool,
}

#[derive(Drop)]
struct Array {
    shape: Shape,
    layout: Layout,
    mark: Mark,
}

/// For each array of a program what of it is stale, with its shape and its layout, by which it is known what an action reads.
/// At least each field that is not fresh is marked.
#[derive(Drop)]
pub struct Stale {
    arrays: Vec<Array>,
    scalars: u32,
}

impl Model for Stale {
    ghost use Rattle.std.specs.Prelude.{◌≤◌, map, length};
    ghost use Rattle.pooma_fill.specs.Marks.{Staled};
    ghost use Rattle.pooma_fill.specs.Kept.{layouts_of, marks_of, shapes_of};

    ghost Value = { Staled };

    ghost view = { λ s. record { shapes = shapes_of s.arrays.items; layouts = layouts_of s.arrays.items; marks = marks_of s.arrays.items; scalars = s.scalars } };

    ghost invariant = { λ s. length s.arrays.items ≤ 256 };
}

impl Stale {
    /// At the start of the program: each field is stale. The constants of the fields' updaters are numbers of 64 bits.
    pub fn new(alloc: Global, program: &Program) -> Result<Stale, AllocError>
        ensures declared { IfOk result (λ stale. declared_of stale ≡ program.now.declared) }
        ensures marks { IfOk result (λ stale. stale.marks ≡ map first_mark stale.shapes) }
        ensures words { IfOk result (λ stale. All HaveWords stale.shapes) }
    {
        let mut arrays = Vec::new(alloc);
        for array in 0..program.arrays() {
            let made = new_array(alloc, program, array)?;
            arrays.push(made)?;
        }
        Ok(Stale {
            arrays,
            scalars: program.scalars(),
        })
    }

    /// The fills that the action of the executed statement of this number needs: of each field that is stale and that it reads
    /// or prints in an external cell, by the arrays' numbers. They depend on no content of the store, which has the program's
    /// arrays and may have others behind them. Its only error is want of memory.
    pub fn fills_before(
        &self,
        alloc: Global,
        number: u32,
        action: &Action,
        store: &Store,
    ) -> Result<Vec<Piece>, AllocError>
        requires fit { IsFit (declared_of self.now) action.now }
        requires arrays { HasArrays store.now self.now }
        ensures { IfOk result (λ fills. fills.items ≡ fills_before store.now.layouts self.now number action.now) }
    {
        let mut fills = Vec::new(alloc);
        for k in 0..self.arrays.len() {
            add_needed(
                alloc,
                &mut fills,
                number,
                action,
                store,
                &self.arrays[k],
                k as u32,
            )?;
        }
        Ok(fills)
    }

    /// After the action and its fills: what was filled is fresh, and then the action's target is stale.
    pub fn after(&mut self, action: &Action)
        requires { IsFit (declared_of self.old) action.now }
        ensures { self.new ≡ record self.old { marks = marks_after action.now 0 self.old.shapes self.old.marks } }
    {
        mark_all(&mut self.arrays, action);
    }
}

// What is kept of an array of the program at its start.
fn new_array(alloc: Global, program: &Program, array: u32) -> Result<Array, AllocError>
    requires { array < length program.now.declared.shapes }
    ensures shape { IfOk result (λ made. slice_get program.now.declared.shapes array ≡ Some (shape_of made.shape)) }
    ensures layout { IfOk result (λ made. slice_get program.now.declared.layouts array ≡ Some made.layout) }
    ensures mark { IfOk result (λ made. made.mark ≡ first_mark made.shape) }
    ensures words { IfOk result (λ made. HaveWords made.shape) }
{
    let shape = *program.shape(array);
    constants_fit(&shape);
    let layout = program.layout(array).copied(alloc)?;
    let mark = Mark {
        external: shape.faces.is_some(),
    };
    Ok(Array {
        shape,
        layout,
        mark,
    })
}

// Each array's mark after the action and its fills.
fn mark_all(arrays: &mut [Array], action: &Action)
    requires { length arrays.old ≤ 256 }
    ensures shapes { shapes_of arrays.new ≡ shapes_of arrays.old }
    ensures layouts { layouts_of arrays.new ≡ layouts_of arrays.old }
    ensures marks { marks_of arrays.new ≡ marks_after action.now 0 (shapes_of arrays.old) (marks_of arrays.old) }
{
    for k in 0..arrays.len() {
        let mark = mark_after(&arrays[k], k as u32, action);
        arrays[k].mark = mark;
    }
}

// The array's fills more, where the action needs them.
fn add_needed(
    alloc: Global,
    list: &mut Vec<Piece>,
    number: u32,
    action: &Action,
    store: &Store,
    array: &Array,
    k: u32,
) -> Result<(), AllocError>
    requires array { k < length store.now.layouts }
    requires shape { shape_at store.now.shapes k ≡ shape_of array.now.shape }
    ensures { OnOk result (list.new.items ≡ list.old.items ++ fills_if store.now.layouts number action.now k array.now.shape array.now.mark) }
{
    if is_needed(array, k, action) {
        add_fills(alloc, list, number, store, &array.shape, k)?;
    }
    Ok(())
}

// Whether the action needs the array's fills.
fn is_needed(array: &Array, number: u32, action: &Action) -> bool
    ensures { result ≡ is_needed action.now number array.now.shape array.now.mark }
{
    array.mark.external
        && array.shape.faces.is_some()
        && reads_external(&array.shape, number, action)
}

// The array's mark after the action and its fills.
fn mark_after(array: &Array, number: u32, action: &Action) -> Mark
    ensures { result ≡ mark_after action.now number array.now.shape array.now.mark }
{
    let stays = array.mark.external && !is_needed(array, number, action);
    Mark {
        external: array.shape.faces.is_some() && (is_target(action, number) || stays),
    }
}
