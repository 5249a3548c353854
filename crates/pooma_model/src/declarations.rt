//! What a program declares.

ghost use Rattle.std.specs.Prelude.{◌≡◌, ◌+◌, ◌-◌, ◌^◌, ◌<◌, ◌≤◌, length, slice_get, Some, IfOk, OnOk, OnErr};
ghost use Rattle.pooma_domain.specs.Cells.{cells_of};
ghost use Rattle.pooma_field.specs.ShapeOf.{shape_of};
ghost use Rattle.pooma_layout.specs.Patches.{physical_of, total_of};
ghost use Rattle.pooma_model.specs.Declarations.{IsDeclaring, no_declarations, with_array, with_one_scalar};

use pooma_field::Shape;
use pooma_layout::Layout;
use std::alloc::{AllocError, Global};
use std::marker::Model;

#[derive(Debug, Drop)]
struct Array {
    shape: Shape,
    layout: Layout,
}

/// The arrays and the scalars of a program, which are named by numbers counted from 0.
#[derive(Debug, Drop)]
pub struct Declarations {
    arrays: Vec<Array>,
    scalars: u32,
}

impl Model for Declarations {
    ghost use Rattle.std.specs.Prelude.{map};
    ghost use Rattle.pooma_field.specs.ShapeOf.{shape_of};
    ghost use Rattle.pooma_model.specs.Declarations.{Declared, IsDeclaring};

    ghost Value = { Declared };

    ghost view = { λ d. record { shapes = map (λ a. shape_of a.shape) d.arrays.items; layouts = map (λ a. a.layout) d.arrays.items; scalars = d.scalars } };

    ghost invariant = { λ d. IsDeclaring (record { shapes = map (λ a. shape_of a.shape) d.arrays.items; layouts = map (λ a. a.layout) d.arrays.items; scalars = d.scalars }) };
}

impl Declarations {
    /// No array and no scalar. It takes no memory.
    pub fn new(alloc: Global) -> Declarations
        ensures { result ≡ no_declarations }
    {
        Declarations {
            arrays: Vec::new(alloc),
            scalars: 0,
        }
    }

    /// One array more, and its number. Only want of memory refuses it; then all is as before.
    pub fn declare(
        &mut self,
        _alloc: Global,
        shape: Shape,
        layout: Layout,
    ) -> Result<u32, AllocError>
        requires few_arrays { length self.old.shapes < 256 }
        requires physical { physical_of layout ≡ shape.physical }
        requires total { total_of layout ≡ shape.total }
        requires few_cells { length (cells_of shape.total) ≤ 4194304 }
        ensures number { IfOk result (λ array. array ≡ length self.old.shapes) }
        ensures declared { OnOk result (self.new ≡ with_array (shape_of shape) layout self.old) }
        ensures err { OnErr result (self.new ≡ self.old) }
    {
        let array = self.arrays.len() as u32;
        self.arrays.push(Array { shape, layout })?;
        Ok(array)
    }

    /// One scalar more, and its number.
    pub fn scalar(&mut self) -> u32
        requires { self.old.scalars < 2 ^ 32 - 1 }
        ensures number { result ≡ self.old.scalars }
        ensures declared { self.new ≡ with_one_scalar self.old }
    {
        let scalar = self.scalars;
        self.scalars += 1;
        scalar
    }

    /// How many arrays there are.
    pub fn arrays(&self) -> u32
        ensures count { result ≡ length self.now.shapes }
        ensures valid { IsDeclaring self.now }
    {
        self.arrays.len() as u32
    }

    /// The shape of an array.
    pub fn shape(&self, array: u32) -> &Shape
        requires { array < length self.now.shapes }
        ensures { slice_get self.now.shapes array ≡ Some (shape_of result.now) }
    {
        &self.arrays[array as usize].shape
    }

    /// The layout of an array.
    pub fn layout(&self, array: u32) -> &Layout
        requires { array < length self.now.shapes }
        ensures { slice_get self.now.layouts array ≡ Some result.now }
    {
        &self.arrays[array as usize].layout
    }

    /// How many scalars there are.
    pub fn scalars(&self) -> u32
        ensures { result ≡ self.now.scalars }
    {
        self.scalars
    }
}
