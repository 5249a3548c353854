//! The arrays of a store, and how their patches are numbered.
ghost use Rattle.std.specs.Prelude.{◌≡◌, ◌+◌, ◌<◌, ◌≤◌, [], ◌∷◌, ◌++◌, length, OnErr, OnOk};
ghost use Rattle.pooma_field.specs.ShapeOf.{shape_of};
ghost use Rattle.pooma_layout.specs.Patches.{IsLayout};
ghost use Rattle.pooma_store.specs.Numbering.{layout_at, object_count, object_of, patch_count};
ghost use Rattle.pooma_store.specs.Standing.{shape_at};
ghost use Rattle.pooma_store.specs.Stored.{AreArrays, Fits};

use pooma_field::Shape;
use pooma_layout::Layout;
use std::alloc::{AllocError, Global};
use std::marker::Model;

/// An array, and how many objects the arrays before it have: the number of its first one.
#[derive(Debug, Drop)]
struct Array {
    shape: Shape,
    layout: Layout,
    first: u32,
}

/// The shapes and layouts of a store's arrays, in the order in which they were declared, with the numbers of their objects.
#[derive(Debug, Drop)]
pub(crate) struct Arrays {
    list: Vec<Array>,
    objects: u32,
}

impl Model for Arrays {
    ghost use Rattle.std.specs.Prelude.{◌≡◌};
    ghost use Rattle.pooma_store.specs.Arrayed.{Arrayed, shapes_of, layouts_of, firsts_of, AreFirsts};
    ghost use Rattle.pooma_store.specs.Numbering.{object_count};
    ghost use Rattle.pooma_store.specs.Stored.{AreArrays};

    ghost Value = { Arrayed };

    ghost view = { λ a. record { shapes = shapes_of a.list.items; layouts = layouts_of a.list.items } };

    ghost invariant = { λ a. AreArrays (shapes_of a.list.items) (layouts_of a.list.items)
        × AreFirsts (layouts_of a.list.items) (firsts_of a.list.items)
        × (a.objects ≡ object_count (layouts_of a.list.items)) };
}

impl Arrays {
    /// No arrays.
    pub(crate) fn new(alloc: Global) -> Arrays
        ensures shapes { result.shapes ≡ [] }
        ensures layouts { result.layouts ≡ [] }
    {
        Arrays {
            list: Vec::new(alloc),
            objects: 0,
        }
    }

    /// How many arrays there are.
    pub(crate) fn len(&self) -> usize
        ensures value { result ≡ length self.now.layouts }
        ensures valid { AreArrays self.now.shapes self.now.layouts }
    {
        let _objects = self.objects;
        self.list.len()
    }

    /// How many objects they have.
    pub(crate) fn objects(&self) -> u32
        ensures value { result ≡ object_count self.now.layouts }
        ensures few { result ≤ 131072 }
    {
        self.objects
    }

    /// The number of the object of an array's patch.
    pub(crate) fn object(&self, array: u32, patch: usize) -> u32
        requires array { array < length self.now.layouts }
        requires patch { patch < patch_count (layout_at self.now.layouts array) }
        ensures value { result ≡ object_of self.now.layouts array patch }
        ensures there { result < object_count self.now.layouts }
    {
        self.first(array) + patch as u32
    }

    // The number of an array's first object: so many have the arrays before it.
    fn first(&self, array: u32) -> u32
        requires { array < length self.now.layouts }
        ensures value { result ≡ object_of self.now.layouts array 0 }
        ensures room { result + patch_count (layout_at self.now.layouts array) ≤ object_count self.now.layouts }
        ensures few { object_count self.now.layouts ≤ 131072 }
    {
        self.list[array as usize].first
    }

    /// The shape of an array.
    pub(crate) fn shape(&self, array: u32) -> &Shape
        requires { array < length self.now.layouts }
        ensures { shape_of result.now ≡ shape_at self.now.shapes array }
    {
        &self.list[array as usize].shape
    }

    /// The layout of an array.
    pub(crate) fn layout(&self, array: u32) -> &Layout
        requires { array < length self.now.layouts }
        ensures value { result.now ≡ layout_at self.now.layouts array }
        ensures valid { IsLayout result.now }
    {
        &self.list[array as usize].layout
    }

    /// One array more, the last. Only want of memory refuses it; then the arrays are as before.
    pub(crate) fn push(
        &mut self,
        _alloc: Global,
        shape: Shape,
        layout: Layout,
    ) -> Result<(), AllocError>
        requires few { length self.old.layouts < 512 }
        requires fits { Fits (shape_of shape) layout }
        ensures shapes { OnOk result (self.new.shapes ≡ self.old.shapes ++ shape_of shape ∷ []) }
        ensures layouts { OnOk result (self.new.layouts ≡ self.old.layouts ++ layout ∷ []) }
        ensures refused { OnErr result (self.new ≡ self.old) }
    {
        let patches = layout.patches() as u32;
        let first = self.objects;
        self.list.push(Array {
            shape,
            layout,
            first,
        })?;
        self.objects = first + patches;
        Ok(())
    }
}
