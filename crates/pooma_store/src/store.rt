//! The store of all patches.
ghost use Rattle.std.specs.Prelude.{◌≡◌, ◌+◌, ◌<◌, ◌≤◌, [], ◌∷◌, ◌++◌, true, false, All, length, map, IfOk, OnErr, OnOk, vec_capacity};
ghost use Rattle.std.specs.Arc.{arc_value};
ghost use Rattle.pooma_domain.specs.Cells.{IsIn};
ghost use Rattle.pooma_field.specs.Numbered.{number_at, IsFull};
ghost use Rattle.pooma_field.specs.ShapeOf.{shape_of};
ghost use Rattle.pooma_field.specs.Worlds.{World, number_of, HasCell};
ghost use Rattle.pooma_store.specs.Numbering.{layout_at, object_count, object_of, patch_count, areas_of, new_patches, AreObjects};
ghost use Rattle.pooma_store.specs.Standing.{HasTotal, OwnerHas, StandsFor, shape_at};
ghost use Rattle.pooma_store.specs.Stored.{contents_of, ones_of, AreKept, Fits, IsKept, IsStore};

use crate::arrays::Arrays;
use crate::laws::numbers_of_owners;
use pooma_domain::Cell;
use pooma_field::Shape;
use pooma_layout::Layout;
use pooma_patch::Patch;
use std::alloc::{AllocError, Global};
use std::marker::Model;
use std::mem;
use std::sync::Arc;

/// The patches of all arrays, as data objects: numbered by arrays in the order in which they were declared, and in each array
/// by the layout's patches. They can be lent as a whole, and be taken back.
///
/// An array's cell has its number in the patch that owns it; other patches may keep copies.
#[derive(Drop)]
pub struct Store {
    arrays: Arrays,
    patches: Vec<Arc<Patch>>,
    lent: bool,
}

impl Model for Store {
    ghost use Rattle.std.specs.Prelude.{◌≡◌, true, false, []};
    ghost use Rattle.pooma_store.specs.Numbering.{AreObjects};
    ghost use Rattle.pooma_store.specs.Stored.{Stored, contents_of};

    ghost Value = { Stored };

    ghost view = { λ s. record { shapes = s.arrays.shapes; layouts = s.arrays.layouts; objects = contents_of s.patches.items; lent = s.lent } };

    ghost invariant = { λ s. (s.lent ≡ false → AreObjects s.arrays.layouts (contents_of s.patches.items)) × (s.lent ≡ true → contents_of s.patches.items ≡ []) };
}

impl Store {
    /// A store of no arrays. It takes no memory.
    pub fn new(alloc: Global) -> Store
        ensures { result ≡ record { shapes = []; layouts = []; objects = []; lent = false } }
    {
        Store {
            arrays: Arrays::new(alloc),
            patches: Vec::new(alloc),
            lent: false,
        }
    }

    /// One array more, whose cells all have the number 0, and its number: how many were declared before it. Its shape and its
    /// layout have the same domains, of at most 4,194,304 cells, and there are fewer than 512 arrays. Only want of memory
    /// refuses it; then the store is as before.
    pub fn declare(
        &mut self,
        alloc: Global,
        shape: Shape,
        layout: Layout,
    ) -> Result<u32, AllocError>
        requires home { self.old.lent ≡ false }
        requires few { length self.old.layouts < 512 }
        requires fits { Fits (shape_of shape) layout }
        ensures array { IfOk result (λ array. array ≡ length self.old.layouts) }
        ensures shapes { OnOk result (self.new.shapes ≡ self.old.shapes ++ shape_of shape ∷ []) }
        ensures layouts { OnOk result (self.new.layouts ≡ self.old.layouts ++ layout ∷ []) }
        ensures objects { OnOk result (self.new.objects ≡ self.old.objects ++ new_patches layout) }
        ensures home { self.new.lent ≡ false }
        ensures refused { OnErr result (self.new ≡ self.old) }
    {
        let patches = new_patches(alloc, &layout)?;
        self.patches.reserve(patches.len())?;
        let array = self.arrays.len() as u32;
        self.arrays.push(alloc, shape, layout)?;
        append(&mut self.patches, patches);
        Ok(array)
    }

    /// How many arrays were declared.
    pub fn arrays(&self) -> u32
        ensures { result ≡ length self.now.layouts }
    {
        self.arrays.len() as u32
    }

    /// The number of the object of an array's patch, all counted from 0.
    pub fn object(&self, array: u32, patch: usize) -> u32
        requires array { array < length self.now.layouts }
        requires patch { patch < patch_count (layout_at self.now.layouts array) }
        ensures value { result ≡ object_of self.now.layouts array patch }
        ensures there { result < object_count self.now.layouts }
    {
        self.arrays.object(array, patch)
    }

    /// How many objects there are: the patches of all arrays, at most 131,072.
    pub fn objects(&self) -> u32
        ensures value { result ≡ object_count self.now.layouts }
        ensures valid { IsStore self.now }
    {
        let _arrays = self.arrays.len();
        self.arrays.objects()
    }

    /// The layout of an array, by its number from 0.
    pub fn layout(&self, array: u32) -> &Layout
        requires { array < length self.now.layouts }
        ensures { result.now ≡ layout_at self.now.layouts array }
    {
        self.arrays.layout(array)
    }

    /// The shape of an array, by its number from 0.
    pub fn shape(&self, array: u32) -> &Shape
        requires { array < length self.now.layouts }
        ensures { shape_of result.now ≡ shape_at self.now.shapes array }
    {
        self.arrays.shape(array)
    }

    /// Whether the patches are lent.
    pub fn lent(&self) -> bool
        ensures { result ≡ self.now.lent }
    {
        self.lent
    }

    /// Hands out all patches, by object number. No cell is copied. Until they are taken back by `settle`, the store has no
    /// numbers to give.
    pub fn lend(&mut self) -> Vec<Arc<Patch>>
        requires { self.old.lent ≡ false }
        ensures patches { contents_of result.items ≡ self.old.objects }
        ensures valid { AreObjects self.old.layouts (contents_of result.items) }
        ensures shapes { self.new.shapes ≡ self.old.shapes }
        ensures layouts { self.new.layouts ≡ self.old.layouts }
        ensures away { self.new.objects ≡ [] }
        ensures lent { self.new.lent ≡ true }
    {
        self.lent = true;
        let none = Vec::new(*self.patches.allocator());
        mem::replace(&mut self.patches, none)
    }

    /// Takes patches back, by object number: over the same boxes, with whatever numbers they have by now. No cell is copied.
    /// Each patch that has no other owner is kept as one number from here on exactly if all of its numbers are equal; another
    /// one stays as it came.
    pub fn settle(&mut self, mut patches: Vec<Arc<Patch>>)
        requires lent { self.old.lent ≡ true }
        requires areas { map (λ object. object.area) (contents_of patches.items) ≡ areas_of self.old.layouts }
        ensures objects { self.new.objects ≡ contents_of patches.items }
        ensures shapes { self.new.shapes ≡ self.old.shapes }
        ensures layouts { self.new.layouts ≡ self.old.layouts }
        ensures home { self.new.lent ≡ false }
    {
        compress_all(&mut patches);
        self.patches = patches;
        self.lent = false;
    }

    /// The number of an array's cell: the one that it has in the patch that owns it.
    pub fn get(&self, array: u32, c: &Cell) -> i64
        requires home { self.now.lent ≡ false }
        requires cell { HasTotal self.now.layouts array c.now }
        ensures owner { OwnerHas self.now.layouts self.now.objects array c.now result }
        ensures world { (world : World) → StandsFor self.now.layouts self.now.objects world → HasCell world array c.now → result ≡ number_of world array c.now }
    {
        self.owner_patch(array, c).get(c)
    }

    // The patch that owns a cell, and so has the cell.
    fn owner_patch(&self, array: u32, c: &Cell) -> &Patch
        requires home { self.now.lent ≡ false }
        requires cell { HasTotal self.now.layouts array c.now }
        ensures inside { IsIn result.now.content.area c.now }
        ensures owner { OwnerHas self.now.layouts self.now.objects array c.now (number_at result.now.content c.now) }
    {
        numbers_of_owners();
        let layout = self.arrays.layout(array);
        let owner = layout.owner(c);
        let object = self.arrays.object(array, owner);
        &self.patches[object as usize]
    }
}

// The patches of a new array, whose cells all have the number 0.
fn new_patches(alloc: Global, layout: &Layout) -> Result<Vec<Arc<Patch>>, AllocError>
    ensures { IfOk result (λ made. contents_of made.items ≡ new_patches layout.now) }
{
    let mut made = Vec::with_capacity(alloc, layout.patches())?;
    for p in 0..layout.patches() {
        let area = layout.allocated(p);
        made.push(Arc::new(alloc, Patch::zeros(area))?)?;
    }
    Ok(made)
}

// Puts patches behind others, for which there is room.
fn append(patches: &mut Vec<Arc<Patch>>, more: Vec<Arc<Patch>>)
    requires { length patches.old.items + length more.items ≤ vec_capacity patches.old }
    ensures { patches.new.items ≡ patches.old.items ++ more.items }
{
    for patch in more {
        patches.push_reserved(patch);
    }
}

// Keeps as one number each patch that has no other owner and whose numbers are all equal.
fn compress_all(patches: &mut [Arc<Patch>])
    ensures contents { contents_of patches.new ≡ contents_of patches.old }
    ensures full { All IsFull (contents_of patches.new) }
    ensures ones { AreKept patches.old (ones_of patches.new) }
{
    for patch in patches.iter_mut() {
        compress_if_alone(patch);
    }
}

// Keeps a patch as one number, where it has no other owner and its numbers are all equal.
fn compress_if_alone(patch: &mut Arc<Patch>)
    ensures content { (arc_value patch.new).content ≡ (arc_value patch.old).content }
    ensures full { IsFull (arc_value patch.new).content }
    ensures one { IsKept (arc_value patch.old) (arc_value patch.new).one }
{
    // For what it promises: there is a number for each cell.
    let _area = patch.area();
    if let Some(sole) = Arc::get_mut(patch) {
        sole.compress();
    }
}
