//! What reads or writes an array, and the axes of its positions.
ghost use Rattle.std.specs.Prelude.{◌≡◌, ◌↔◌, length, map, pos, take, All, IfSome, IsTrue};
ghost use Rattle.std.specs.Option.{option_copied};
ghost use Rattle.pooma_field.specs.ShapeOf.{shape_of};
ghost use Rattle.pooma_parse.specs.declared.form.RawSub.TheVariants.{Range};
ghost use Rattle.pooma_script.specs.Views.{positions_read};

use crate::view::ranges_in;
use pooma_domain::BoxN;
use pooma_field::Shape;
use pooma_parse::RawSub;
use pooma_stencil::Stencil;
use std::marker::Model;

/// A view of an array, with a stencil on it or without.
#[derive(Debug, Drop)]
pub struct Reading<'a> {
    stencil: Option<&'a Stencil>,
    array: u32,
    /// What stands in brackets.
    written: Option<&'a [RawSub]>,
    /// What a bare name takes: the first so many.
    whole: [RawSub; 3],
    dims: usize,
}

impl<'a> Model for Reading<'a> {
    ghost use Rattle.std.specs.Prelude.{◌≤◌, take};
    ghost use Rattle.std.specs.Option.{option_copied, unwrap_or};
    ghost use Rattle.pooma_script.specs.Views.{Reading as Read, reading_by};
    ghost use Rattle.pooma_stencil.specs.contracts.body.Body.{the_row};
    ghost use Rattle.std.specs.Coded.{codes};

    ghost Value = { Read };

    ghost coded = { Prim.hlevel (codes, the_row.coded) };

    ghost view = { λ r. reading_by r.array (option_copied r.stencil) (unwrap_or (option_copied r.written) (take r.dims r.whole)) };

    ghost invariant = { λ r. r.dims ≤ 3 };
}

impl<'a> Reading<'a> {
    ghost use Rattle.pooma_script.specs.Views.{positions_in, reading_by, slot_of, subs_of};

    /// What reads the array of this number and shape, by these SUBs or, where there are none, by its bare name.
    pub fn new(
        array: u32,
        shape: &Shape,
        stencil: Option<&'a Stencil>,
        written: Option<&'a [RawSub]>,
    ) -> Reading<'a>
        ensures { result ≡ reading_by array (option_copied stencil.entry) (subs_of (shape_of shape.now) (option_copied written.entry)) }
    {
        Reading {
            stencil,
            array,
            written,
            whole: whole_of(&shape.physical),
            dims: shape.physical.dims(),
        }
    }

    /// The stencil on the view.
    pub fn stencil(&self) -> Option<&'a Stencil>
        ensures { option_copied result ≡ self.now.stencil }
    {
        self.stencil
    }

    /// The number of the array.
    pub fn array(&self) -> u32
        ensures { result ≡ self.now.view.array }
    {
        self.array
    }

    /// What the view takes of each axis.
    pub fn subs(&self) -> &[RawSub]
        ensures slots { map slot_of result.now ≡ self.now.view.slots }
        ensures positions { positions_in result.now ≡ self.now.positions }
    {
        match self.written {
            Some(subs) => subs,
            None => &self.whole[..self.dims],
        }
    }
}

/// What a bare name takes of each axis: all numbers of the physical domain. Behind its axes stands what is not meant.
fn whole_of(physical: &BoxN) -> [RawSub; 3]
    ensures { take (length physical.now) result ≡ map (λ axis. Range axis.first axis.last (pos 1)) physical.now }
{
    let mut subs = [RawSub::At(0); 3];
    for n in 0..physical.dims() {
        let axis = physical.axis(n);
        subs[n] = RawSub::Range(axis.first, axis.last, 1);
    }
    subs
}

/// Whether a view has positions of as many axes as the stencil on it.
pub fn fits_stencil(reading: &Reading<'_>) -> bool
    ensures { IsTrue result ↔ IfSome reading.now.stencil (λ stencil. length reading.now.positions ≡ length stencil.lower) }
{
    match reading.stencil() {
        None => true,
        Some(stencil) => ranges_in(reading.subs()) == stencil.dims(),
    }
}

/// Whether the positions of each view have so many axes.
pub fn all_go_along(readings: &[Reading<'_>], axes: usize) -> bool
    ensures { IsTrue result ↔ All (λ reading. length reading.positions ≡ axes) readings.now }
{
    readings
        .iter()
        .all(|reading| ranges_in(reading.subs()) == axes)
}

/// How many axes the positions of what is read have.
pub fn axes_read(reading: &Reading<'_>) -> usize
    ensures { result ≡ length (positions_read reading.now) }
{
    let axes = ranges_in(reading.subs());
    match reading.stencil() {
        None => axes,
        Some(stencil) => axes.min(stencil.lower().dims().min(stencil.upper().dims())),
    }
}
