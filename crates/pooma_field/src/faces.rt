//! The updaters of a field's faces.
ghost use Rattle.std.specs.Prelude.{◌≡◌, ◌⊎◌, ◌<◌, pos, Some, length, map, slice_get, slice_index_or};

use crate::updaters::Updater;
use std::marker::Model;

/// The updaters of the two faces of an axis.
#[derive(Clone, Copy, Debug, PartialEq, Eq)]
pub struct Ends {
    /// Of the face below the axis's first number.
    pub low: Updater,

    /// Of the face above its last number.
    pub high: Updater,
}

/// The updaters of a field's faces: two for each of its one to three axes.
#[derive(Clone, Copy, Debug)]
pub struct Faces {
    dims: usize,
    x: Ends,
    y: Ends,
    z: Ends,
}

impl Model for Faces {
    ghost use Rattle.std.specs.Prelude.{List, [], ◌∷◌, length, take, slice_index_or};
    ghost use Rattle.pooma_field.specs.declared.faces.Ends.{Ends};

    ghost Value = { List Ends };

    ghost use Rattle.pooma_domain.specs.Padding.{length-padded, first-padded, second-padded, third-padded};
    ghost use Rattle.pooma_field.specs.Padding.{no_ends, ArePaddedFaces};

    ghost view = { λ f. take f.dims (f.x ∷ f.y ∷ f.z ∷ []) };

    // The ends past the field's dims are constant 0.
    ghost invariant = { λ f. ArePaddedFaces f.dims f.x f.y f.z };

    ghost inverse = { λ faces. record {
      dims = length faces;
      x = slice_index_or faces 0 no_ends;
      y = slice_index_or faces 1 no_ends;
      z = slice_index_or faces 2 no_ends;
    } };

    ghost use Rattle.std.proofs.Common.{arith};

    ghost inverse_ok = { λ f h. Prim.rw (
      length-padded f.dims f.x f.y f.z h.few,
      first-padded f.dims f.x f.y f.z no_ends h.few (λ k. absurd (Prim.omega (arith, h.some, k))),
      second-padded f.dims f.x f.y f.z no_ends h.few h.no_y,
      third-padded f.dims f.x f.y f.z no_ends h.few h.no_z,
    ) };
}

impl Faces {
    ghost use Rattle.pooma_field.specs.Faces.{by_axis};

    /// The faces of one, two or three axes, of which this list has the updaters: for each axis that of the low face, and
    /// then that of the high one.
    pub fn new(list: &[Updater]) -> Faces
        requires { (length list.now ≡ 2) ⊎ (length list.now ≡ 4) ⊎ (length list.now ≡ 6) }
        ensures { result ≡ by_axis list.now }
    {
        Faces {
            dims: list.len() / 2,
            x: Ends {
                low: updater_at(list, 0),
                high: updater_at(list, 1),
            },
            y: Ends {
                low: updater_at(list, 2),
                high: updater_at(list, 3),
            },
            z: Ends {
                low: updater_at(list, 4),
                high: updater_at(list, 5),
            },
        }
    }

    /// How many axes have faces.
    pub fn dims(&self) -> usize
        ensures { result ≡ length self.now }
    {
        self.dims
    }

    /// The updater of the low face of this axis, counted from 0.
    pub fn low(&self, axis: usize) -> Updater
        requires { axis < length self.now }
        ensures { slice_get (map (λ ends. ends.low) self.now) axis ≡ Some result }
    {
        self.ends(axis).low
    }

    /// The updater of the high face of this axis, counted from 0.
    pub fn high(&self, axis: usize) -> Updater
        requires { axis < length self.now }
        ensures { slice_get (map (λ ends. ends.high) self.now) axis ≡ Some result }
    {
        self.ends(axis).high
    }

    /// The updaters of both faces of this axis, counted from 0.
    pub fn ends(&self, axis: usize) -> Ends
        requires { axis < length self.now }
        ensures { slice_get self.now axis ≡ Some result }
    {
        match axis {
            0 => self.x,
            1 => self.y,
            _ => self.z,
        }
    }
}

// The updater at this place, or what stands for one of an axis that the field does not have.
fn updater_at(list: &[Updater], place: usize) -> Updater
    ensures { result ≡ slice_index_or list.now place (Updater.Constant (pos 0)) }
{
    list.get(place).copied().unwrap_or(Updater::Constant(0))
}
