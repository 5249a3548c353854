//! The constants of updaters, which are numbers of 64 bits.
ghost use Rattle.pooma_piece.specs.Words.{GiveWords, GivesWord, HaveWords};

use pooma_field::{Ends, Shape, Updater};

/// For what it promises: it goes over the faces of a field.
pub(crate) fn constants_fit(shape: &Shape)
    ensures { HaveWords shape.now }
{
    if let Some(faces) = &shape.faces {
        'axes: for axis in 0..faces.dims() {
            both_fit(faces.ends(axis));
        }
    }
}

fn both_fit(ends: Ends)
    ensures { GiveWords ends }
{
    constant_fits(ends.low);
    constant_fits(ends.high);
}

fn constant_fits(updater: Updater)
    ensures { GivesWord updater }
{
    match updater {
        Updater::Constant(_number) => {}
        Updater::Periodic | Updater::Reflect | Updater::Antireflect | Updater::Extrapolate => {}
    }
}
