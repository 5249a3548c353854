//! Where the patches of a piece are found among those that are lent to it.
ghost use Rattle.std.specs.Prelude.{◌≡◌, ◌==◌, ◌≤◌, length, map, IfOk};
ghost use Rattle.std.specs.List.{position_or_len};
ghost use Rattle.pooma_machine.specs.Values.{read_objects};
ghost use Rattle.pooma_piece.specs.Sources.{source_of};

use pooma_machine::{Mode, Request};
use smallvec::SmallVec;
use std::alloc::{AllocError, Global};

/// Where the patch of an object is: it is the one that is written, or one of those that are read.
#[derive(Clone, Copy, Debug, Default)]
pub(crate) enum Source {
    /// The patch that is written.
    #[default]
    Written,
    /// The patch at this place of those that are read, from 0.
    Read(usize),
}

// How many objects are read before this one; how many are read, where it is none of them.
fn place_of(requests: &[Request], object: u32) -> usize
    ensures place { result ≡ position_or_len (λ o. o == object) (read_objects requests.now) }
    ensures most { result ≤ length requests.now }
{
    match requests {
        [] => 0,
        [first, rest @ ..] => match first.mode {
            Mode::Write => place_of(rest, object),
            Mode::Read => {
                if first.object == object {
                    0
                } else {
                    place_of(rest, object) + 1
                }
            }
        },
    }
}

/// Where the patch of an object is found, where this object is written and these are the requests.
pub(crate) fn source_of(write: Option<u32>, requests: &[Request], object: u32) -> Source
    ensures { result ≡ source_of write requests.now object }
{
    if write == Some(object) {
        Source::Written
    } else {
        Source::Read(place_of(requests, object))
    }
}

/// The same for each of these objects.
pub(crate) fn sources_of(
    alloc: Global,
    write: Option<u32>,
    requests: &[Request],
    objects: &[u32],
) -> Result<SmallVec<Source, 8>, AllocError>
    ensures { IfOk result (λ sources. sources.items ≡ map (source_of write requests.now) objects.now) }
{
    let mut sources = SmallVec::new(alloc);
    for object in objects {
        sources.push(source_of(write, requests, *object))?;
    }
    Ok(sources)
}
