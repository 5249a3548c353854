//! The requests of a piece.
ghost use Rattle.std.specs.Prelude.{◌≡◌, ◌==◌, ◌≤◌, nat_lt, length, IfOk, OnOk};
ghost use Rattle.std.specs.List.{list_any, prefix_len};
ghost use Rattle.pooma_piece.specs.Requests.{requests_for, with_read, write_request};

use pooma_machine::{Mode, Request};
use smallvec::SmallVec;
use std::alloc::{AllocError, Global};

// How many requests are for objects of lesser numbers, from the first on.
fn count_below(requests: &[Request], object: u32) -> usize
    ensures count { result ≡ prefix_len (λ r. nat_lt r.object object) requests.now }
    ensures most { result ≤ length requests.now }
{
    match requests {
        [] => 0,
        [first, rest @ ..] => {
            if first.object < object {
                count_below(rest, object) + 1
            } else {
                0
            }
        }
    }
}

// Whether some request is for the object.
fn is_asked(requests: &[Request], object: u32) -> bool
    ensures { result ≡ list_any (λ r. r.object == object) requests.now }
{
    requests.iter().any(|r| r.object == object)
}

// One request more, to read an object, where it is not asked for already.
fn add_read(
    _alloc: Global,
    requests: &mut SmallVec<Request, 8>,
    object: u32,
) -> Result<(), AllocError>
    ensures { OnOk result (requests.new.items ≡ with_read requests.old.items object) }
{
    if is_asked(requests.as_slice(), object) {
        return Ok(());
    }
    let place = count_below(requests.as_slice(), object);
    let request = Request {
        object,
        mode: Mode::Read,
    };
    requests.insert(place, request)?;
    Ok(())
}

// The requests before any object is read.
fn begun(alloc: Global, write: Option<u32>) -> Result<SmallVec<Request, 8>, AllocError>
    ensures { IfOk result (λ requests. requests.items ≡ write_request write) }
{
    let mut requests = SmallVec::new(alloc);
    if let Some(object) = write {
        requests.push(Request {
            object,
            mode: Mode::Write,
        })?;
    }
    Ok(requests)
}

/// The requests of a piece that writes this object, where there is one, and reads these.
pub(crate) fn requests_for(
    alloc: Global,
    write: Option<u32>,
    reads: &[u32],
) -> Result<SmallVec<Request, 8>, AllocError>
    ensures { IfOk result (λ requests. requests.items ≡ requests_for write reads.now) }
{
    let mut requests = begun(alloc, write)?;
    for object in reads {
        add_read(alloc, &mut requests, *object)?;
    }
    Ok(requests)
}
