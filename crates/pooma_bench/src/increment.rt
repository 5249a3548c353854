ghost use Rattle.std.specs.Prelude.{◌≡◌, ◌+◌, ◌*◌, ◌%◌, ◌<◌, ◌≤◌, [], ◌∷◌, Some, All};
ghost use Rattle.pooma_machine.specs.Values.{written_object, read_objects};

use crate::window::{MOST_ENTRIES, OBJECTS};
use pooma_machine::{Mode, Request, Work};
use std::alloc::{AllocError, Global};
use std::marker::Model;
use std::sync::Arc;

/// A work that adds one to the object that it writes, if any, and answers the number of the one that it reads.
///
/// Contracts see it as its requests.
#[derive(Drop)]
pub struct Increment {
    requests: [Request; 2],
    // How many of them it has.
    count: usize,
}

impl Model for Increment {
    ghost use Rattle.std.specs.Prelude.{◌≤◌, List, take};
    ghost use Rattle.pooma_machine.specs.declared.step.Request.{Request};
    ghost use Rattle.pooma_machine.specs.Steps.{IsRequestList};

    ghost Value = { List Request };

    ghost view = { λ w. take w.count w.requests };

    ghost invariant = { λ w. (w.count ≤ 2) × IsRequestList (take w.count w.requests) };
}

impl Increment {
    /// The work of the entry of this number. The two objects are always different.
    pub fn of_entry(entry: u32) -> Increment
        requires { entry ≤ MOST_ENTRIES }
        ensures written { written_object result ≡ Some (entry % OBJECTS) }
        ensures read { read_objects result ≡ (entry * 7 + 3) % OBJECTS ∷ [] }
        ensures objects { All (λ request. request.object < OBJECTS) result }
    {
        let write = Request {
            object: entry % OBJECTS,
            mode: Mode::Write,
        };
        let read = Request {
            object: (entry * 7 + 3) % OBJECTS,
            mode: Mode::Read,
        };
        if write.object < read.object {
            Increment {
                requests: [write, read],
                count: 2,
            }
        } else {
            Increment {
                requests: [read, write],
                count: 2,
            }
        }
    }

    /// A work that asks for the first object alone.
    pub fn of_first_object(mode: Mode) -> Increment
        ensures objects { All (λ request. request.object < OBJECTS) result }
    {
        let request = Request { object: 0, mode };
        Increment {
            requests: [request; 2],
            count: 1,
        }
    }
}

impl Work for Increment {
    type Value = u64;

    type Outcome = Option<u64>;

    type Content = u64;

    type Shape = ();

    ghost use Rattle.std.specs.Prelude.{true};
    ghost use Rattle.pooma_bench.specs.Increments.{increments};

    ghost content = { λ value. value };

    ghost ready = { λ value. true };

    ghost meaning = { increments };

    fn requests(&self) -> &[Request] {
        &self.requests[..self.count]
    }

    fn statement(&self) -> u32 {
        0
    }

    fn perform(&self, write: Option<&mut u64>, reads: &[Arc<u64>]) -> Option<u64> {
        let seen = reads.first().map(|value| **value);
        if let Some(value) = write {
            *value = value.wrapping_add(1);
        }
        seen
    }

    fn copied(_alloc: Global, value: &u64) -> Result<u64, AllocError> {
        Ok(*value)
    }

    fn prepared(_alloc: Global, _value: &mut u64) -> Result<(), AllocError> {
        Ok(())
    }
}
