ghost use Rattle.std.specs.Prelude.{◌≡◌, IfOk, IfSome, OnOk, IsTrue, option_map};
ghost use Rattle.std.specs.Option.{option_copied_mut};
ghost use Rattle.pooma_machine.specs.Steps.{IsRequestList};
ghost use Rattle.pooma_machine.specs.Values.{FitsLent, new_value_of, outcome_of};
ghost use Rattle.pooma_machine.specs.Behind.{left_behind};
ghost use Rattle.pooma_machine.specs.Slots.{contents_of};

use crate::step::Request;
use std::alloc::{AllocError, Global};
use std::sync::Arc;

/// A piece of work over numbered objects.
///
/// What it means is its `meaning`: which objects it asks for, which new content it gives to the one that it writes and what
/// it answers, both from the contents lent to it alone, and which shapes of objects it fits. How a value is kept is its own
/// affair, but for one test: whether it is ready to be written.
pub trait Work: Drop {
    /// The value of an object.
    type Value: Drop;

    /// What a work answers.
    type Outcome: Drop;

    /// What a value stands for, however it is kept, as a block of cells its numbers. For contracts alone.
    type Content;

    /// What stays of a content under every work, as the area of a block of cells. For contracts alone.
    type Shape;

    ghost use Rattle.std.specs.Prelude.{Bool};
    ghost use Rattle.pooma_machine.specs.Values.{Meaning};

    ghost content: { Self.Value → Self.Content };

    /// Whether a value is kept in a way in which it can be written.
    ghost ready: { Self.Value → Bool };

    ghost meaning: { Meaning Self Self.Content Self.Outcome Self.Shape };

    /// What the work asks for: ascending by object, one request for each object, at most one of them to write.
    fn requests(&self) -> &[Request]
        ensures requests { result.now ≡ meaning.requests self.now }
        ensures form { IsRequestList result.now };

    /// The number of the statement that the work is a part of.
    fn statement(&self) -> u32
        ensures { result ≡ meaning.statement self.now };

    /// Does the work on the values lent to it, which it has to fit. The one that it writes is ready. It takes no memory.
    fn perform(&self, write: Option<&mut Self::Value>, reads: &[Arc<Self::Value>]) -> Self::Outcome
        requires fits { FitsLent meaning self.now (contents_of content (option_copied_mut write) reads.now) }
        requires ready { IfSome (option_copied_mut write) (λ value. IsTrue (ready value)) }
        ensures value { option_map content (left_behind write.exit) ≡ new_value_of meaning self.now (contents_of content (option_copied_mut write.entry) reads.now) }
        ensures outcome { result ≡ outcome_of meaning self.now (contents_of content (option_copied_mut write.entry) reads.now) }
        ensures shape { option_map meaning.shape (option_map content (left_behind write.exit)) ≡ option_map meaning.shape (option_map content (option_copied_mut write.entry)) };

    /// A value of the same content. Only want of memory refuses it.
    fn copied(alloc: Global, value: &Self::Value) -> Result<Self::Value, AllocError>
        ensures { IfOk result (λ copy. content copy ≡ content value.now) };

    /// Makes the value ready to be written, and leaves its content. Only want of memory refuses it.
    fn prepared(alloc: Global, value: &mut Self::Value) -> Result<(), AllocError>
        ensures content { content value.new ≡ content value.old }
        ensures ready { OnOk result (IsTrue (ready value.new)) };
}
