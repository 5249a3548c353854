//! The operations of a code.

use crate::tree::Op;

/// One operation on a stack of numbers. A jump says how many of the next operations are passed over.
#[derive(Clone, Copy, Debug, PartialEq, Eq)]
pub(crate) enum Operation {
    /// Puts this number on top.
    Push(i64),
    /// Puts the position's number on this axis on top.
    PushIndex(u8),
    /// Puts the number of this read on top.
    PushRead(usize),
    /// Takes the top number, and puts it back with the other sign.
    Negate,
    /// Takes the top number, and puts it back without its sign.
    Absolute,
    /// Takes the two top numbers, of which the upper one is the second, and puts on top what the operator makes of them.
    Apply(Op),
    /// Takes the top number. Where it is 0, so many operations are passed over.
    SkipIfZero(usize),
    /// Passes over so many operations.
    Skip(usize),
}
