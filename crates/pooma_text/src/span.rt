//! Parts of a text.

/// A part of a text: the bytes from `start` up to `end`, which is not in it.
#[derive(Clone, Copy, Debug, PartialEq, Eq)]
pub struct Span {
    /// The place of the first byte, counted from 0.
    pub start: usize,
    /// The place behind the last byte.
    pub end: usize,
}
