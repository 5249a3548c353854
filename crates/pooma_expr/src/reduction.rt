//! Reductions of many numbers to one.

/// What many numbers are made to.
#[derive(Clone, Copy, Debug, PartialEq, Eq)]
pub enum Reduction {
    /// Their sum, which may overflow at the end alone.
    Sum,
    /// The least of them.
    Min,
    /// The greatest of them.
    Max,
    /// 1 where none is 0, else 0.
    All,
    /// 1 where some is not 0, else 0.
    Any,
    /// How many are not 0.
    Count,
    /// The bits that all have, in two's complement.
    BitAnd,
    /// The bits that some have.
    BitOr,
}
