//! What keeps arithmetic from an answer.

/// Why a number can't be answered.
#[derive(Clone, Copy, Debug, PartialEq, Eq)]
pub enum FaultKind {
    /// The exact number doesn't fit 64 bits.
    Overflow,
    /// The divisor is 0.
    ZeroDivisor,
}
