//! What pieces answer.

use pooma_domain::Cell;
use pooma_expr::Partial;
use pooma_num::FaultKind;

/// What a piece answers once it is done.
#[derive(Clone, Copy, Debug)]
pub enum Outcome {
    /// The cells are set.
    Done,
    /// What a reduction keeps of the numbers at the piece's positions; those of all pieces are taken together after them.
    Value(Partial),
    /// The value at a position of the statement, the first of the piece's in order, is this fault. What the positions before
    /// it set is set, and nothing else.
    Fault { position: Cell, kind: FaultKind },
}
