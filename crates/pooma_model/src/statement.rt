//! Statements of a program.

use pooma_domain::BoxN;
use pooma_expr::{Expr, Reduction};
use pooma_view::View;

/// What a statement does.
#[derive(Debug, Drop)]
pub enum Action {
    /// Gives the cells that the target names the value at their positions. Where there is a mask, only at those positions
    /// at which it is not 0. All values are taken before the first cell has its own.
    Assign {
        target: View,
        value: Expr,
        mask: Option<Expr>,
    },
    /// Gives the scalar what the reduction makes of the values at all positions.
    Reduce {
        scalar: u32,
        reduction: Reduction,
        positions: BoxN,
        value: Expr,
    },
    /// Prints the numbers that the view has.
    PrintView {
        view: View,
    },
    /// Prints the number of the scalar.
    PrintScalar {
        scalar: u32,
    },
    /// Ends the window: what stands before is done before anything after it begins.
    Block,
}

/// An action, and the line of the script on which it stands, counted from 1.
#[derive(Debug, Drop)]
pub struct Statement {
    pub line: u32,
    pub action: Action,
}
