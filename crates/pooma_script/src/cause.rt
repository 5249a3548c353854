//! Why a script is refused.

use std::alloc::AllocError;
use thiserror::Error;

/// What a script may have so much of and no more. Where several are passed at a line, the first in this order is named. `most`
/// in `specs/Limits.antt` has the numbers, which stand here in words.
#[derive(Clone, Copy, Debug, PartialEq, Eq)]
pub enum LimitName {
    /// Bytes of the script: 1,048,576.
    ScriptBytes,
    /// Lines, blank ones too: 10,000.
    Lines,
    /// Letters and digits of a name that is declared: 32.
    Name,
    /// Arrays that are declared: 256 bricks, arrays and fields together.
    Arrays,
    /// The distance of a domain's bound from 0: 1,000,000.
    Coordinate,
    /// Patches of a layout: 256.
    Patches,
    /// Guard layers on an axis: 8, and of external ones no more than the axis has numbers.
    Guards,
    /// Each extent of a stencil: 8.
    Extents,
    /// All cells of one array, external ones too: 4,194,304.
    ArrayCells,
    /// The cells that all patches of all arrays allocate: 16,777,216.
    AllocatedCells,
    /// Views that a statement reads, those of its stencils' offsets too: 64.
    Views,
    /// The depth of an expression's tree, in which a leaf has 1: 256.
    Depth,
    /// Repeats inside one another: 4.
    Repeats,
    /// Parts into which a statement is cut where its views come to another patch: 65,536.
    Parts,
    /// Statements that are executed up to and with the line, those in repeats as often as they will be: 1,048,576.
    Statements,
    /// Values that are printed up to and with the line, counted in the same way: 4,194,304.
    PrintedValues,
}

/// Why a line is refused. Where several causes stand at a line, the first in this order is named.
#[derive(Clone, Copy, Debug, PartialEq, Eq)]
pub enum Cause {
    /// The line is not blank and is no line of the grammar, or it may not stand where it does.
    Syntax,
    /// A name is not known, names something of another kind than is needed, or is taken.
    Name,
    /// Lists, views or expressions have numbers of axes that do not fit.
    Dimension,
    /// A range without a number, blocks without cells, a repeat without turns.
    Empty,
    /// A cut, an offset or a cell that lies outside of what has to hold it: the axis, the extents, the array's cells.
    Outside,
    /// Views of one statement with different lengths.
    Unequal,
    /// An assignment reads a cell at another position than that at which it writes it.
    Overlap,
    /// More than a script may have.
    Limit(LimitName),
    /// A repeat without an end, which is told of the line after the last.
    OpenRepeat,
}

/// The line at which a script is refused, counted from 1, and why. The line is 0 where the script has too many bytes.
#[derive(Clone, Copy, Debug, PartialEq, Eq)]
pub struct Refusal {
    /// The line's number, from 1, or 0.
    pub line: u32,
    /// The first of its causes.
    pub cause: Cause,
}

/// Why a script gives no program.
#[derive(Clone, Copy, Debug, PartialEq, Eq, Error)]
pub enum CheckError {
    /// It is refused.
    #[error("the script is refused")]
    Refused(Refusal),
    /// There was no memory to read it with.
    #[error("out of memory")]
    OutOfMemory,
}

impl From<AllocError> for CheckError {
    ghost use Rattle.std.specs.Prelude.{◌≡◌};
    ghost use Rattle.pooma_script.specs.declared.cause.CheckError.TheVariants.{OutOfMemory};

    ghost from_gives = { λ _ e. e ≡ OutOfMemory };

    fn from(_: AllocError) -> CheckError {
        CheckError::OutOfMemory
    }
}
