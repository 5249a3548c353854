//! The forms of a line, as they are written: names are parts of the line, and nothing was looked up.
use pooma_text::Span;
use sqlite_items::{Boxed, Items};

/// A list of what a line names in order, which contracts see as the list of its entries.
pub type RawList<T> = Items<T>;

/// What a line says. Each name is the part of the line that it is.
#[derive(Debug, Drop)]
pub enum RawLine {
    /// A layout's name, the first and last number of each axis, how it is cut, and the internal and external guard layers of
    /// each axis. A list of guard layers is empty where the line leaves it out.
    Layout {
        name: Span,
        domain: RawList<(i32, i32)>,
        cutting: RawCutting,
        internal: RawList<i32>,
        external: RawList<i32>,
    },
    /// An array over a layout of its own, with the first and last number of each axis.
    Brick {
        name: Span,
        domain: RawList<(i32, i32)>,
    },
    /// An array over a layout.
    Array {
        name: Span,
        layout: Span,
    },
    /// An array over a layout whose external guards follow from its cells, with an updater for each face:
    /// the low and the high one of each axis in turn.
    Field {
        name: Span,
        layout: Span,
        faces: RawList<Updater4>,
    },
    /// A stencil, with its extents below and above on each axis.
    Stencil {
        name: Span,
        lower: RawList<i32>,
        upper: RawList<i32>,
        body: RawExpr,
    },
    /// A whole-array statement.
    Assign {
        target: RawView,
        op: RawAssign,
        value: RawExpr,
    },
    /// A number of its own from an expression without axes.
    Scalar {
        name: Span,
        value: RawExpr,
    },
    /// A number of its own from all values of an expression. The word is that of the reduction.
    Reduce {
        name: Span,
        word: Span,
        value: RawExpr,
    },
    /// The print of a view with brackets.
    PrintView {
        view: RawView,
    },
    /// The print of a bare name, which may be an array's or a scalar's.
    PrintName {
        name: Span,
    },
    /// All pending work is done here.
    Block,
    /// The lines up to its `end` are done so often.
    Repeat {
        turns: i32,
    },
    /// The end of a repeat.
    End,
}

/// How the numbers of an external guard cell follow from the cells inside, at one face.
#[derive(Clone, Copy, Debug, PartialEq, Eq)]
pub enum Updater4 {
    /// It is this number.
    Constant(i64),
    /// It is that of the cell to which it comes by going round the physical domain.
    Periodic,
    /// It is that of its mirror image at the face.
    Reflect,
    /// It is minus that of its mirror image at the face, as near as an i64 comes.
    Antireflect,
    /// It lies on the line through the cell at the face and the next one inside, as near as an i64 comes.
    Extrapolate,
}

/// How a layout is cut into patches.
#[derive(Debug, Drop)]
pub enum RawCutting {
    /// How many patches there are on each axis.
    Blocks(RawList<i32>),
    /// For each axis the first numbers of all patches but the first.
    Cuts(RawList<RawList<i32>>),
}

/// How an assignment joins the old value and the new.
#[derive(Clone, Copy, Debug, PartialEq, Eq)]
pub enum RawAssign {
    /// `=`
    Plain,
    /// `+=`
    Add,
    /// `-=`
    Sub,
    /// `*=`
    Mul,
}

/// A name, and what stands in brackets behind it, where brackets do.
#[derive(Debug, Drop)]
pub struct RawView {
    /// The name, of an array or a scalar.
    pub name: Span,
    /// What is taken of each axis, or None for a bare name.
    pub subs: Option<RawList<RawSub>>,
}

/// What a view takes of one axis.
#[derive(Clone, Copy, Debug, PartialEq, Eq)]
pub enum RawSub {
    /// One cell; the axis is dropped.
    At(i32),
    /// From a first cell to a last, with a stride, which is 1 where the line leaves it out. It may be 0 or negative here.
    Range(i32, i32, i32),
}

/// What stands between two operands, and `min` and `max` of two.
#[derive(Clone, Copy, Debug, PartialEq, Eq)]
pub enum RawOp {
    /// `+`
    Add,
    /// `-`
    Sub,
    /// `*`
    Mul,
    /// `/`
    Div,
    /// `%`
    Rem,
    /// `min( , )`
    Min,
    /// `max( , )`
    Max,
    /// `<`
    Less,
    /// `<=`
    LessEq,
    /// `>`
    Greater,
    /// `>=`
    GreaterEq,
    /// `==`
    Equal,
    /// `!=`
    Unequal,
    /// `&`
    BitAnd,
    /// `|`
    BitOr,
}

/// An expression's tree. A parenthesis is no part of it.
#[derive(Debug, Drop)]
pub enum RawExpr {
    /// A literal, 0 or more: a minus before it is a tree of its own.
    Number(i64),
    /// The position's number on an axis.
    Index(i32),
    /// A view, or a bare name, which may be a scalar's.
    View(RawView),
    /// A stencil on a view.
    Apply { stencil: Span, view: RawView },
    /// The stencil's view at an offset. It stands in a stencil's body alone.
    At(RawList<i32>),
    /// `-` before an operand.
    Neg(Boxed<RawExpr>),
    /// `abs( )`
    Abs(Boxed<RawExpr>),
    /// An operator between two operands, the left one first.
    Bin(RawOp, Boxed<RawExpr>, Boxed<RawExpr>),
    /// A condition, the value where it isn't 0, and the value where it is.
    Where(Boxed<RawExpr>, Boxed<RawExpr>, Boxed<RawExpr>),
}
