//! Expressions as trees.

use pooma_view::View;
use sqlite_items::Boxed;

/// What is made of two numbers.
#[derive(Clone, Copy, Debug, PartialEq, Eq)]
pub enum Op {
    /// The sum.
    Add,
    /// The difference.
    Sub,
    /// The product.
    Mul,
    /// The quotient, cut toward zero.
    Div,
    /// What the quotient leaves, with the sign of the first number.
    Rem,
    /// The lesser one.
    Min,
    /// The greater one.
    Max,
    /// 1 where the first is less, else 0. So the other comparisons.
    Less,
    /// Not greater.
    LessEq,
    /// Greater.
    Greater,
    /// Not less.
    GreaterEq,
    /// The same number.
    Equal,
    /// Another number.
    Unequal,
    /// The bits that both have, in two's complement.
    BitAnd,
    /// The bits that one or both have.
    BitOr,
}

/// An expression: a number at each position of a statement, or a fault.
#[derive(Debug, Drop)]
pub enum Expr {
    /// This number.
    Literal(i64),
    /// The present number of the scalar with this number.
    Scalar(u32),
    /// The position's number on this axis, counted from 0.
    Index(u8),
    /// The number that the view has at the position.
    Read(View),
    /// The number with the other sign.
    Neg(Boxed<Expr>),
    /// The number without its sign.
    Abs(Boxed<Expr>),
    /// What the operator makes of two numbers, the first of which is found first.
    Bin(Op, Boxed<Expr>, Boxed<Expr>),
    /// The second where the first is not 0, else the third. The other one is not looked at.
    Where(Boxed<Expr>, Boxed<Expr>, Boxed<Expr>),
}
