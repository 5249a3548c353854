//! Tests of what a code and an evaluation ask of an expression.
ghost use Rattle.std.specs.Prelude.{◌≡◌, ◌+◌, ◌^◌, ◌<◌, ◌≤◌, ◌↔◌, length, IsTrue, MatchOption};
ghost use Rattle.pooma_expr.specs.Trees.{depth_of, views_of, scalars_needed, axes_needed};

use crate::tree::Expr;

impl Expr {
    /// Whether the expression is no deeper than this, where a leaf is 1.
    pub fn is_within_depth(&self, most: u32) -> bool
        ensures { IsTrue result ↔ (depth_of self.now ≤ most) }
    {
        if most == 0 {
            return false;
        }
        let most = most - 1;
        match self {
            Expr::Literal(_) | Expr::Scalar(_) | Expr::Index(_) | Expr::Read(_) => true,
            Expr::Neg(a) | Expr::Abs(a) => a.get().is_within_depth(most),
            Expr::Bin(_, a, b) => a.get().is_within_depth(most) && b.get().is_within_depth(most),
            Expr::Where(c, a, b) => {
                c.get().is_within_depth(most)
                    && a.get().is_within_depth(most)
                    && b.get().is_within_depth(most)
            }
        }
    }

    /// How many views more than those of the expression may be read, where no more than `most` may be read at all. None where
    /// the expression reads more.
    pub fn reads_left(&self, most: usize) -> Option<usize>
        ensures { MatchOption result (most < length (views_of self.now)) (λ left. left + length (views_of self.now) ≡ most) }
    {
        match self {
            Expr::Literal(_) | Expr::Scalar(_) | Expr::Index(_) => Some(most),
            Expr::Read(_) => most.checked_sub(1),
            Expr::Neg(a) | Expr::Abs(a) => a.get().reads_left(most),
            Expr::Bin(_, a, b) => b.get().reads_left(a.get().reads_left(most)?),
            Expr::Where(c, a, b) => {
                let left = a.get().reads_left(c.get().reads_left(most)?)?;
                b.get().reads_left(left)
            }
        }
    }

    /// How many scalars there have to be, so that each that the expression has is one of them.
    pub fn scalars_needed(&self) -> usize
        ensures needed { result ≡ scalars_needed self.now }
        ensures most { result ≤ 2 ^ 32 }
    {
        match self {
            Expr::Literal(_) | Expr::Index(_) | Expr::Read(_) => 0,
            Expr::Scalar(number) => *number as usize + 1,
            Expr::Neg(a) | Expr::Abs(a) => a.get().scalars_needed(),
            Expr::Bin(_, a, b) => a.get().scalars_needed().max(b.get().scalars_needed()),
            Expr::Where(c, a, b) => {
                let branches = a.get().scalars_needed().max(b.get().scalars_needed());
                c.get().scalars_needed().max(branches)
            }
        }
    }

    /// How many axes a position has to have, so that each on which the expression asks for its number is one of them.
    pub fn axes_needed(&self) -> usize
        ensures needed { result ≡ axes_needed self.now }
        ensures most { result ≤ 2 ^ 8 }
    {
        match self {
            Expr::Literal(_) | Expr::Scalar(_) | Expr::Read(_) => 0,
            Expr::Index(axis) => *axis as usize + 1,
            Expr::Neg(a) | Expr::Abs(a) => a.get().axes_needed(),
            Expr::Bin(_, a, b) => a.get().axes_needed().max(b.get().axes_needed()),
            Expr::Where(c, a, b) => {
                let branches = a.get().axes_needed().max(b.get().axes_needed());
                c.get().axes_needed().max(branches)
            }
        }
    }
}
