//! Bodies of stencils as trees.
ghost use Rattle.std.specs.Prelude.{◌≡◌, ◌≤◌, ◌↔◌, length, min, All, IsTrue};
ghost use Rattle.pooma_domain.specs.Cells.{IsIn};
ghost use Rattle.pooma_domain.specs.Operations.{reaches};
ghost use Rattle.pooma_stencil.specs.Bodies.{body_depth, offsets_of};

use crate::extents::reach;
use pooma_domain::Cell;
use pooma_expr::Op;
use sqlite_items::Boxed;

/// What a stencil makes of the numbers that a view has about a position: a number there, or a fault.
#[derive(Debug, Drop)]
pub enum Body {
    /// This number.
    Literal(i64),
    /// The number that the view has this far from the position: one number of the offset for each axis of positions.
    At(Cell),
    /// The number with the other sign.
    Neg(Boxed<Body>),
    /// The number without its sign.
    Abs(Boxed<Body>),
    /// What the operator makes of two numbers, the first of which is found first.
    Bin(Op, Boxed<Body>, Boxed<Body>),
    /// The second where the first is not 0, else the third. The other one is not looked at.
    Where(Boxed<Body>, Boxed<Body>, Boxed<Body>),
}

impl Body {
    /// Whether the body is no deeper than this, where a leaf is 1.
    pub fn is_within_depth(&self, most: u32) -> bool
        ensures { IsTrue result ↔ (body_depth self.now ≤ most) }
    {
        if most == 0 {
            return false;
        }
        let most = most - 1;
        match self {
            Body::Literal(_) | Body::At(_) => true,
            Body::Neg(a) | Body::Abs(a) => a.get().is_within_depth(most),
            Body::Bin(_, a, b) => a.get().is_within_depth(most) && b.get().is_within_depth(most),
            Body::Where(c, a, b) => {
                c.get().is_within_depth(most)
                    && a.get().is_within_depth(most)
                    && b.get().is_within_depth(most)
            }
        }
    }

    /// Whether each offset has as many numbers as these extents, and goes down by at most the lower and up by at most the
    /// upper one on each axis.
    pub fn is_within(&self, lower: &Cell, upper: &Cell) -> bool
        ensures { IsTrue result ↔ All (IsIn (reaches lower.now upper.now)) (offsets_of self.now) }
    {
        match self {
            Body::Literal(_) => true,
            Body::At(offset) => reach(lower, upper, offset),
            Body::Neg(a) | Body::Abs(a) => a.get().is_within(lower, upper),
            Body::Bin(_, a, b) => a.get().is_within(lower, upper)
                && b.get().is_within(lower, upper),
            Body::Where(c, a, b) => {
                c.get().is_within(lower, upper)
                    && a.get().is_within(lower, upper)
                    && b.get().is_within(lower, upper)
            }
        }
    }

    /// How many offsets the body has, each as often as it stands there, or `most` where it has more.
    pub fn offsets_up_to(&self, most: u32) -> u32
        ensures value { result ≡ min (length (offsets_of self.now)) most }
        ensures few { result ≤ most }
    {
        match self {
            Body::Literal(_) => 0,
            Body::At(_) => most.min(1),
            Body::Neg(a) | Body::Abs(a) => a.get().offsets_up_to(most),
            Body::Bin(_, a, b) => {
                let first = a.get().offsets_up_to(most);
                first + b.get().offsets_up_to(most - first)
            }
            Body::Where(c, a, b) => {
                let first = c.get().offsets_up_to(most);
                let second = a.get().offsets_up_to(most - first);
                first + second + b.get().offsets_up_to(most - first - second)
            }
        }
    }
}
