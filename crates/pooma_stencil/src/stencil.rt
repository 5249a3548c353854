//! Stencils, and their expansions on views.
ghost use Rattle.std.specs.Prelude.{◌≡◌, ◌≤◌, ◌↔◌, ℕ, ℤ, List, length, map, All, IsTrue, IsSome, IfSome, IfOk};
ghost use Rattle.pooma_domain.specs.Cells.{IsBox, IsIn, IsOrdered};
ghost use Rattle.pooma_domain.specs.Operations.{reaches};
ghost use Rattle.pooma_view.specs.Overlap.{IsOverlap};
ghost use Rattle.pooma_view.specs.Slots.{positions_of};
ghost use Rattle.pooma_expr.specs.Trees.{axes_needed, depth_of, scalars_needed, views_of};
ghost use Rattle.pooma_expr.specs.Values.{value};
ghost use Rattle.pooma_stencil.specs.Bodies.{body_depth, offsets_of};
ghost use Rattle.pooma_stencil.specs.Expansions.{HasResult, IsReadApart, IsReadFor, expanded, positions_on, view_read};

use crate::body::Body;
use crate::extents::{beginning, shrink};
use pooma_domain::{BoxN, Cell, boxes_within_boxes};
use pooma_expr::Expr;
use pooma_view::View;
use sqlite_items::Boxed;
use std::alloc::{AllocError, Global};
use std::marker::Model;

/// A body, and how far it reads below and above a position on each axis.
#[derive(Debug, Drop)]
pub struct Stencil {
    lower: Cell,
    upper: Cell,
    body: Body,
}

impl Model for Stencil {
    ghost use Rattle.pooma_stencil.specs.Stencils.{Stenciled, IsStencil};
    ghost use Rattle.pooma_stencil.specs.contracts.body.Body.{the_row};
    ghost use Rattle.std.specs.Coded.{codes};

    ghost Value = { Stenciled };

    ghost coded = { Prim.hlevel (codes, the_row.coded) };

    ghost view = { λ s. record { lower = s.lower; upper = s.upper; body = s.body } };

    ghost invariant = { λ s. IsStencil (record { lower = s.lower; upper = s.upper; body = s.body }) };
}

impl Stencil {
    ghost use Rattle.pooma_stencil.specs.Stencils.{IsExtent, IsStencil, result_positions};
    ghost use Rattle.pooma_stencil.specs.Expansions.{IsPartOf, expansion, value_on};

    /// The stencil of this body, with a lower and an upper extent for each of one to three axes. `Body::is_within` tells
    /// whether the body stays within them.
    pub fn new(lower: Cell, upper: Cell, body: Body) -> Stencil
        requires dims { (1 ≤ length lower) × (length upper ≡ length lower) }
        requires extents { All IsExtent lower × All IsExtent upper }
        requires within { All (IsIn (reaches lower upper)) (offsets_of body) }
        ensures lower { result.lower ≡ lower }
        ensures upper { result.upper ≡ upper }
        ensures body { result.body ≡ body }
    {
        Stencil { lower, upper, body }
    }

    /// How many axes of positions a view must have.
    pub fn dims(&self) -> usize
        ensures value { result ≡ length self.now.lower }
        ensures some { 1 ≤ result }
        ensures few { result ≤ 3 }
        ensures valid { IsStencil self.now }
    {
        self.lower.dims()
    }

    /// How far the body may read below a position on each axis.
    pub fn lower(&self) -> &Cell
        ensures { result.now ≡ self.now.lower }
    {
        &self.lower
    }

    /// How far the body may read above a position on each axis.
    pub fn upper(&self) -> &Cell
        ensures { result.now ≡ self.now.upper }
    {
        &self.upper
    }

    /// What is made of the numbers about a position.
    pub fn body(&self) -> &Body
        ensures { result.now ≡ self.now.body }
    {
        &self.body
    }

    /// The positions of the result on a view with these positions: on each axis the extents fewer. None where there are none.
    pub fn result(&self, positions: &BoxN) -> Option<BoxN>
        requires { length self.now.lower ≡ length positions.now }
        ensures found { IsSome result ↔ All IsOrdered (result_positions self.now positions.now) }
        ensures value { IfSome result (λ left. left ≡ result_positions self.now positions.now) }
    {
        shrink(positions, &self.lower, &self.upper)
    }

    /// The expression that has at each position of the result the value of the body there: a read of the view stands for each
    /// offset. The view has one axis of positions for each of the stencil's, as `dims` tells, and `result` tells whether there
    /// is a result.
    pub fn expand(&self, alloc: Global, view: &View) -> Result<Expr, AllocError>
        requires positions { IsBox (positions_of view.now.slots) }
        requires dims { length self.now.lower ≡ length (positions_of view.now.slots) }
        requires room { All IsOrdered (positions_on self.now view.now) }
        ensures tree { IfOk result (λ e. e ≡ expansion self.now view.now) }
        ensures value { IfOk result (λ e. (scalars : List ℤ) (numbers : ℕ → List ℤ → ℤ) (p : List ℤ) → IsIn (positions_on self.now view.now) p
            → value scalars (λ v. numbers v.array) e p ≡ value_on (numbers view.now.array) self.now view.now p) }

        // What the expression has in it.
        ensures views { IfOk result (λ e. views_of e ≡ map (view_read self.now view.now) (offsets_of self.now.body)) }
        ensures parts { IfOk result (λ e. All (IsPartOf view.now (positions_on self.now view.now)) (views_of e)) }
        ensures depth { IfOk result (λ e. depth_of e ≡ body_depth self.now.body) }
        ensures scalars { IfOk result (λ e. scalars_needed e ≡ 0) }
        ensures axes { IfOk result (λ e. axes_needed e ≡ 0) }
    {
        let Some(positions) = self.result(&view.positions()) else {
            unreachable!();
        };
        let expr = expand_body(alloc, &self.body, self, view, &positions)?;
        Ok(expr)
    }

    /// Whether no view that the expression on a view reads overlaps this other one, offset by offset and without the expression.
    /// What `expand` asks of the view is asked here.
    pub fn reads_apart(&self, view: &View, target: &View) -> bool
        requires positions { IsBox (positions_of view.now.slots) }
        requires dims { length self.now.lower ≡ length (positions_of view.now.slots) }
        requires room { All IsOrdered (positions_on self.now view.now) }
        requires target { IsBox (positions_of target.now.slots) }
        ensures { IsTrue result ↔ All (λ read. IsOverlap read target.now → ⊥) (views_of (expansion self.now view.now)) }
    {
        let Some(positions) = self.result(&view.positions()) else {
            unreachable!();
        };
        body_reads_apart(&self.body, self, view, &positions, target)
    }

    // Whether the view that is read for this offset does not overlap the target.
    fn is_apart(&self, view: &View, positions: &BoxN, offset: &Cell, target: &View) -> bool
        requires fits { HasResult self.now view.now }
        requires positions { positions.now ≡ positions_on self.now view.now }
        requires within { IsIn (reaches self.now.lower self.now.upper) offset.now }
        requires target { IsBox (positions_of target.now.slots) }
        ensures { IsTrue result ↔ IsReadApart self.now view.now target.now offset.now }
    {
        // For what it promises: the positions make a box.
        let _dims = positions.dims();
        !self.read(view, positions, offset).overlaps(target)
    }

    // The view that is read for this offset.
    fn read(&self, view: &View, positions: &BoxN, offset: &Cell) -> View
        requires fits { HasResult self.now view.now }
        requires positions { positions.now ≡ positions_on self.now view.now }
        requires within { IsIn (reaches self.now.lower self.now.upper) offset.now }
        ensures view { result ≡ view_read self.now view.now offset.now }
        ensures reads { IsReadFor self.now view.now offset.now }
    {
        boxes_within_boxes();
        let begin = beginning(&self.lower, &self.upper, offset);
        view.restrict(&positions.shift(&begin))
    }
}

// Whether no view that is read for a part of a stencil's body overlaps the target, where the result has these positions.
fn body_reads_apart(
    body: &Body,
    stencil: &Stencil,
    view: &View,
    positions: &BoxN,
    target: &View,
) -> bool
    requires fits { HasResult stencil.now view.now }
    requires positions { positions.now ≡ positions_on stencil.now view.now }
    requires within { All (IsIn (reaches stencil.now.lower stencil.now.upper)) (offsets_of body.now) }
    requires target { IsBox (positions_of target.now.slots) }
    ensures { IsTrue result ↔ All (IsReadApart stencil.now view.now target.now) (offsets_of body.now) }
{
    match body {
        Body::Literal(_) => true,
        Body::At(offset) => stencil.is_apart(view, positions, offset, target),
        Body::Neg(a) | Body::Abs(a) => body_reads_apart(a.get(), stencil, view, positions, target),
        Body::Bin(_, a, b) => body_reads_apart(a.get(), stencil, view, positions, target)
            && body_reads_apart(b.get(), stencil, view, positions, target),
        Body::Where(c, a, b) => {
            body_reads_apart(c.get(), stencil, view, positions, target)
                && body_reads_apart(a.get(), stencil, view, positions, target)
                && body_reads_apart(b.get(), stencil, view, positions, target)
        }
    }
}

// The expression of a part of a stencil's body on a view, where the result has these positions.
#[cycle(expand)]
fn expand_body(
    alloc: Global,
    body: &Body,
    stencil: &Stencil,
    view: &View,
    positions: &BoxN,
) -> Result<Expr, AllocError>
    requires fits { HasResult stencil.now view.now }
    requires positions { positions.now ≡ positions_on stencil.now view.now }
    requires within { All (IsIn (reaches stencil.now.lower stencil.now.upper)) (offsets_of body.now) }
    ensures tree { IfOk result (λ e. e ≡ expanded (view_read stencil.now view.now) body.now) }
    ensures reads { IfOk result (λ e. All (IsReadFor stencil.now view.now) (offsets_of body.now)) }
{
    match body {
        Body::Literal(x) => Ok(Expr::Literal(*x)),
        Body::At(offset) => Ok(Expr::Read(stencil.read(view, positions, offset))),
        Body::Neg(a) => Ok(Expr::Neg(expand_boxed(alloc, a, stencil, view, positions)?)),
        Body::Abs(a) => Ok(Expr::Abs(expand_boxed(alloc, a, stencil, view, positions)?)),
        Body::Bin(op, a, b) => {
            let a = expand_boxed(alloc, a, stencil, view, positions)?;
            Ok(Expr::Bin(*op, a, expand_boxed(alloc, b, stencil, view, positions)?))
        }
        Body::Where(c, a, b) => {
            let c = expand_boxed(alloc, c, stencil, view, positions)?;
            let a = expand_boxed(alloc, a, stencil, view, positions)?;
            Ok(Expr::Where(c, a, expand_boxed(alloc, b, stencil, view, positions)?))
        }
    }
}

#[cycle(expand)]
fn expand_boxed(
    alloc: Global,
    body: &Boxed<Body>,
    stencil: &Stencil,
    view: &View,
    positions: &BoxN,
) -> Result<Boxed<Expr>, AllocError>
    requires fits { HasResult stencil.now view.now }
    requires positions { positions.now ≡ positions_on stencil.now view.now }
    requires within { All (IsIn (reaches stencil.now.lower stencil.now.upper)) (offsets_of body.now) }
    ensures tree { IfOk result (λ e. e ≡ expanded (view_read stencil.now view.now) body.now) }
    ensures reads { IfOk result (λ e. All (IsReadFor stencil.now view.now) (offsets_of body.now)) }
{
    Boxed::new(
        alloc,
        expand_body(alloc, body.get(), stencil, view, positions)?,
    )
}
