//! What the expression of a stencil on a view has in it.
ghost use Rattle.std.specs.Prelude.{◌≡◌, ℕ, ℤ, List, map, All};
ghost use Rattle.pooma_domain.specs.Cells.{Interval, IsBox, IsIn};
ghost use Rattle.pooma_view.specs.Slots.{cell_named, positions_of};
ghost use Rattle.pooma_view.specs.Views.{Viewed};
ghost use Rattle.pooma_expr.specs.Trees.{axes_needed, depth_of, scalars_needed, views_of};
ghost use Rattle.pooma_expr.specs.Values.{value};
ghost use Rattle.pooma_stencil.specs.Bodies.{body_depth, offsets_of};
ghost use Rattle.pooma_stencil.specs.Expansions.{HasResult, IsPartOf, expansion, positions_on, value_on, view_read};
ghost use Rattle.pooma_stencil.specs.Stencils.{IsStencil, Stenciled};

/// The expression of a stencil on a view, as a law for proofs: a view for each offset of the body, in its order, and a tree as
/// deep as the body, without scalars and indexes.
pub fn forms_of_expansions()
    ensures views { (s : Stenciled) (v : Viewed) → views_of (expansion s v) ≡ map (view_read s v) (offsets_of s.body) }
    ensures depth { (s : Stenciled) (v : Viewed) → depth_of (expansion s v) ≡ body_depth s.body }
    ensures scalars { (s : Stenciled) (v : Viewed) → scalars_needed (expansion s v) ≡ 0 }
    ensures axes { (s : Stenciled) (v : Viewed) → axes_needed (expansion s v) ≡ 0 }
{}

/// The same on a view that names cells of a box alone and on which the stencil has a result: each view that is read is a part
/// of the whole one, and the value at a position of the result is that of the stencil on the view.
pub fn values_of_expansions()
    ensures parts { (s : Stenciled) (v : Viewed) (area : List Interval) → IsStencil s → HasResult s v → IsBox area
        → ((p : List ℤ) → IsIn (positions_of v.slots) p → IsIn area (cell_named v.slots p))
        → All (IsPartOf v (positions_on s v)) (views_of (expansion s v)) }
    ensures value { (s : Stenciled) (v : Viewed) (area : List Interval) → IsStencil s → HasResult s v → IsBox area
        → ((p : List ℤ) → IsIn (positions_of v.slots) p → IsIn area (cell_named v.slots p))
        → (scalars : List ℤ) (numbers : ℕ → List ℤ → ℤ) (p : List ℤ) → IsIn (positions_on s v) p
        → value scalars (λ w. numbers w.array) (expansion s v) p ≡ value_on (numbers v.array) s v p }
{}
