//! Codes of expressions.
ghost use Rattle.std.specs.Prelude.{◌≡◌, ◌≤◌, ℤ, List, [], length, IfOk, IsTrue};
ghost use Rattle.pooma_expr.specs.Code.{emitted, places_of};
ghost use Rattle.pooma_expr.specs.Trees.{axes_needed, bound, depth_of, scalars_needed, views_of};
ghost use Rattle.pooma_expr.specs.Values.{Contents, value};
ghost use Rattle.pooma_expr.specs.Words.{literals_fit};

use crate::binding::bind;
use crate::emit::emit;
use crate::operation::Operation;
use crate::tree::Expr;
use pooma_view::View;
use std::alloc::{AllocError, Global};
use std::marker::Model;
use std::snapshot::Snapshot;
use std::sync::Arc;

/// An expression as a flat list of operations, with the numbers of its scalars in their places. It is seen as the expression
/// that it stands for, which has no scalars.
#[derive(Drop)]
pub struct Code {
    compiled: Arc<Compiled>,
}

#[derive(Drop)]
struct Compiled {
    operations: Vec<Operation>,
    reads: Vec<View>,
    places: u32,
    tree: Snapshot<Expr>,
}

impl Model for Compiled {
    ghost use Rattle.pooma_expr.specs.declared.tree.Expr.{Expr};
    ghost use Rattle.pooma_expr.specs.contracts.tree.Expr.{the_row};

    ghost Value = { Expr };

    ghost coded = { the_row.coded };

    ghost use Rattle.pooma_expr.specs.Compiled.{IsCodeOf};

    ghost view = { λ c. c.tree.value };

    ghost invariant = { λ c. IsCodeOf c.tree.value c.operations.items c.reads.items c.places };
}

impl Model for Code {
    ghost use Rattle.pooma_expr.specs.declared.tree.Expr.{Expr};
    ghost use Rattle.pooma_expr.specs.contracts.tree.Expr.{the_row};

    ghost Value = { Expr };

    ghost coded = { the_row.coded };

    ghost use Rattle.std.specs.Arc.{arc_value};

    ghost view = { λ c. arc_value c.compiled };
}

impl Code {
    /// The code of an expression, where the scalars have these numbers.
    pub fn of(alloc: Global, expr: &Expr, scalars: &[i64]) -> Result<Code, AllocError>
        requires depth { depth_of expr.now ≤ 256 }
        requires reads { length (views_of expr.now) ≤ 64 }
        requires scalars { scalars_needed expr.now ≤ length scalars.now }
        ensures tree { IfOk result (λ code. code ≡ bound scalars.now expr.now) }

        // What the expression has, the one without scalars has too.
        ensures value { IfOk result (λ code. (has : Contents) (p : List ℤ) → value [] has code p ≡ value scalars.now has expr.now p) }
        ensures views { IfOk result (λ code. views_of code ≡ views_of expr.now) }
        ensures axes { IfOk result (λ code. axes_needed code ≡ axes_needed expr.now) }

        // Each literal was gone over, so they are numbers of 64 bits.
        ensures literals { IfOk result (λ code. IsTrue (literals_fit expr.now)) }
    {
        let tree = bind(alloc, expr, scalars)?;
        let mut operations = Vec::new(alloc);
        let mut reads = Vec::new(alloc);
        emit(alloc, &mut operations, &mut reads, &tree)?;
        let compiled = Compiled {
            operations,
            reads,
            places: tree.places(),
            tree: Snapshot::of(&tree),
        };
        Ok(Code {
            compiled: Arc::new(alloc, compiled)?,
        })
    }

    /// The views that the code reads, in the order of the text.
    pub fn reads(&self) -> &[View]
        ensures views { result.now ≡ views_of self.now }
        ensures few { length result.now ≤ 64 }
    {
        let compiled: &Compiled = &self.compiled;
        compiled.reads.as_slice()
    }

    /// An equal code, which shares what this one keeps. It takes no memory; it is refused only where no further owner can be
    /// counted.
    pub fn shared(&self) -> Result<Code, AllocError>
        ensures { IfOk result (λ code. code ≡ self.now) }
    {
        Ok(Code {
            compiled: self.compiled.clone()?,
        })
    }

    /// The operations, of which the k-th read is that of the k-th view.
    pub(crate) fn operations(&self) -> &[Operation]
        ensures { result.now ≡ (emitted self.now 0).operations }
    {
        let compiled: &Compiled = &self.compiled;
        compiled.operations.as_slice()
    }

    /// How high the stack gets.
    pub(crate) fn places(&self) -> u32
        ensures places { result ≡ places_of self.now }
        ensures few { result ≤ 256 }
    {
        let compiled: &Compiled = &self.compiled;
        compiled.places
    }
}
