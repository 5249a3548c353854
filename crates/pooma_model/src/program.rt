//! Programs.

ghost use Rattle.std.specs.Prelude.{◌≡◌, ◌<◌, ◌≤◌, length, slice_get, Some};
ghost use Rattle.pooma_field.specs.ShapeOf.{shape_of};
ghost use Rattle.pooma_model.specs.Declarations.{IsDeclaring};
ghost use Rattle.pooma_model.specs.Fit.{AreFit};
ghost use Rattle.pooma_model.specs.Lines.{drafted, IsProgram};

use crate::declarations::Declarations;
use crate::lines::Line;
use crate::walk::Walk;
use pooma_field::Shape;
use pooma_layout::Layout;
use std::marker::Model;

/// A program: at most 256 arrays and some scalars, each named by a number counted from 0, and statements, of which at most
/// 1,048,576 are executed.
///
/// Contracts see what is declared, and the list of the executed statements. It is kept as its lines, with no repeat written
/// out.
#[derive(Debug, Drop)]
pub struct Program {
    declared: Declarations,
    lines: Vec<Line>,
}

impl Model for Program {
    ghost use Rattle.pooma_model.specs.Order.{Programmed};
    ghost use Rattle.pooma_model.specs.contracts.statement.Statement.{the_row};
    ghost use Rattle.std.specs.Coded.{codes};

    ghost Value = { Programmed };

    ghost coded = { Prim.hlevel (codes, the_row.coded) };

    ghost use Rattle.pooma_model.specs.Lines.{drafted, IsProgram};

    ghost view = { λ p. record { declared = p.declared; order = (drafted p.lines.items).statements } };

    ghost invariant = { λ p. IsProgram p.declared p.lines.items };
}

impl Program {
    /// The program of these lines.
    pub(crate) fn of(declared: Declarations, lines: Vec<Line>) -> Program
        requires { IsProgram declared lines.items }
        ensures declared { result.declared ≡ declared }
        ensures order { result.order ≡ (drafted lines.items).statements }
    {
        Program { declared, lines }
    }

    /// How many arrays there are: at most 256.
    pub fn arrays(&self) -> u32
        ensures count { result ≡ length self.now.declared.shapes }
        ensures few { result ≤ 256 }
        ensures valid { IsDeclaring self.now.declared }
    {
        self.declared.arrays()
    }

    /// The layout of this array.
    pub fn layout(&self, array: u32) -> &Layout
        requires { array < length self.now.declared.shapes }
        ensures { slice_get self.now.declared.layouts array ≡ Some result.now }
    {
        self.declared.layout(array)
    }

    /// The shape of this array.
    pub fn shape(&self, array: u32) -> &Shape
        requires { array < length self.now.declared.shapes }
        ensures { slice_get self.now.declared.shapes array ≡ Some (shape_of result.now) }
    {
        self.declared.shape(array)
    }

    /// How many scalars there are.
    pub fn scalars(&self) -> u32
        ensures { result ≡ self.now.declared.scalars }
    {
        self.declared.scalars()
    }

    /// A walk over the executed statements, from the first one on. It takes no memory.
    pub fn walk(&self) -> Walk<'_>
        ensures order { result ≡ self.now.order }
        ensures fit { AreFit self.now.declared self.now.order }
        ensures few { length self.now.order ≤ 1048576 }
    {
        Walk::over(&self.lines)
    }
}
