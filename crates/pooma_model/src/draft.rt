//! Programs that are being made.

ghost use Rattle.std.specs.Prelude.{◌≡◌, ◌-◌, ◌^◌, ◌<◌, ◌≤◌, [], ◌∷◌, length, slice_get, Some, IfOk, OnOk, OnErr};
ghost use Rattle.pooma_domain.specs.Cells.{cells_of};
ghost use Rattle.pooma_field.specs.ShapeOf.{shape_of};
ghost use Rattle.pooma_layout.specs.Patches.{physical_of, total_of};
ghost use Rattle.pooma_model.specs.Declarations.{IsDeclaring, with_array, with_one_scalar};
ghost use Rattle.pooma_model.specs.Fit.{IsFit};
ghost use Rattle.pooma_model.specs.Order.{empty_draft, with_end, with_repeat, with_statements};

use crate::Statement;
use crate::declarations::Declarations;
use crate::lines::{Line, end_repeat};
use crate::program::Program;
use pooma_field::Shape;
use pooma_layout::Layout;
use std::alloc::{AllocError, Global};
use std::marker::Model;

/// A program that is being made, line by line. Its arrays and its scalars are named by numbers, each counted from 0 in the
/// order of their declarations; the declarations may stand between statements.
///
/// Contracts see what is declared, the statements outside of open repeats, with repeats written out, and the repeats that
/// have no end yet. A repeat is kept as its lines, and is never written out.
#[derive(Debug, Drop)]
pub struct Draft {
    declared: Declarations,
    lines: Vec<Line>,
    // How many repeats have no end. For the end of each there is room among the lines.
    unended: usize,
}

impl Model for Draft {
    ghost use Rattle.std.specs.Prelude.{◌-◌, vec_capacity, vec_len};
    ghost use Rattle.pooma_model.specs.Order.{Drafted};
    ghost use Rattle.pooma_model.specs.contracts.statement.Statement.{the_row};
    ghost use Rattle.std.specs.Coded.{codes};

    ghost Value = { Drafted };

    ghost coded = { Prim.hlevel (codes, the_row.coded) };

    ghost use Rattle.pooma_model.specs.Lines.{draft_of, IsDraft};

    ghost view = { λ d. draft_of d.declared d.lines.items };

    ghost invariant = { λ d. IsDraft d.declared d.lines.items d.unended (vec_capacity d.lines - vec_len d.lines) };
}

impl Draft {
    /// A program without arrays, scalars and statements. It takes no memory.
    pub fn new(alloc: Global) -> Draft
        ensures { result ≡ empty_draft }
    {
        Draft {
            declared: Declarations::new(alloc),
            lines: Vec::new(alloc),
            unended: 0,
        }
    }

    /// Declares an array of this shape that is kept in the patches of this layout, and answers its number. Its only error is
    /// want of memory, and then the draft is as before.
    pub fn declare(
        &mut self,
        alloc: Global,
        shape: Shape,
        layout: Layout,
    ) -> Result<u32, AllocError>
        requires few_arrays { length self.old.declared.shapes < 256 }
        requires physical { physical_of layout ≡ shape.physical }
        requires total { total_of layout ≡ shape.total }
        requires few_cells { length (cells_of shape.total) ≤ 4194304 }
        ensures number { IfOk result (λ array. array ≡ length self.old.declared.shapes) }
        ensures declared { OnOk result (self.new ≡ record self.old { declared = with_array (shape_of shape) layout self.old.declared }) }
        ensures err { OnErr result (self.new ≡ self.old) }
    {
        let array = self.declared.declare(alloc, shape, layout)?;
        Ok(array)
    }

    /// Declares a scalar, and answers its number.
    pub fn scalar(&mut self) -> u32
        requires { self.old.declared.scalars < 2 ^ 32 - 1 }
        ensures number { result ≡ self.old.declared.scalars }
        ensures declared { self.new ≡ record self.old { declared = with_one_scalar self.old.declared } }
    {
        self.declared.scalar()
    }

    /// How many arrays are declared.
    pub fn arrays(&self) -> u32
        ensures count { result ≡ length self.now.declared.shapes }
        ensures valid { IsDeclaring self.now.declared }
    {
        self.declared.arrays()
    }

    /// The shape of this array.
    pub fn shape(&self, array: u32) -> &Shape
        requires { array < length self.now.declared.shapes }
        ensures { slice_get self.now.declared.shapes array ≡ Some (shape_of result.now) }
    {
        self.declared.shape(array)
    }

    /// The layout of this array.
    pub fn layout(&self, array: u32) -> &Layout
        requires { array < length self.now.declared.shapes }
        ensures { slice_get self.now.declared.layouts array ≡ Some result.now }
    {
        self.declared.layout(array)
    }

    /// How many scalars are declared.
    pub fn scalars(&self) -> u32
        ensures { result ≡ self.now.declared.scalars }
    {
        self.declared.scalars()
    }

    /// How many repeats have no end yet: 0 to 4.
    pub fn open_repeats(&self) -> usize
        ensures count { result ≡ length self.now.open_repeats }
        ensures few { result ≤ 4 }
    {
        self.unended
    }

    /// Puts a statement at the end. Its only error is want of memory, and then the draft is as before.
    pub fn push(&mut self, _alloc: Global, statement: Statement) -> Result<(), AllocError>
        requires { IsFit self.old.declared statement.action }
        ensures ok { OnOk result (self.new ≡ with_statements (statement ∷ []) self.old) }
        ensures err { OnErr result (self.new ≡ self.old) }
    {
        self.lines.reserve(self.unended + 1)?;
        self.lines.push_reserved(Line::Do(statement));
        Ok(())
    }

    /// Begins a repeat of so many turns. Its only error is want of memory, and then the draft is as before.
    pub fn repeat(&mut self, _alloc: Global, turns: u32) -> Result<(), AllocError>
        requires some { 0 < turns }
        requires few { length self.old.open_repeats < 4 }
        ensures ok { OnOk result (self.new ≡ with_repeat turns self.old) }
        ensures err { OnErr result (self.new ≡ self.old) }
    {
        self.lines.reserve(self.unended + 2)?;
        self.lines.push_reserved(Line::Repeat(turns));
        self.unended += 1;
        Ok(())
    }

    /// Ends the innermost repeat that has no end yet. It takes no memory.
    pub fn end(&mut self)
        requires { 0 < length self.old.open_repeats }
        ensures { self.new ≡ with_end self.old }
    {
        end_repeat(&mut self.lines);
        self.unended -= 1;
    }

    /// The program of these declarations and lines, in their order. It takes no memory.
    pub fn finish(self) -> Program
        requires ended { self.open_repeats ≡ [] }
        requires few { length self.statements ≤ 1048576 }
        ensures declared { result.declared ≡ self.declared }
        ensures order { result.order ≡ self.statements }
    {
        let Draft {
            declared,
            lines,
            unended: _,
        } = self;
        Program::of(declared, lines)
    }
}
