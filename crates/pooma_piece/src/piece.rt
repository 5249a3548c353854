//! Pieces of statements.
ghost use Rattle.std.specs.Prelude.{◌≡◌, ◌≤◌, length, is_some, All, IfOk};
ghost use Rattle.pooma_domain.specs.Cells.{cells_of};
ghost use Rattle.pooma_expr.specs.Trees.{axes_needed, views_of};
ghost use Rattle.pooma_machine.specs.Steps.{IsRequestList};
ghost use Rattle.pooma_piece.specs.Kept.{sources_of};
ghost use Rattle.pooma_piece.specs.Pieces.{AreApart, AreOfTarget, AreOwn, AreReadAlike, AreReads, HasPositions, IsPiece, requests_of, sets_cells};

use crate::requests::requests_for;
use crate::source::{Source, sources_of};
use crate::task::Task;
use pooma_domain::BoxN;
use pooma_expr::Code;
use pooma_machine::Request;
use smallvec::SmallVec;
use std::alloc::{AllocError, Global};
use std::marker::Model;

/// The most positions that a piece has: as many as an array has cells at the most.
pub const MOST_POSITIONS: u64 = 4_194_304;

/// Some positions of an executed statement, what is done there, and the objects whose patches it takes: one that it writes
/// and those that it reads.
#[derive(Drop)]
pub struct Piece {
    statement: u32,
    positions: BoxN,
    task: Task,
    code: Code,
    write: Option<u32>,
    reads: SmallVec<u32, 8>,
    requests: SmallVec<Request, 8>,
    sources: SmallVec<Source, 8>,
}

impl Model for Piece {
    ghost use Rattle.pooma_piece.specs.Pieces.{Pieced};
    ghost use Rattle.pooma_expr.specs.contracts.tree.Expr.{the_row};
    ghost use Rattle.std.specs.Coded.{codes};

    ghost Value = { Pieced };

    ghost coded = { Prim.hlevel (codes, the_row.coded) };

    ghost use Rattle.pooma_piece.specs.Kept.{IsKept};

    ghost view = { λ p. record { statement = p.statement; positions = p.positions; task = p.task; code = p.code; write = p.write; reads = p.reads.items } };

    ghost invariant = { λ p. IsKept (record { statement = p.statement; positions = p.positions; task = p.task; code = p.code; write = p.write; reads = p.reads.items }) p.requests.items p.sources.items };
}

impl Piece {
    /// The piece of the executed statement of this number, counted from 0, at these positions of the statement, with the
    /// value that the code has there. `write` is the object in whose patch the task sets cells; `reads` names for each view of
    /// the code, in order, the object in whose patch it is read, of a fill those in which its sources are, and of a guard copy
    /// the one that owns the cells. That the cells lie
    /// in those patches is no condition here: `fits` tests it, and `run_piece` asks for it. The only error is want of memory.
    pub fn new(
        alloc: Global,
        statement: u32,
        positions: BoxN,
        task: Task,
        code: Code,
        write: Option<u32>,
        reads: &[u32],
    ) -> Result<Piece, AllocError>
        requires reads { AreReads task code reads.now }
        requires within { All (HasPositions positions) (views_of code) }
        requires own { AreOwn task positions }
        requires few { length (cells_of positions) ≤ MOST_POSITIONS }
        requires writes { is_some write ≡ sets_cells task }
        requires axes { axes_needed code ≤ length positions }
        requires apart { AreApart task code }
        requires alike { AreReadAlike (views_of code) reads.now }
        requires of_target { AreOfTarget task write (views_of code) reads.now }
        ensures { IfOk result (λ piece. piece ≡ record { statement = statement; positions = positions; task = task; code = code; write = write; reads = reads.now }) }
    {
        let requests = requests_for(alloc, write, reads)?;
        let sources = sources_of(alloc, write, requests.as_slice(), reads)?;
        let reads = SmallVec::from_slice(alloc, reads)?;
        Ok(Piece {
            statement,
            positions,
            task,
            code,
            write,
            reads,
            requests,
            sources,
        })
    }

    /// The number of the executed statement that it is a part of, counted from 0.
    pub fn statement(&self) -> u32
        ensures { result ≡ self.now.statement }
    {
        self.statement
    }

    /// Those of the statement's positions that are its own.
    pub fn positions(&self) -> BoxN
        ensures { result ≡ self.now.positions }
    {
        self.positions
    }

    /// What is done there.
    pub fn task(&self) -> &Task
        ensures { result.now ≡ self.now.task }
    {
        &self.task
    }

    /// What it asks for: ascending by object, one request for each object, to write the one that it writes.
    pub fn requests(&self) -> &[Request]
        ensures requests { result.now ≡ requests_of self.now }
        ensures form { IsRequestList result.now }
    {
        self.requests.as_slice()
    }

    /// The value at each position.
    pub(crate) fn code(&self) -> &Code
        ensures tree { result.now ≡ self.now.code }
        ensures valid { IsPiece self.now }
    {
        let _sources = &self.sources;
        &self.code
    }

    /// Where the views of the code are read, in order.
    pub(crate) fn sources(&self) -> &[Source]
        ensures { result.now ≡ sources_of self.now }
    {
        self.sources.as_slice()
    }
}
