//! The fault of a window: that of the earliest statement, at its earliest position.
ghost use Rattle.std.specs.Prelude.{◌≡◌, ◌<◌, IfOk, Some, length, map, slice_get, IfSome};
ghost use Rattle.std.specs.Arc.{arc_value};
ghost use Rattle.pooma_model.specs.declared.statement.Statement.{Statement};
ghost use Rattle.pooma_piece.specs.Plans.{fault_in, is_before, is_earlier, or_earlier, plan_fault};
ghost use Rattle.pooma_run.specs.Outcomes.{fault_seen, seen};

use pooma_domain::Cell;
use pooma_model::Program;
use pooma_num::FaultKind;
use pooma_piece::{Outcome, Piece};
use std::alloc::{AllocError, Global};
use std::sync::Arc;

/// A fault of the executed statement of this number, at this position of it.
#[derive(Clone, Copy, Debug)]
pub(crate) struct Fault {
    pub statement: u32,
    pub position: Cell,
    pub kind: FaultKind,
}

/// The earliest fault among outcomes of works of these statements.
pub(crate) fn first_fault(statements: &[u32], outcomes: &[Outcome]) -> Option<Fault>
    requires { length statements.now ≡ length outcomes.now }
    ensures { fault_seen result ≡ plan_fault statements.now outcomes.now }
{
    let mut first = None;
    'outcomes: for (k, outcome) in outcomes.iter().enumerate() {
        if let Some(fault) = fault_in(statements[k], outcome) {
            first = Some(earlier_of(first, fault));
        }
    }
    first
}

// The fault that this outcome of a work of the statement is.
fn fault_in(statement: u32, outcome: &Outcome) -> Option<Fault>
    ensures { fault_seen result ≡ fault_in statement outcome.now }
{
    match *outcome {
        Outcome::Done => None,
        Outcome::Value(_kept) => None,
        Outcome::Fault { position, kind } => Some(Fault {
            statement,
            position,
            kind,
        }),
    }
}

// The fault, or the one that is known already where it is not earlier.
fn earlier_of(known: Option<Fault>, fault: Fault) -> Fault
    ensures { Some (seen result) ≡ or_earlier (fault_seen known) (seen fault) }
{
    match known {
        None => fault,
        Some(first) => {
            if is_earlier(&fault, &first) {
                fault
            } else {
                first
            }
        }
    }
}

// Whether a fault is of an earlier statement, or of the same one at an earlier position.
fn is_earlier(a: &Fault, b: &Fault) -> bool
    ensures { result ≡ is_earlier (seen a.now) (seen b.now) }
{
    let before = is_before(&a.position, &b.position);
    a.statement < b.statement || (a.statement == b.statement && before)
}

// Whether a cell comes before another: on the greatest axis on which they differ it has the smaller coordinate.
fn is_before(a: &Cell, b: &Cell) -> bool
    ensures { result ≡ is_before a.now b.now }
{
    if a.dims() == 0 || b.dims() == 0 {
        return false;
    }
    let (rest, others) = (a.rest(), b.rest());
    let same = rest == others;
    is_before(&rest, &others) || (same && a.at(0) < b.at(0))
}

/// The numbers of the statements of these works.
pub(crate) fn statements_of(alloc: Global, works: &[Arc<Piece>]) -> Result<Vec<u32>, AllocError>
    ensures { IfOk result (λ numbers. numbers.items ≡ map (λ piece. piece.statement) (map arc_value works.now)) }
{
    let mut numbers = Vec::with_capacity(alloc, works.len())?;
    'works: for work in works {
        numbers.push(work.statement())?;
    }
    Ok(numbers)
}

/// The line of the executed statement of this number.
pub(crate) fn line_of(program: &Program, number: u32) -> u32
    requires { number < length program.now.order }
    ensures { IfSome (slice_get program.now.order number) (λ statement. result ≡ statement.line) }
{
    let mut walk = program.walk();
    'passing: for _passed in 0..number {
        let _statement = walk.next();
    }
    match walk.next() {
        Some(statement) => statement.line,
        None => unreachable!(),
    }
}
