//! What the line of a statement reads, and at which positions.
ghost use Rattle.std.specs.Prelude.{◌≡◌, [], ◌∷◌, ◌++◌, None, Some, IfOk, IsTrue, OnOk};
ghost use Rattle.std.specs.Option.{option_copied};
ghost use Rattle.pooma_script.specs.Known.{is_array, is_stencil, named_at, stencil_named};
ghost use Rattle.pooma_script.specs.Statements.{task_of, task_over};
ghost use Rattle.pooma_script.specs.Tests.{has_names};
ghost use Rattle.pooma_script.specs.Trees.{axes_in, is_readable, names_fit, readings_in, unless_scalar};
ghost use Rattle.pooma_script.specs.Views.{reading_of};
ghost use Rattle.pooma_check.specs.Kept.{IsKept, known_of};
ghost use Rattle.pooma_check.specs.Readings.{positions_of_first};

use crate::known::Known;
use crate::lookup::{reading_at, reading_of_name, stencil_at};
use pooma_parse::{RawExpr, RawLine, RawView};
use pooma_script::expression::axes_in;
use pooma_script::names::is_scalar;
use pooma_script::reading::Reading;
use pooma_text::Span;
use std::alloc::{AllocError, Global};
use std::marker::Model;

/// What a statement reads, the target of an assignment first, and how many axes of positions its line asks for.
#[derive(Debug, Drop)]
pub struct Task<'a> {
    readings: Vec<Reading<'a>>,
    /// Whether there is the position without axes alone, whatever is read.
    single: bool,
    axes: u32,
}

impl<'a> Model for Task<'a> {
    ghost use Rattle.pooma_script.specs.Statements.{Task as Doing};
    ghost use Rattle.pooma_check.specs.Readings.{positions_for};
    ghost use Rattle.pooma_stencil.specs.contracts.body.Body.{the_row};
    ghost use Rattle.std.specs.Coded.{codes};

    ghost Value = { Doing };

    ghost coded = { Prim.hlevel (codes, the_row.coded) };

    ghost view = { λ t. record { readings = t.readings.items; positions = positions_for t.single t.readings.items; axes = t.axes } };
}

impl<'a> Task<'a> {
    ghost use Rattle.std.specs.Prelude.{slice_get};
    ghost use Rattle.std.specs.Option.{ForSome};

    /// What is read, in the order of the line.
    pub fn readings(&self) -> &[Reading<'a>]
        ensures { result.now ≡ self.now.readings }
    {
        self.readings.as_slice()
    }

    /// What has the positions of the statement. None where there is the position without axes alone.
    pub fn first(&self) -> Option<&Reading<'a>>
        ensures positions { self.now.positions ≡ positions_of_first (option_copied result) }
        ensures first { ForSome (option_copied result) (λ reading. slice_get self.now.readings 0 ≡ Some reading) }
    {
        if self.single {
            return None;
        }
        self.readings.first()
    }

    /// How many axes of positions there have to be.
    pub fn axes(&self) -> u32
        ensures { result ≡ self.now.axes }
    {
        self.axes
    }
}

/// Puts what an expression reads at the end of a list, in the order of the text. Its only error is want of memory.
fn gather_in<'a>(
    alloc: Global,
    known: &'a Known<'_>,
    text: &[u8],
    expr: &'a RawExpr,
    readings: &mut Vec<Reading<'a>>,
) -> Result<(), AllocError>
    requires kept { IsKept known.now }
    requires names { IsTrue (names_fit known.now.names text.now expr.now) }
    ensures { OnOk result (readings.new.items ≡ readings.old.items ++ readings_in (known_of known.now) text.now expr.now) }
{
    match expr {
        RawExpr::Number(_) | RawExpr::Index(_) | RawExpr::At(_) => Ok(()),
        RawExpr::View(seen) => gather_view(alloc, known, text, seen, readings),
        RawExpr::Apply { stencil, view } => gather_applied(
            alloc, known, text, *stencil, view, readings,
        ),
        RawExpr::Neg(a) | RawExpr::Abs(a) => gather_in(alloc, known, text, a.get(), readings),
        RawExpr::Bin(_, a, b) => {
            gather_in(alloc, known, text, a.get(), readings)?;
            gather_in(alloc, known, text, b.get(), readings)
        }
        RawExpr::Where(c, a, b) => {
            gather_in(alloc, known, text, c.get(), readings)?;
            gather_in(alloc, known, text, a.get(), readings)?;
            gather_in(alloc, known, text, b.get(), readings)
        }
    }
}

/// Puts a view at the end of a list. A scalar's name is none.
fn gather_view<'a>(
    _alloc: Global,
    known: &Known<'_>,
    text: &[u8],
    seen: &'a RawView,
    readings: &mut Vec<Reading<'a>>,
) -> Result<(), AllocError>
    requires kept { IsKept known.now }
    requires name { IsTrue (is_readable seen.now.subs (named_at (known_of known.now) text.now seen.now.name)) }
    ensures { OnOk result (readings.new.items ≡ readings.old.items ++ unless_scalar (named_at (known_of known.now) text.now seen.now.name)
        (reading_of (known_of known.now) text.now None seen.now)) }
{
    if is_scalar(known.names.named(text, seen.name)) {
        return Ok(());
    }
    readings.push(reading_at(known, text, None, seen))?;
    Ok(())
}

/// Puts a stencil on a view at the end of a list.
fn gather_applied<'a>(
    _alloc: Global,
    known: &'a Known<'_>,
    text: &[u8],
    stencil: Span,
    seen: &'a RawView,
    readings: &mut Vec<Reading<'a>>,
) -> Result<(), AllocError>
    requires kept { IsKept known.now }
    requires stencil { IsTrue (is_stencil (named_at (known_of known.now) text.now stencil)) }
    requires array { IsTrue (is_array (named_at (known_of known.now) text.now seen.now.name)) }
    ensures { OnOk result (readings.new.items ≡ readings.old.items
        ++ reading_of (known_of known.now) text.now (Some (stencil_named (known_of known.now) (named_at (known_of known.now) text.now stencil))) seen.now ∷ []) }
{
    let stencil = stencil_at(known, text, stencil);
    readings.push(reading_at(known, text, Some(stencil), seen))?;
    Ok(())
}

/// What an expression reads. Its only error is want of memory.
fn gather_value<'a>(
    alloc: Global,
    known: &'a Known<'_>,
    text: &[u8],
    value: &'a RawExpr,
) -> Result<Vec<Reading<'a>>, AllocError>
    requires kept { IsKept known.now }
    requires names { IsTrue (names_fit known.now.names text.now value.now) }
    ensures { IfOk result (λ readings. readings.items ≡ readings_in (known_of known.now) text.now value.now) }
{
    let mut readings = Vec::new(alloc);
    gather_in(alloc, known, text, value, &mut readings)?;
    Ok(readings)
}

/// What an assignment reads, its target first. Its only error is want of memory.
fn gather_assigned<'a>(
    alloc: Global,
    known: &'a Known<'_>,
    text: &[u8],
    target: &'a RawView,
    value: &'a RawExpr,
) -> Result<Vec<Reading<'a>>, AllocError>
    requires kept { IsKept known.now }
    requires target { IsTrue (is_array (named_at (known_of known.now) text.now target.now.name)) }
    requires names { IsTrue (names_fit known.now.names text.now value.now) }
    ensures { IfOk result (λ readings. readings.items ≡ reading_of (known_of known.now) text.now None target.now
        ∷ readings_in (known_of known.now) text.now value.now) }
{
    let mut readings = Vec::new(alloc);
    readings.push(reading_at(known, text, None, target))?;
    gather_in(alloc, known, text, value, &mut readings)?;
    Ok(readings)
}

/// What the print of a bare name reads: nothing where it is a scalar's. Its only error is want of memory.
fn gather_name<'a>(
    alloc: Global,
    known: &Known<'_>,
    text: &[u8],
    name: Span,
) -> Result<Vec<Reading<'a>>, AllocError>
    requires kept { IsKept known.now }
    requires name { IsTrue (is_readable None (named_at (known_of known.now) text.now name)) }
    ensures { IfOk result (λ readings. readings.items ≡ unless_scalar (named_at (known_of known.now) text.now name)
        (reading_of (known_of known.now) text.now None (record { name = name; subs = None }))) }
{
    let mut readings = Vec::new(alloc);
    if !is_scalar(known.names.named(text, name)) {
        readings.push(reading_of_name(known, text, None, name, None))?;
    }
    Ok(readings)
}

/// What is read, at the positions of the first of it.
fn task_over<'a>(readings: Vec<Reading<'a>>, axes: u32) -> Task<'a>
    ensures { result ≡ task_over readings.entry.items axes }
{
    Task {
        readings,
        single: false,
        axes,
    }
}

/// What the line of a statement reads and at which positions; a line that is none reads nothing. Its names name what they
/// have to. Its only error is want of memory.
pub fn gather<'a>(
    alloc: Global,
    known: &'a Known<'_>,
    text: &[u8],
    form: &'a RawLine,
) -> Result<Task<'a>, AllocError>
    requires kept { IsKept known.now }
    requires names { IsTrue (has_names known.now.names text.now form.now) }
    ensures { IfOk result (λ task. task ≡ task_of (known_of known.now) text.now form.now) }
{
    match form {
        RawLine::Assign { target, value, .. } => {
            let readings = gather_assigned(alloc, known, text, target, value)?;
            Ok(task_over(readings, axes_in(value)))
        }
        RawLine::Scalar { value, .. } => Ok(Task {
            readings: gather_value(alloc, known, text, value)?,
            single: true,
            axes: axes_in(value),
        }),
        RawLine::Reduce { value, .. } => {
            let readings = gather_value(alloc, known, text, value)?;
            Ok(task_over(readings, axes_in(value)))
        }
        RawLine::PrintView { view } => {
            let mut readings = Vec::new(alloc);
            readings.push(reading_at(known, text, None, view))?;
            Ok(task_over(readings, 0))
        }
        RawLine::PrintName { name } => {
            let readings = gather_name(alloc, known, text, *name)?;
            Ok(task_over(readings, 0))
        }
        RawLine::Layout { .. }
        | RawLine::Brick { .. }
        | RawLine::Array { .. }
        | RawLine::Field { .. }
        | RawLine::Stencil { .. }
        | RawLine::Block
        | RawLine::Repeat { .. }
        | RawLine::End => Ok(task_over(Vec::new(alloc), 0)),
    }
}
