//! How much a line has, one test a limit. None of them walks over cells, positions or turns.
ghost use Rattle.std.specs.Prelude.{◌≡◌, ◌↔◌, ◌+◌, ◌<◌, ◌≤◌, ℕ, [], length, min, IfSome, IsTrue, MatchOption};
ghost use Rattle.pooma_domain.specs.Cells.{cells_of};
ghost use Rattle.pooma_layout.specs.Patches.{allocated_count, total_of};
ghost use Rattle.pooma_expr.specs.Trees.{depth_of, views_of};
ghost use Rattle.pooma_view.specs.Views.{Viewed};
ghost use Rattle.pooma_script.specs.declared.count.TheConstants.{CAP};
ghost use Rattle.pooma_script.specs.Known.{layout_named, named_at};
ghost use Rattle.pooma_script.specs.Statements.{joined};
ghost use Rattle.pooma_script.specs.Tests.{IsWithin, total_declared};
ghost use Rattle.pooma_script.specs.Trees.{tree_of};
ghost use Rattle.pooma_check.specs.Kept.{IsKept, known_of};
ghost use Rattle.pooma_check.specs.Measures.{allocated_by, old_reads};

use crate::known::Known;
use crate::measure::{is_tree_within_depth, reads_up_to};
use pooma_layout::Layout;
use pooma_parse::{RawAssign, RawExpr, RawLine};
use pooma_script::LimitName;
use pooma_script::count::{CAP, cells_in};
use pooma_script::names::Named;
use pooma_script::stencil::is_within_depth;
use pooma_text::Span;

/// The layout that a name names. None where it names none.
fn layout_named<'k>(known: &'k Known<'_>, text: &[u8], name: Span) -> Option<&'k Layout>
    ensures { MatchOption result (layout_named (known_of known.now) (named_at (known_of known.now) text.now name) ≡ [])
        (λ layout. layout.now ≡ layout_named (known_of known.now) (named_at (known_of known.now) text.now name)) }
{
    match known.names.named(text, name) {
        Some(Named::Layout(n)) => known.layouts.get(n),
        _ => None,
    }
}

/// Whether there are not too many arrays after the line.
pub fn has_few_arrays(known: &Known<'_>, text: &[u8], form: &RawLine) -> bool
    ensures { (number : ℕ) → IsTrue result ↔ IsWithin LimitName.Arrays number (known_of known.now) text.now form.now }
{
    match form {
        RawLine::Brick { .. } | RawLine::Array { .. } | RawLine::Field { .. } => known
            .draft
            .arrays()
            < 256,
        _ => known.draft.arrays() <= 256,
    }
}

/// How many cells all of an array over the named layout has. One where the name names no layout.
fn cells_over(known: &Known<'_>, text: &[u8], on: Span) -> u64
    ensures { result ≡ length (cells_of (total_of (layout_named (known_of known.now) (named_at (known_of known.now) text.now on)))) }
{
    match layout_named(known, text, on) {
        Some(layout) => layout.total().count(),
        None => 1,
    }
}

/// Whether the array that the line declares does not have too many cells.
pub fn has_few_cells(known: &Known<'_>, text: &[u8], form: &RawLine) -> bool
    ensures { IsTrue result ↔ IfSome (total_declared (known_of known.now) text.now form.now) (λ total. length (cells_of total) ≤ 4194304) }
{
    match form {
        RawLine::Brick { domain, .. } => cells_in(domain.as_slice()) <= 4_194_304,
        RawLine::Array { layout, .. } | RawLine::Field { layout, .. } => {
            cells_over(known, text, *layout) <= 4_194_304
        }
        _ => true,
    }
}

/// How many cells the patches of an array over the named layout allocate. One where the name names no layout.
fn allocated_over(known: &Known<'_>, text: &[u8], on: Span) -> u64
    ensures { result ≡ allocated_count (layout_named (known_of known.now) (named_at (known_of known.now) text.now on)) }
{
    match layout_named(known, text, on) {
        Some(layout) => layout.allocated_cells(),
        None => 1,
    }
}

/// How many cells the patches of the array that the line declares allocate, or `CAP` where they allocate more.
#[tactic(auto, using(crate::proofs::BrickCells::allocated_of_brick))]
fn allocated_by(known: &Known<'_>, text: &[u8], form: &RawLine) -> u64
    ensures { result ≡ min (allocated_by (known_of known.now) text.now form.now) CAP }
{
    match form {
        RawLine::Brick { domain, .. } => cells_in(domain.as_slice()),
        RawLine::Array { layout, .. } | RawLine::Field { layout, .. } => {
            allocated_over(known, text, *layout).min(CAP)
        }
        _ => 0,
    }
}

/// Whether the patches of all arrays do not allocate too many cells after the line.
pub fn allocates_few(known: &Known<'_>, text: &[u8], form: &RawLine) -> bool
    requires { IsKept known.now }
    ensures { (number : ℕ) → IsTrue result ↔ IsWithin LimitName.AllocatedCells number (known_of known.now) text.now form.now }
{
    known.allocated + allocated_by(known, text, form) <= 16_777_216
}

/// Whether the tree of an expression reads no more than 64 views.
fn tree_reads_few(known: &Known<'_>, text: &[u8], value: &RawExpr) -> bool
    ensures { IsTrue result ↔ (length (views_of (tree_of (known_of known.now) text.now value.now)) ≤ 64) }
{
    reads_up_to(known, text, value, 65) <= 64
}

/// How many views more an assignment reads than its value, and how much deeper it is.
fn old_reads(op: RawAssign) -> u32
    ensures value { result ≡ old_reads op }
    ensures few { result ≤ 1 }
{
    match op {
        RawAssign::Plain => 0,
        RawAssign::Add | RawAssign::Sub | RawAssign::Mul => 1,
    }
}

/// Whether the value of an assignment reads no more than 64 views, with its target's old numbers where it joins these.
fn joined_reads_few(known: &Known<'_>, text: &[u8], op: RawAssign, value: &RawExpr) -> bool
    ensures { (target : Viewed) → IsTrue result ↔ (length (views_of (joined op target (tree_of (known_of known.now) text.now value.now))) ≤ 64) }
{
    reads_up_to(known, text, value, 65) + old_reads(op) <= 64
}

/// Whether the statement on the line reads no more than 64 views.
pub fn reads_few(known: &Known<'_>, text: &[u8], form: &RawLine) -> bool
    ensures { (number : ℕ) → IsTrue result ↔ IsWithin LimitName.Views number (known_of known.now) text.now form.now }
{
    match form {
        RawLine::Assign { op, value, .. } => joined_reads_few(known, text, *op, value),
        RawLine::Scalar { value, .. } | RawLine::Reduce { value, .. } => {
            tree_reads_few(known, text, value)
        }
        _ => true,
    }
}

/// Whether the tree of an expression is no deeper than 256.
fn tree_is_shallow(known: &Known<'_>, text: &[u8], value: &RawExpr) -> bool
    ensures { IsTrue result ↔ (depth_of (tree_of (known_of known.now) text.now value.now) ≤ 256) }
{
    is_tree_within_depth(known, text, value, 256)
}

/// Whether the value of an assignment is a tree no deeper than 256.
fn joined_is_shallow(known: &Known<'_>, text: &[u8], op: RawAssign, value: &RawExpr) -> bool
    ensures { (target : Viewed) → IsTrue result ↔ (depth_of (joined op target (tree_of (known_of known.now) text.now value.now)) ≤ 256) }
{
    is_tree_within_depth(known, text, value, 256 - old_reads(op))
}

/// Whether the tree of the statement on the line, or the stencil's body, is no deeper than 256.
pub fn is_shallow(known: &Known<'_>, text: &[u8], form: &RawLine) -> bool
    ensures { (number : ℕ) → IsTrue result ↔ IsWithin LimitName.Depth number (known_of known.now) text.now form.now }
{
    match form {
        RawLine::Stencil { body, .. } => is_within_depth(body, 256),
        RawLine::Assign { op, value, .. } => joined_is_shallow(known, text, *op, value),
        RawLine::Scalar { value, .. } | RawLine::Reduce { value, .. } => {
            tree_is_shallow(known, text, value)
        }
        _ => true,
    }
}

/// Whether there are no more than four repeats inside one another after the line.
pub fn has_few_repeats(known: &Known<'_>, text: &[u8], form: &RawLine) -> bool
    ensures { (number : ℕ) → IsTrue result ↔ IsWithin LimitName.Repeats number (known_of known.now) text.now form.now }
{
    match form {
        RawLine::Repeat { .. } => known.draft.open_repeats() < 4,
        _ => known.draft.open_repeats() <= 4,
    }
}
