//! How many views the tree of an expression reads and how deep it is, found without the tree.
ghost use Rattle.std.specs.Prelude.{◌≡◌, ◌≤◌, ◌↔◌, if◌then◌else◌, length, min, IsTrue, MatchOption};
ghost use Rattle.pooma_stencil.specs.Bodies.{body_depth, offsets_of};
ghost use Rattle.pooma_script.specs.Bodies.{no_stencil};
ghost use Rattle.pooma_script.specs.Known.{is_scalar, named_at, stencil_named};
ghost use Rattle.pooma_check.specs.Kept.{known_of};
ghost use Rattle.pooma_check.specs.Measures.{tree_depth, tree_reads};

use crate::known::Known;
use pooma_parse::RawExpr;
use pooma_script::names::{Named, is_scalar};
use pooma_stencil::Stencil;
use pooma_text::Span;

/// The stencil that a name names. None where it names none.
fn stencil_named<'k>(known: &'k Known<'_>, text: &[u8], name: Span) -> Option<&'k Stencil>
    ensures { MatchOption result (stencil_named (known_of known.now) (named_at (known_of known.now) text.now name) ≡ no_stencil)
        (λ stencil. stencil.now ≡ stencil_named (known_of known.now) (named_at (known_of known.now) text.now name)) }
{
    match known.names.named(text, name) {
        Some(Named::Stencil(n)) => known.stencils.get(n),
        _ => None,
    }
}

/// How many views a name reads: a scalar's none.
fn view_reads(known: &Known<'_>, text: &[u8], name: Span) -> u32
    ensures { result ≡ if is_scalar (named_at (known_of known.now) text.now name) then 0 else 1 }
{
    if is_scalar(known.names.named(text, name)) {
        0
    } else {
        1
    }
}

/// How many offsets the named stencil has, or `most` where it has more.
fn offsets_up_to(known: &Known<'_>, text: &[u8], name: Span, most: u32) -> u32
    ensures value { result ≡ min (length (offsets_of (stencil_named (known_of known.now) (named_at (known_of known.now) text.now name)).body)) most }
    ensures few { result ≤ most }
{
    match stencil_named(known, text, name) {
        Some(stencil) => stencil.body().offsets_up_to(most),
        None => 0,
    }
}

/// Whether the body of the named stencil is no deeper than this, where a leaf is 1.
fn is_body_within_depth(known: &Known<'_>, text: &[u8], name: Span, most: u32) -> bool
    ensures { IsTrue result ↔ (body_depth (stencil_named (known_of known.now) (named_at (known_of known.now) text.now name)).body ≤ most) }
{
    match stencil_named(known, text, name) {
        Some(stencil) => stencil.body().is_within_depth(most),
        None => most > 0,
    }
}

/// How many views the tree of an expression reads, or `most` where it reads more.
pub fn reads_up_to(known: &Known<'_>, text: &[u8], expr: &RawExpr, most: u32) -> u32
    ensures value { result ≡ min (tree_reads (known_of known.now) text.now expr.now) most }
    ensures few { result ≤ most }
{
    match expr {
        RawExpr::Number(_) | RawExpr::Index(_) | RawExpr::At(_) => 0,
        RawExpr::View(view) => view_reads(known, text, view.name).min(most),
        RawExpr::Apply { stencil, .. } => offsets_up_to(known, text, *stencil, most),
        RawExpr::Neg(a) | RawExpr::Abs(a) => reads_up_to(known, text, a.get(), most),
        RawExpr::Bin(_, a, b) => {
            let first = reads_up_to(known, text, a.get(), most);
            first + reads_up_to(known, text, b.get(), most - first)
        }
        RawExpr::Where(c, a, b) => {
            let first = reads_up_to(known, text, c.get(), most);
            let second = reads_up_to(known, text, a.get(), most - first);
            first + second + reads_up_to(known, text, b.get(), most - first - second)
        }
    }
}

/// Whether the tree of an expression is no deeper than this, where a leaf is 1.
pub fn is_tree_within_depth(known: &Known<'_>, text: &[u8], expr: &RawExpr, most: u32) -> bool
    ensures { IsTrue result ↔ (tree_depth (known_of known.now) text.now expr.now ≤ most) }
{
    if most == 0 {
        return false;
    }
    let below = most - 1;
    match expr {
        RawExpr::Number(_) | RawExpr::Index(_) | RawExpr::View(_) | RawExpr::At(_) => true,
        RawExpr::Apply { stencil, .. } => is_body_within_depth(known, text, *stencil, most),
        RawExpr::Neg(a) | RawExpr::Abs(a) => is_tree_within_depth(known, text, a.get(), below),
        RawExpr::Bin(_, a, b) => is_tree_within_depth(known, text, a.get(), below)
            && is_tree_within_depth(known, text, b.get(), below),
        RawExpr::Where(c, a, b) => {
            is_tree_within_depth(known, text, c.get(), below)
                && is_tree_within_depth(known, text, a.get(), below)
                && is_tree_within_depth(known, text, b.get(), below)
        }
    }
}
