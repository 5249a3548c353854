//! What the names of an expression name, and the axes that it asks for.
ghost use Rattle.std.specs.Prelude.{◌≡◌, ◌+◌, ◌^◌, ◌≤◌};
ghost use Rattle.pooma_script.specs.Trees.{axes_in, is_readable, names_fit};

use crate::names::{Named, Names, is_array, is_scalar, is_stencil};
use pooma_parse::{RawExpr, RawView};

/// Whether a view may read what its name names: an array, or without brackets a scalar.
fn is_readable(view: &RawView, what: Option<Named>) -> bool
    ensures { result ≡ is_readable view.now.subs what }
{
    match view.subs {
        None => is_array(what) || is_scalar(what),
        Some(_) => is_array(what),
    }
}

/// Whether each name of an expression names what it has to: a stencil is put on an array, and what is read is an array
/// or a scalar.
pub fn names_fit(names: &Names<'_>, text: &[u8], expr: &RawExpr) -> bool
    ensures { result ≡ names_fit names.now text.now expr.now }
{
    match expr {
        RawExpr::Number(_) | RawExpr::Index(_) | RawExpr::At(_) => true,
        RawExpr::View(view) => is_readable(view, names.named(text, view.name)),
        RawExpr::Apply { stencil, view } => {
            is_stencil(names.named(text, *stencil)) && is_array(names.named(text, view.name))
        }
        RawExpr::Neg(a) | RawExpr::Abs(a) => names_fit(names, text, a.get()),
        RawExpr::Bin(_, a, b) => names_fit(names, text, a.get()) && names_fit(names, text, b.get()),
        RawExpr::Where(c, a, b) => {
            names_fit(names, text, c.get())
                && names_fit(names, text, a.get())
                && names_fit(names, text, b.get())
        }
    }
}

/// How many axes there have to be, so that each `index` of the expression names one of them.
pub fn axes_in(expr: &RawExpr) -> u32
    ensures value { result ≡ axes_in expr.now }
    ensures few { result ≤ 2 ^ 31 }
{
    match expr {
        RawExpr::Number(_) | RawExpr::View(_) | RawExpr::Apply { .. } | RawExpr::At(_) => 0,
        RawExpr::Index(axis) => (*axis).max(0) as u32 + 1,
        RawExpr::Neg(a) | RawExpr::Abs(a) => axes_in(a.get()),
        RawExpr::Bin(_, a, b) => axes_in(a.get()).max(axes_in(b.get())),
        RawExpr::Where(c, a, b) => {
            let branches = axes_in(a.get()).max(axes_in(b.get()));
            axes_in(c.get()).max(branches)
        }
    }
}
