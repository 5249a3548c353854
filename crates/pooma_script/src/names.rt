//! The names of a script.
ghost use Rattle.std.specs.Prelude.{◌≡◌, ◌++◌, ◌∷◌, [], None, OnOk, OnErr};
ghost use Rattle.std.specs.Map.{lookup};
ghost use Rattle.std.specs.Str.{bytes_eq};
ghost use Rattle.pooma_script.specs.Known.{named_in, is_new, is_layout, is_array, is_stencil, is_scalar};

use crate::part::part;
use indexmap::IndexMap;
use pooma_text::Span;
use std::alloc::{AllocError, Global};
use std::marker::Model;

/// What a name names: the thing of this kind that has this number, counted from 0 in order of declaration.
#[derive(Clone, Copy, Debug, PartialEq, Eq)]
pub enum Named {
    /// A layout with a name of its own. A brick's is none.
    Layout(usize),
    /// A brick, an array or a field.
    Array(u32),
    /// A stencil.
    Stencil(usize),
    /// A scalar, which further lines may give other numbers.
    Scalar(u32),
}

/// The names that lines declared, in this order, with what they name. A name is a part of the script.
#[derive(Debug, Drop)]
pub struct Names<'a> {
    entries: IndexMap<&'a [u8], Named>,
}

impl<'a> Model for Names<'a> {
    ghost use Rattle.std.specs.Prelude.{List, ℕ, map};
    ghost use Rattle.pooma_script.specs.declared.names.Named.{Named};

    ghost Value = { List (List ℕ × Named) };

    ghost view = { λ n. map (λ entry. (entry.0.now, entry.1)) n.entries.entries };
}

impl<'a> Names<'a> {
    /// No names. It takes no memory.
    pub fn new(alloc: Global) -> Names<'a>
        ensures { result ≡ [] }
    {
        Names {
            entries: IndexMap::new(alloc),
        }
    }

    /// What the name names. None where no line declared it.
    pub fn find(&self, name: &[u8]) -> Option<Named>
        ensures { result ≡ lookup (bytes_eq name.now) self.now }
    {
        self.entries.get(name).copied()
    }

    /// What the name at this part of a line names. None where no line declared it.
    pub fn named(&self, text: &[u8], name: Span) -> Option<Named>
        ensures { result ≡ named_in self.now text.now name }
    {
        self.find(part(text, name))
    }

    /// Notes what a new name names. After want of memory it is as before.
    pub fn declare(&mut self, _alloc: Global, name: &'a [u8], what: Named) -> Result<(), AllocError>
        requires { lookup (bytes_eq name.now) self.old ≡ None }
        ensures ok { OnOk result (self.new ≡ self.old ++ (name.now, what) ∷ []) }
        ensures err { OnErr result (self.new ≡ self.old) }
    {
        match self.entries.insert(name, what) {
            Ok(_) => Ok(()),
            Err(_) => Err(AllocError),
        }
    }
}

/// Whether a layout is named, which an array's declaration asks for.
pub fn is_layout(what: Option<Named>) -> bool
    ensures { result ≡ is_layout what }
{
    matches!(what, Some(Named::Layout(_)))
}

/// Whether an array is named: a brick, an array or a field.
pub fn is_array(what: Option<Named>) -> bool
    ensures { result ≡ is_array what }
{
    matches!(what, Some(Named::Array(_)))
}

/// Whether a stencil is named, which may be put on a view.
pub fn is_stencil(what: Option<Named>) -> bool
    ensures { result ≡ is_stencil what }
{
    matches!(what, Some(Named::Stencil(_)))
}

/// Whether a scalar is named, which has no brackets and no stencil on it.
pub fn is_scalar(what: Option<Named>) -> bool
    ensures { result ≡ is_scalar what }
{
    matches!(what, Some(Named::Scalar(_)))
}

/// Whether a name may be declared: no line before has it.
pub fn is_new(what: Option<Named>) -> bool
    ensures { result ≡ is_new what }
{
    what.is_none()
}
