//! What the names of a line name: an array that is read, or a stencil.
ghost use Rattle.std.specs.Prelude.{◌≡◌, IsTrue};
ghost use Rattle.std.specs.Option.{option_copied};
ghost use Rattle.pooma_script.specs.Known.{is_array, is_stencil, named_at, stencil_named};
ghost use Rattle.pooma_script.specs.Views.{reading_of};
ghost use Rattle.pooma_check.specs.Kept.{IsKept, known_of};

use crate::known::Known;
use pooma_parse::{RawSub, RawView};
use pooma_script::names::Named;
use pooma_script::reading::Reading;
use pooma_stencil::Stencil;
use pooma_text::Span;

/// What stands in a view's brackets, where it has any.
fn written_in(seen: &RawView) -> Option<&[RawSub]>
    ensures { option_copied result ≡ seen.now.subs }
{
    match &seen.subs {
        Some(subs) => Some(subs.as_slice()),
        None => None,
    }
}

/// What the array of this name is read by: these SUBs, or where there are none its bare name, by a stencil or without.
pub fn reading_of_name<'a>(
    known: &Known<'_>,
    text: &[u8],
    stencil: Option<&'a Stencil>,
    name: Span,
    written: Option<&'a [RawSub]>,
) -> Reading<'a>
    requires kept { IsKept known.now }
    requires array { IsTrue (is_array (named_at (known_of known.now) text.now name)) }
    ensures { result ≡ reading_of (known_of known.now) text.now (option_copied stencil.entry) (record { name = name; subs = option_copied written.entry }) }
{
    let Some(Named::Array(array)) = known.names.named(text, name) else {
        unreachable!();
    };
    Reading::new(array, known.draft.shape(array), stencil, written)
}

/// What a view of a line reads, by a stencil or without. Its name is an array's.
pub fn reading_at<'a>(
    known: &Known<'_>,
    text: &[u8],
    stencil: Option<&'a Stencil>,
    seen: &'a RawView,
) -> Reading<'a>
    requires kept { IsKept known.now }
    requires array { IsTrue (is_array (named_at (known_of known.now) text.now seen.now.name)) }
    ensures { result ≡ reading_of (known_of known.now) text.now (option_copied stencil.entry) seen.now }
{
    reading_of_name(known, text, stencil, seen.name, written_in(seen))
}

/// The stencil of this name. The name is a stencil's.
pub fn stencil_at<'a>(known: &'a Known<'_>, text: &[u8], name: Span) -> &'a Stencil
    requires kept { IsKept known.now }
    requires stencil { IsTrue (is_stencil (named_at (known_of known.now) text.now name)) }
    ensures { result.now ≡ stencil_named (known_of known.now) (named_at (known_of known.now) text.now name) }
{
    let Some(Named::Stencil(n)) = known.names.named(text, name) else {
        unreachable!();
    };
    let Some(stencil) = known.stencils.get(n) else {
        unreachable!();
    };
    stencil
}
