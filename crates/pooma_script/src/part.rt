//! Parts of a line.
ghost use Rattle.std.specs.Prelude.{◌≡◌};
ghost use Rattle.pooma_text.specs.Lines.{text_at};

use pooma_text::Span;

/// The part of a line that a span is. What a span has beyond the line is left out.
pub fn part<'t>(text: &'t [u8], span: Span) -> &'t [u8]
    ensures { result.now ≡ text_at text.now span }
{
    if span.start > text.len() {
        return &[];
    }
    let rest = &text[span.start..];
    let len = span.end.saturating_sub(span.start);
    if len > rest.len() {
        return rest;
    }
    &rest[..len]
}
