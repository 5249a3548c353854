//! A text as its lines.
ghost use Rattle.std.specs.Prelude.{◌≡◌, All, IfOk, map};
ghost use Rattle.pooma_text.specs.Lines.{AreLines, IsPart, lines_of, spans_from, text_at};

use crate::span::Span;
use std::alloc::{AllocError, Global};

/// The lines of a text in order, each as the part of the text between its neighbouring line ends.
///
/// The byte 10 ends a line and belongs to none. Where nothing follows the last one, no line does.
/// The only error is want of memory.
pub fn lines(alloc: Global, bytes: &[u8]) -> Result<Vec<Span>, AllocError>
    ensures texts { IfOk result (λ spans. map (text_at bytes.now) spans.items ≡ lines_of bytes.now) }
    ensures places { IfOk result (λ spans. spans.items ≡ spans_from 0 (lines_of bytes.now)) }
    ensures parts { IfOk result (λ spans. All (IsPart bytes.now) spans.items) }
    // No other lines make up the text.
    ensures cut { AreLines bytes.now (lines_of bytes.now) }
{
    let mut spans = Vec::new(alloc);
    let mut start = 0;
    for (at, byte) in bytes.iter().enumerate() {
        if *byte == b'\n' {
            spans.push(Span { start, end: at })?;
            start = at + 1;
        }
    }
    if start < bytes.len() {
        spans.push(Span {
            start,
            end: bytes.len(),
        })?;
    }
    Ok(spans)
}
