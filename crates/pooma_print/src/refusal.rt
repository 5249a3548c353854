//! The text of a refusal.
ghost use Rattle.std.specs.Prelude.{◌≡◌, ◌++◌, IfOk, OnOk, OnErr};
ghost use Rattle.pooma_print.specs.Texts.{refusal_text};

use pooma_text::decimal;
use std::alloc::{AllocError, Global};

/// Appends the line that tells of the refusal of this line, for the cause of this text. Want of memory leaves `out` as it was.
pub fn refusal_text(
    alloc: Global,
    out: &mut Vec<u8>,
    line: u32,
    text: &[u8],
) -> Result<(), AllocError>
    ensures ok { OnOk result (out.new.items ≡ out.old.items ++ refusal_text line text.now) }
    ensures err { OnErr result (out.new.items ≡ out.old.items) }
{
    let whole = refusal_line(alloc, line, text)?;
    out.extend_from_slice(&whole)
}

fn refusal_line(alloc: Global, line: u32, text: &[u8]) -> Result<Vec<u8>, AllocError>
    ensures { IfOk result (λ whole. whole.items ≡ refusal_text line text.now) }
{
    let mut whole = Vec::from_slice(alloc, b"refused line ")?;
    decimal(alloc, &mut whole, i64::from(line))?;
    whole.extend_from_slice(b": ")?;
    whole.extend_from_slice(text)?;
    whole.push(b'\n')?;
    Ok(whole)
}
