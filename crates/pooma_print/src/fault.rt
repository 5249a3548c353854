//! The text of a fault.
ghost use Rattle.std.specs.Prelude.{◌≡◌, ◌++◌, map, IfOk, OnOk, OnErr};
ghost use Rattle.std.specs.Fmt.{signed_decimal};
ghost use Rattle.std.specs.List.{join_with_byte};
ghost use Rattle.pooma_model.specs.Texts.{fault_text, kind_text, place_text};
ghost use Rattle.pooma_print.specs.Texts.{place_of};

use crate::join::push_number;
use pooma_domain::Cell;
use pooma_num::FaultKind;
use pooma_text::decimal;
use std::alloc::{AllocError, Global};

/// Where a statement faulted.
#[derive(Clone, Copy, Debug)]
pub enum FaultPlace {
    /// At this position, the first at which it does.
    Position(Cell),
    /// Where the numbers of all positions are added up.
    Sum,
}

/// Appends the line that tells of a fault of a statement on this line. Want of memory leaves `out` as it was.
pub fn fault_text(
    alloc: Global,
    out: &mut Vec<u8>,
    line: u32,
    at: &FaultPlace,
    kind: FaultKind,
) -> Result<(), AllocError>
    ensures ok { OnOk result (out.new.items ≡ out.old.items ++ fault_text line (record { place = place_of at.now; kind = kind })) }
    ensures err { OnErr result (out.new.items ≡ out.old.items) }
{
    let text = fault_line(alloc, line, at, kind)?;
    out.extend_from_slice(&text)
}

fn fault_line(
    alloc: Global,
    line: u32,
    at: &FaultPlace,
    kind: FaultKind,
) -> Result<Vec<u8>, AllocError>
    ensures { IfOk result (λ text. text.items ≡ fault_text line (record { place = place_of at.now; kind = kind })) }
{
    let mut text = Vec::from_slice(alloc, b"fault line ")?;
    decimal(alloc, &mut text, i64::from(line))?;
    text.extend_from_slice(b" at ")?;
    push_place(alloc, &mut text, at)?;
    text.extend_from_slice(b": ")?;
    text.extend_from_slice(kind_name(kind))?;
    text.push(b'\n')?;
    Ok(text)
}

fn kind_name(kind: FaultKind) -> &'static [u8]
    ensures { result.now ≡ kind_text kind }
{
    match kind {
        FaultKind::Overflow => b"overflow",
        FaultKind::ZeroDivisor => b"zero divisor",
    }
}

// Appends a position in parentheses, or the word for a sum.
fn push_place(alloc: Global, out: &mut Vec<u8>, at: &FaultPlace) -> Result<(), AllocError>
    ensures { OnOk result (out.new.items ≡ out.old.items ++ place_text (place_of at.now)) }
{
    match at {
        FaultPlace::Position(p) => {
            out.push(b'(')?;
            push_position(alloc, out, p)?;
            out.push(b')')?;
        }
        FaultPlace::Sum => out.extend_from_slice(b"sum")?,
    }
    Ok(())
}

// Appends the numbers of a position, with a comma between each two.
fn push_position(alloc: Global, out: &mut Vec<u8>, p: &Cell) -> Result<(), AllocError>
    ensures { OnOk result (out.new.items ≡ out.old.items ++ join_with_byte 44 (map signed_decimal p.now)) }
{
    for n in 0..p.dims() {
        push_number(alloc, out, n, b',', i64::from(p.at(n)))?;
    }
    Ok(())
}
