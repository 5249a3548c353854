//! The lines that are drawn.
ghost use Rattle.std.specs.Prelude.{◌≡◌, ◌<◌, ◌++◌, OnOk, decimal};
ghost use Rattle.pooma_maker.specs.Script.{line_of, with_end};

use pooma_text::decimal;
use std::alloc::{AllocError, Global};

/// How many kinds of line there are.
pub const KINDS: u32 = 6;

/// How many constants there are, from 0 on.
pub const CONSTANTS: u32 = 100;

/// Appends the line of a kind with this constant, and its end.
pub fn push_line(
    alloc: Global,
    out: &mut Vec<u8>,
    kind: u32,
    constant: u32,
) -> Result<(), AllocError>
    requires { kind < KINDS }
    ensures { OnOk result (out.new.items ≡ out.old.items ++ with_end (line_of kind constant)) }
{
    match kind {
        0 => out.extend_from_slice(b"A = (U[-1:62,0:63] + U[1:64,0:63]) % 1009\n"),
        1 => out.extend_from_slice(b"B[0:62:2,0:63] = A[1:63:2,0:63]\n"),
        2 => push_around(alloc, out, b"U = (A + B) % 997 + ", constant, b"\n"),
        3 => push_around(alloc, out, b"B = where(A < U, A, U + ", constant, b")\n"),
        4 => push_around(
            alloc,
            out,
            b"A += B[63:0:-1,0:63] % 101 + ",
            constant,
            b"\n",
        ),
        _ => push_around(
            alloc,
            out,
            b"U[0:31,0:63] = U[32:63,0:63] + ",
            constant,
            b"\n",
        ),
    }
}

// Appends a number with what stands before it and behind it.
fn push_around(
    alloc: Global,
    out: &mut Vec<u8>,
    before: &[u8],
    number: u32,
    behind: &[u8],
) -> Result<(), AllocError>
    ensures { OnOk result (out.new.items ≡ out.old.items ++ (before.now ++ decimal number ++ behind.now)) }
{
    out.extend_from_slice(before)?;
    decimal(alloc, out, i64::from(number))?;
    out.extend_from_slice(behind)
}
