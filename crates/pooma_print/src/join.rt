//! Numbers with a separator between each two.
ghost use Rattle.std.specs.Prelude.{◌≡◌, ◌++◌, OnOk};
ghost use Rattle.pooma_print.specs.Texts.{joined_number};

use pooma_text::decimal;
use std::alloc::{AllocError, Global};

/// Appends the number of this place in a list, counted from 0: the first one alone, and each other one behind a separator.
pub fn push_number(
    alloc: Global,
    out: &mut Vec<u8>,
    place: usize,
    separator: u8,
    number: i64,
) -> Result<(), AllocError>
    ensures { OnOk result (out.new.items ≡ out.old.items ++ joined_number separator place number) }
{
    if place == 0 {
        return decimal(alloc, out, number);
    }
    out.push(separator)?;
    decimal(alloc, out, number)
}
