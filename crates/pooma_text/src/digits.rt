//! Numbers and their decimal digits.
ghost use Rattle.std.specs.Prelude.{◌≡◌, ◌≢◌, ◌^◌, ◌<◌, ◌++◌, [], pos, All, OnOk, OnErr, SomeIff};
ghost use Rattle.std.specs.Char.{IsAsciiDigit};
ghost use Rattle.std.specs.Fmt.{signed_decimal};
ghost use Rattle.pooma_text.specs.Number.{value_of};

use itoa::Buffer;
use std::alloc::{AllocError, Global};

/// The number that decimal digits stand for, or None where it is above 2^63 - 1. Leading zeros change nothing.
pub fn number(digits: &[u8]) -> Option<i64>
    requires some { digits.now ≢ [] }
    requires digits { All IsAsciiDigit digits.now }
    ensures { SomeIff result (value_of digits.now < 2 ^ 63) (pos (value_of digits.now)) }
{
    let mut value: u64 = 0;
    for digit in digits {
        value = value
            .checked_mul(10)?
            .checked_add(u64::from(*digit - b'0'))?;
    }
    i64::try_from(value).ok()
}

/// Appends the decimal text of a number, with `-` before a negative one. Want of memory leaves `out` as it was.
pub fn decimal(_alloc: Global, out: &mut Vec<u8>, value: i64) -> Result<(), AllocError>
    ensures ok { OnOk result (out.new.items ≡ out.old.items ++ signed_decimal value) }
    ensures err { OnErr result (out.new.items ≡ out.old.items) }
{
    let mut buffer = Buffer::new();
    out.extend_from_slice(buffer.format(value).as_bytes())
}
