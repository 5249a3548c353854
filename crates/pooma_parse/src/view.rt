//! Views of arrays, as they are written.
ghost use Rattle.std.specs.Prelude.{◌≡◌};
ghost use Rattle.pooma_parse.specs.Reader as reader;
ghost use Rattle.pooma_parse.specs.Reader.{Reads};

use crate::cursor::Cursor;
use crate::error::LineError;
use crate::form::{RawList, RawSub, RawView};
use crate::lists::{Entry, listed};
use std::alloc::Global;

/// `:` INT, or 1 where no colon comes next.
#[tactic(auto, unfolding(crate::specs::Reader::read_stride))]
fn stride(cursor: &mut Cursor<'_>) -> Result<i32, LineError>
    ensures { Reads reader.read_stride cursor.old result cursor.new }
{
    if !cursor.eat_sign(b":") {
        return Ok(1);
    }
    cursor.int()
}

/// INT, or INT `:` INT, or INT `:` INT `:` INT
struct Sub;

impl Entry for Sub {
    ghost use Rattle.pooma_parse.specs.Reader.{read_sub};

    type Value = RawSub;

    ghost reader = { read_sub };

    #[tactic(auto, unfolding(crate::specs::Reader::read_sub))]
    fn read(_alloc: Global, cursor: &mut Cursor<'_>) -> Result<RawSub, LineError> {
        let first = cursor.int()?;
        if !cursor.eat_sign(b":") {
            return Ok(RawSub::At(first));
        }
        let last = cursor.int()?;
        let stride = stride(cursor)?;
        Ok(RawSub::Range(first, last, stride))
    }
}

/// `[` SUB { `,` SUB } `]`, or nothing where no bracket comes next.
#[tactic(auto, unfolding(crate::specs::Reader::read_brackets))]
pub fn brackets(
    alloc: Global,
    cursor: &mut Cursor<'_>,
) -> Result<Option<RawList<RawSub>>, LineError>
    ensures { Reads reader.read_brackets cursor.old result cursor.new }
{
    if !cursor.eat_sign(b"[") {
        return Ok(None);
    }
    let subs = listed::<Sub>(alloc, cursor)?;
    cursor.expect_sign(b"]")?;
    Ok(Some(subs))
}

/// NAME, or NAME `[` SUB { `,` SUB } `]`
#[tactic(auto, unfolding(crate::specs::Reader::read_view))]
pub fn view(alloc: Global, cursor: &mut Cursor<'_>) -> Result<RawView, LineError>
    ensures { Reads reader.read_view cursor.old result cursor.new }
{
    let name = cursor.name()?;
    let subs = brackets(alloc, cursor)?;
    Ok(RawView { name, subs })
}
