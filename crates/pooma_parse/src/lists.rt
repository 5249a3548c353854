//! Lists of entries with commas between them, and the parts of a declaration that are made of them.
ghost use Rattle.std.specs.Prelude.{◌≡◌};
ghost use Rattle.pooma_parse.specs.Reader as reader;
ghost use Rattle.pooma_parse.specs.Reader.{Reads};

use crate::cursor::{Cursor, MOST_NUM};
use crate::error::LineError;
use crate::form::{RawCutting, RawList, Updater4};
use std::alloc::Global;

/// What the entries of a list are.
pub(crate) trait Entry {
    /// What an entry says.
    type Value: Drop;

    ghost use Rattle.pooma_parse.specs.Reader.{Reader, Reads};

    ghost reader: { Reader Self.Value };

    /// Reads one entry.
    fn read(alloc: Global, cursor: &mut Cursor<'_>) -> Result<Self::Value, LineError>
        ensures { Reads reader cursor.old result cursor.new };
}

/// An entry, and as many more as there are, each behind a comma.
#[tactic(auto, using(crate::proofs::Turns::entry_read), unfolding(crate::specs::Reader::read_listed, crate::specs::Reader::read_entries))]
pub(crate) fn listed<E: Entry>(
    alloc: Global,
    cursor: &mut Cursor<'_>,
) -> Result<RawList<E::Value>, LineError>
    ensures { Reads (reader.read_listed E.reader) cursor.old result cursor.new }
{
    let mut found = RawList::new(alloc);
    found.push(E::read(alloc, cursor)?)?;
    for _turn in 0..cursor.len() {
        if !cursor.eat_sign(b",") {
            return Ok(found);
        }
        found.push(E::read(alloc, cursor)?)?;
    }
    Ok(found)
}

/// `(`, a list, `)`
#[tactic(auto, unfolding(crate::specs::Reader::read_parens))]
pub(crate) fn in_parens<E: Entry>(
    alloc: Global,
    cursor: &mut Cursor<'_>,
) -> Result<RawList<E::Value>, LineError>
    ensures { Reads (reader.read_parens (reader.read_listed E.reader)) cursor.old result cursor.new }
{
    cursor.expect_sign(b"(")?;
    let found = listed::<E>(alloc, cursor)?;
    cursor.expect_sign(b")")?;
    Ok(found)
}

/// SMALL
pub(crate) struct Small;

impl Entry for Small {
    ghost use Rattle.pooma_parse.specs.Reader.{read_small};

    type Value = i32;

    ghost reader = { read_small };

    fn read(_alloc: Global, cursor: &mut Cursor<'_>) -> Result<i32, LineError> {
        cursor.small()
    }
}

/// INT
pub(crate) struct Int;

impl Entry for Int {
    ghost use Rattle.pooma_parse.specs.Reader.{read_int};

    type Value = i32;

    ghost reader = { read_int };

    fn read(_alloc: Global, cursor: &mut Cursor<'_>) -> Result<i32, LineError> {
        cursor.int()
    }
}

/// INT `:` INT
pub(crate) struct Range;

impl Entry for Range {
    ghost use Rattle.pooma_parse.specs.Reader.{read_range};

    type Value = (i32, i32);

    ghost reader = { read_range };

    #[tactic(auto, unfolding(crate::specs::Reader::read_range))]
    fn read(_alloc: Global, cursor: &mut Cursor<'_>) -> Result<(i32, i32), LineError> {
        let first = cursor.int()?;
        cursor.expect_sign(b":")?;
        let last = cursor.int()?;
        Ok((first, last))
    }
}

/// `(` `)`, or `(` INT { `,` INT } `)`
struct CutList;

impl Entry for CutList {
    ghost use Rattle.pooma_parse.specs.Reader.{read_cut_list};

    type Value = RawList<i32>;

    ghost reader = { read_cut_list };

    #[tactic(auto, unfolding(crate::specs::Reader::read_cut_list))]
    fn read(alloc: Global, cursor: &mut Cursor<'_>) -> Result<RawList<i32>, LineError> {
        cursor.expect_sign(b"(")?;
        if cursor.eat_sign(b")") {
            return Ok(RawList::new(alloc));
        }
        let cuts = listed::<Int>(alloc, cursor)?;
        cursor.expect_sign(b")")?;
        Ok(cuts)
    }
}

/// `constant` NUM, `constant` `-` NUM, `periodic`, `reflect`, `antireflect`, `extrapolate`
pub(crate) struct Updater;

impl Entry for Updater {
    ghost use Rattle.pooma_parse.specs.Reader.{read_updater};

    type Value = Updater4;

    ghost reader = { read_updater };

    #[tactic(auto, unfolding(crate::specs::Reader::read_updater))]
    fn read(_alloc: Global, cursor: &mut Cursor<'_>) -> Result<Updater4, LineError> {
        if cursor.eat_word(b"constant") {
            return Ok(Updater4::Constant(cursor.signed(MOST_NUM)?));
        }
        if cursor.eat_word(b"periodic") {
            return Ok(Updater4::Periodic);
        }
        if cursor.eat_word(b"reflect") {
            return Ok(Updater4::Reflect);
        }
        if cursor.eat_word(b"antireflect") {
            return Ok(Updater4::Antireflect);
        }
        if cursor.eat_word(b"extrapolate") {
            return Ok(Updater4::Extrapolate);
        }
        Err(LineError::Syntax)
    }
}

/// `blocks` SMALLS, or `cuts` `(` CUTLIST { `,` CUTLIST } `)`
#[tactic(auto, unfolding(crate::specs::Reader::read_cutting))]
pub fn cutting(alloc: Global, cursor: &mut Cursor<'_>) -> Result<RawCutting, LineError>
    ensures { Reads reader.read_cutting cursor.old result cursor.new }
{
    if cursor.eat_word(b"blocks") {
        return Ok(RawCutting::Blocks(in_parens::<Small>(alloc, cursor)?));
    }
    cursor.expect_word(b"cuts")?;
    Ok(RawCutting::Cuts(in_parens::<CutList>(alloc, cursor)?))
}

/// Guard layers behind their word, or none where the word doesn't come next.
#[tactic(auto, unfolding(crate::specs::Reader::read_layers))]
pub fn layers(
    alloc: Global,
    cursor: &mut Cursor<'_>,
    text: &[u8],
) -> Result<RawList<i32>, LineError>
    ensures { Reads (reader.read_layers text.now) cursor.old result cursor.new }
{
    if !cursor.eat_word(text) {
        return Ok(RawList::new(alloc));
    }
    in_parens::<Small>(alloc, cursor)
}
