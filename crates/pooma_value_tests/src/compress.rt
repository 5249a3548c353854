//! Lists kept as one value or whole: what each call leaves, in either form.

use pooma_compress::Cells;
use std::alloc::{AllocError, Global};

// The three numbers, and whether they are kept as one. None where there are more or fewer.
fn three(cells: &Cells) -> Option<([i64; 3], bool)> {
    if cells.len() != 3 {
        return None;
    }
    Some(([cells.get(0), cells.get(1), cells.get(2)], cells.is_one()))
}

// A number that is three times there, written out.
fn written_out(alloc: Global, v: i64) -> Result<Option<([i64; 3], bool)>, AllocError> {
    let mut cells = Cells::one(v, 3);
    cells.expand(alloc)?;
    Ok(three(&cells))
}

#[test]
fn one_value_is_written_out(rt: HostRuntime) {
    assert!(rt; three(&Cells::one(7, 3)) == Some(([7; 3], true)));
    assert!(rt; written_out(rt.alloc(), 7) == Ok(Some(([7; 3], false))));
}

// Three times 4, of which the last is set to 5 and back, each time compressed: the first, a copy of it, the second, and a
// copy of that.
fn set_and_set_back(alloc: Global) -> Result<[Option<([i64; 3], bool)>; 4], AllocError> {
    let mut cells = Cells::one(4, 3);
    cells.expand(alloc)?;
    cells.set(2, 5);
    cells.compress();
    let first = three(&cells);
    let copy = three(&cells.copied(alloc)?);
    cells.set(2, 4);
    cells.compress();
    Ok([first, copy, three(&cells), three(&cells.copied(alloc)?)])
}

#[test]
fn only_equal_values_are_kept_as_one(rt: HostRuntime) {
    let apart = Some(([4, 4, 5], false));
    let equal = Some(([4; 3], true));
    assert!(rt; set_and_set_back(rt.alloc()) == Ok([apart, apart, equal, equal]));
}

// Whether no values are none, and whether they are kept as one when they are written out, and then compressed.
fn no_values(alloc: Global) -> Result<[bool; 3], AllocError> {
    let mut cells = Cells::one(1, 0);
    let is_empty = cells.is_empty();
    cells.expand(alloc)?;
    let whole = cells.is_one();
    cells.compress();
    Ok([is_empty, whole, cells.is_one()])
}

#[test]
fn no_values_are_kept_as_one(rt: HostRuntime) {
    assert!(rt; no_values(rt.alloc()) == Ok([true, false, true]));
}
