//! Runs of drawn scripts, in the order of the last places.
use crate::run::{push_lines, run_picking};
use pooma_run::ListPicker;
use pooma_top::Status;
use std::alloc::{AllocError, Global};

// Whether a script of a table writes what stands behind it, and ends with this status.
fn is_answered(alloc: Global, row: &str, status: Status) -> Result<bool, AllocError> {
    let mut script = Vec::new(alloc);
    let mut text = Vec::new(alloc);
    for line in row.split('\n') {
        match line.strip_prefix("> ") {
            Some(written) => push_lines(&mut text, written)?,
            None => push_lines(&mut script, line)?,
        }
    }
    let mut picker = ListPicker::new(alloc, true);
    let ended = run_picking(alloc, &["run", "1"], &script, &mut picker)?;
    Ok(ended.status == status && ended.text == text)
}

/// The place of the first script of a table that is answered otherwise, or not with this status.
///
/// A blank line stands between the scripts. Behind each one, with `> ` before it, stands what it writes. The line ends of both are
/// the semicolons.
pub fn first_otherwise(
    alloc: Global,
    table: &str,
    status: Status,
) -> Result<Option<usize>, AllocError> {
    for (place, row) in table.split("\n\n").enumerate() {
        if !is_answered(alloc, row, status)? {
            return Ok(Some(place));
        }
    }
    Ok(None)
}
