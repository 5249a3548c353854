//! Scripts that ask for far more than there may be, or are hardly text.
use crate::run::{first_wrong, run};
use pooma_top::Status;
use std::alloc::{AllocError, Global};

/// Scripts that ask for too much.
const BEYOND: &[(&[u8], &[u8])] = &[
    (
        b"repeat 999999999\nrepeat 999999999\nrepeat 999999999\nrepeat 999999999\nblock\nend\nend\nend\nend\n",
        b"refused line 5: limit (statements)\n",
    ),
    (
        b"brick A (-999999999:999999999)\n",
        b"refused line 1: limit (coordinate)\n",
    ),
    (
        b"brick A (0:3)\nprint A[0:999999999:999999999]\n",
        b"refused line 2: outside\n",
    ),
    (
        b"brick A (0:3)\nA[3:-999999999:-999999999] = 1\n",
        b"refused line 2: outside\n",
    ),
    (
        b"brick A (0:3)\nprint A[999999999:0:-999999999]\n",
        b"refused line 2: outside\n",
    ),
    (
        b"brick A (0:3)\nprint A[0:999999999:0]\n",
        b"refused line 2: empty\n",
    ),
    (
        b"brick A (0:3)\nprint A[0:3:-999999999]\n",
        b"refused line 2: empty\n",
    ),
    (
        b"layout L (0:0) blocks (999999999)\n",
        b"refused line 1: empty\n",
    ),
    (
        b"layout L (0:0) blocks (1) internal (999999999)\n",
        b"refused line 1: limit (guards)\n",
    ),
    (
        b"stencil S lower (999999999) upper (0) = @(-999999999)\n",
        b"refused line 1: limit (extents)\n",
    ),
    (
        b"scalar a = index(999999999)\n",
        b"refused line 1: dimension\n",
    ),
];

#[test]
fn scripts_beyond_the_limits_are_refused(rt: HostRuntime) {
    let wrong = first_wrong(rt.alloc(), &["check"], BEYOND, Status::Refused);
    assert!(rt; wrong == Ok(None), "{wrong:?}");
}

/// Scripts that do little, though their numbers are large.
const LITTLE: &[(&[u8], &[u8])] = &[
    (
        b"repeat 999999999\nrepeat 999999999\nrepeat 999999999\nrepeat 999999999\nend\nend\nend\nend\n",
        b"",
    ),
    (
        b"brick A (0:3)\nprint A[3:3:999999999]\nprint A[0:3:999999999]\n",
        b"0\n0\n",
    ),
];

const REFUSED_AS_NONE: &[u8] = b"refused line 2: syntax\n";

const ACCEPTED: &[u8] = b"ok\n";

// Whether a line behind a brick is refused as none where it adds so many ones to a one.
fn sum_of_ones(alloc: Global, count: usize) -> Result<bool, AllocError> {
    let mut script = Vec::from_slice(alloc, b"brick A (0:3)\nscalar a = 1")?;
    for _ in 0..count {
        script.extend_from_slice(b" + 1")?;
    }
    script.push(b'\n')?;
    let ended = run(alloc, &["check"], &script)?;
    Ok(ended.status == Status::Refused && ended.text.as_slice() == REFUSED_AS_NONE)
}

#[test]
fn scripts_that_do_little_are_done(rt: HostRuntime) {
    let wrong = first_wrong(rt.alloc(), &["run", "1"], LITTLE, Status::Done);
    assert!(rt; wrong == Ok(None), "{wrong:?}");
}

#[test]
fn a_line_of_too_many_words_is_none(rt: HostRuntime) {
    let refused = sum_of_ones(rt.alloc(), 2_047);
    assert!(rt; refused == Ok(true), "{refused:?}");
}

// Whether a comment may hold every byte but the end of its line, whatever is to be done with the script.
fn comment_of_all_bytes(alloc: Global) -> Result<[bool; 2], AllocError> {
    let mut script = Vec::from_slice(alloc, b"#")?;
    for byte in 0..=255u8 {
        if byte != b'\n' {
            script.push(byte)?;
        }
    }
    script.push(b'\n')?;
    let done = run(alloc, &["run", "1"], &script)?;
    let checked = run(alloc, &["check"], &script)?;
    Ok([
        done.status == Status::Done && done.text.is_empty(),
        checked.status == Status::Done && checked.text.as_slice() == ACCEPTED,
    ])
}

#[test]
fn a_comment_holds_any_bytes(rt: HostRuntime) {
    let answered = comment_of_all_bytes(rt.alloc());
    assert!(rt; answered == Ok([true, true]), "{answered:?}");
}
