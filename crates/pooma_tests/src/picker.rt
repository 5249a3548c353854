//! What the picker of the program is asked.
use crate::run::run_picking;
use pooma_run::ListPicker;
use pooma_top::Status;
use std::alloc::{AllocError, Global};

// Each patch is set, and then again from the next one: so the third entry stands behind the first, and the fourth behind the second.
const SHIFTED: &[u8] =
    b"layout L (0:7) blocks (2)\narray A on L\nA = index(0)\nA[0:6:2] = A[1:7:2]\nprint A\n";

// The entries that may be done, and the place of the one that is picked, which is the last.
const QUESTIONS: &[(&[u32], usize)] = &[(&[0, 1], 1), (&[0, 3], 1), (&[0], 0), (&[2], 0)];

// Whether these questions were asked, each with its list and its answer.
fn asked_are(picker: &ListPicker, expected: &[(&[u32], usize)]) -> bool {
    for (k, (ready, answer)) in expected.iter().enumerate() {
        if k >= picker.questions() || picker.ready(k) != *ready || picker.answer(k) != *answer {
            return false;
        }
    }
    picker.questions() == expected.len()
}

// How the run ends, and whether it writes its text and asks these questions.
fn shifted(alloc: Global) -> Result<(Status, [bool; 2]), AllocError> {
    let mut picker = ListPicker::new(alloc, true);
    let ended = run_picking(alloc, &["run", "1"], SHIFTED, &mut picker)?;
    let written = ended.text.as_slice() == b"1 1 3 3 5 5 7 7\n".as_slice();
    Ok((ended.status, [written, asked_are(&picker, QUESTIONS)]))
}

#[test]
fn the_last_place_of_each_list(rt: HostRuntime) {
    assert!(rt; shifted(rt.alloc()) == Ok((Status::Done, [true, true])));
}
