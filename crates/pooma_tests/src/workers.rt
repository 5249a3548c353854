//! Scripts that several workers run: what they write is what one worker writes.
use crate::answers::{FAULTED, PRINTED};
use crate::run::{Ended, run, words_of};
use pooma_io::{SureSink, SureSource};
use pooma_top::{Gate, NoGate, Status, top};
use std::alloc::{AllocError, Global};
use std::sync::Wait;
use std::sync::atomic::{AtomicU64, Ordering};
use std::thread::Threads;

/// Runs with these words, this input and this gate, and with a sink that has room enough.
fn run_by<R: Threads + Wait + Sync, G: Gate + Sync>(
    rt: &R,
    alloc: Global,
    words: &[&str],
    input: &[u8],
    gate: &G,
) -> Result<Ended, AllocError> {
    let words = words_of(alloc, words)?;
    let mut source = SureSource::new(Vec::from_slice(alloc, input)?);
    let mut sink = SureSink::new(alloc, 65_536)?;
    let status = top(rt, alloc, &words, &mut source, &mut sink, gate);
    let text = Vec::from_slice(alloc, sink.held())?;
    Ok(Ended { status, text })
}

/// Whether it ends with this text and this status.
fn is_answered<R: Threads + Wait + Sync>(
    rt: &R,
    alloc: Global,
    words: &[&str],
    input: &[u8],
    answer: (&[u8], Status),
) -> Result<bool, AllocError> {
    let ended = run_by(rt, alloc, words, input, &NoGate)?;
    Ok(ended.text.as_slice() == answer.0 && ended.status == answer.1)
}

/// The place of the first of some scripts that so many workers answer otherwise.
fn first_wrong<R: Threads + Wait + Sync>(
    rt: &R,
    alloc: Global,
    workers: &str,
    rows: &[(&[u8], &[u8])],
    status: Status,
) -> Result<Option<usize>, AllocError> {
    for (place, (input, text)) in rows.iter().enumerate() {
        if !is_answered(rt, alloc, &["run", workers], input, (text, status))? {
            return Ok(Some(place));
        }
    }
    Ok(None)
}

#[test]
fn one_worker_answers_what_the_language_says(rt: HostRuntime) {
    let wrong = [
        first_wrong(&rt, rt.alloc(), "1", PRINTED, Status::Done),
        first_wrong(&rt, rt.alloc(), "1", FAULTED, Status::Faulted),
    ];
    assert!(rt; wrong == [Ok(None), Ok(None)], "{wrong:?}");
}

#[test]
fn two_workers_answer_what_one_does(rt: HostRuntime) {
    let wrong = [
        first_wrong(&rt, rt.alloc(), "2", PRINTED, Status::Done),
        first_wrong(&rt, rt.alloc(), "2", FAULTED, Status::Faulted),
    ];
    assert!(rt; wrong == [Ok(None), Ok(None)], "{wrong:?}");
}

#[test]
fn eight_workers_answer_what_one_does(rt: HostRuntime) {
    let wrong = [
        first_wrong(&rt, rt.alloc(), "8", PRINTED, Status::Done),
        first_wrong(&rt, rt.alloc(), "8", FAULTED, Status::Faulted),
    ];
    assert!(rt; wrong == [Ok(None), Ok(None)], "{wrong:?}");
}

// Words with the text and the status that they have on a script that prints, which `make` and `demo` do not read.
const BY_WORDS: &[(&[&str], &[u8], Status)] = &[
    (&["run", "64"], b"0 0 0 0\n", Status::Done),
    (&["check"], b"ok\n", Status::Done),
    (
        &["demo", "1", "2", "8"],
        b"387072\n387072\n624640\n",
        Status::Done,
    ),
    (
        &["demo", "1", "200", "8"],
        b"2052796\n1603420\n2297738\n",
        Status::Done,
    ),
    (&["run", "0"], b"", Status::Usage),
    (&["run", "65"], b"", Status::Usage),
    (&["run", "02"], b"", Status::Usage),
    (&["run", "+2"], b"", Status::Usage),
    (&["run", "4294967298"], b"", Status::Usage),
    (&["run"], b"", Status::Usage),
    (&["demo", "1", "2", "0"], b"", Status::Usage),
    (&["demo", "1", "2", "65"], b"", Status::Usage),
    (&["demo", "1", "2", "02"], b"", Status::Usage),
];

// The place of the first of the words that are answered otherwise.
fn first_otherwise<R: Threads + Wait + Sync>(
    rt: &R,
    alloc: Global,
) -> Result<Option<usize>, AllocError> {
    let script = b"brick A (0:3)\nprint A\n";
    for (place, (words, text, status)) in BY_WORDS.iter().enumerate() {
        if !is_answered(rt, alloc, words, script, (text, *status))? {
            return Ok(Some(place));
        }
    }
    Ok(None)
}

#[test]
fn up_to_64_workers_may_be_asked_for(rt: HostRuntime) {
    let wrong = first_otherwise(&rt, rt.alloc());
    assert!(rt; wrong == Ok(None), "{wrong:?}");
}

// How often a gate looks for the other before it gives up.
const LIMIT: u32 = 200_000_000;

// A gate at which the entries 0 and 1 wait for one another, and which notes where one gave up.
#[derive(Drop)]
struct Meeting {
    came: [AtomicU64; 2],
    missed: AtomicU64,
}

impl Gate for Meeting {
    fn before(&self, entry: u32) {
        if entry > 1 {
            return;
        }
        self.came[entry as usize].store(1, Ordering::SeqCst);
        for _ in 0..LIMIT {
            if self.came[1 - entry as usize].load(Ordering::SeqCst) == 1 {
                return;
            }
        }
        self.missed.store(1, Ordering::SeqCst);
    }
}

impl Meeting {
    // Whether both entries came, and neither gave up.
    fn met(&self) -> bool {
        let [first, second] = &self.came;
        let came = [first.load(Ordering::SeqCst), second.load(Ordering::SeqCst)];
        came == [1, 1] && self.missed.load(Ordering::SeqCst) == 0
    }
}

// Sets the two cells of an array by two workers whose works meet: whether both came to the gate and met, how the run ended, and
// how much it wrote.
fn meet<R: Threads + Wait + Sync>(
    rt: &R,
    alloc: Global,
) -> Result<(bool, Status, usize), AllocError> {
    let gate = Meeting {
        came: [AtomicU64::new(0), AtomicU64::new(0)],
        missed: AtomicU64::new(0),
    };
    let script = b"layout L (0:1) blocks (2)\narray A on L\nA = 1\n";
    let ended = run_by(rt, alloc, &["run", "2"], script, &gate)?;
    Ok((gate.met(), ended.status, ended.text.len()))
}

#[test]
fn the_works_of_two_workers_meet(rt: HostRuntime) {
    assert!(rt; meet(&rt, rt.alloc()) == Ok((true, Status::Done, 0)));
}

// Two statements of fifty iterates each, fifty times. In turn k the cell i of A is k * i, and 1 + 2 + .. + 50 = 1275, so the cell i
// of B ends as 1275 * (49 - i). These come to 1275 * 1225, and the last three of them are 2550, 1275 and 0.
const MANY: &[u8] =
    b"layout L (0:49) blocks (50)\narray A on L\narray B on L\nrepeat 50\nA += index(0)\nB += A[49:0:-1]\nend\nscalar s = sum(B)\nprint s\nprint B[47:49]\nprint A\n";

const MANY_TEXT: &[u8] = b"1561875\n2550 1275 0\n";

// Whether the bytes of one worker begin with what was counted, and 64 workers write them too, with the status of a run that is done.
fn many_by_many<R: Threads + Wait + Sync>(rt: &R, alloc: Global) -> Result<[bool; 2], AllocError> {
    let one = run(alloc, &["run", "1"], MANY)?;
    let answer = (one.text.as_slice(), Status::Done);
    Ok([
        one.text.starts_with(MANY_TEXT),
        is_answered(rt, alloc, &["run", "64"], MANY, answer)?,
    ])
}

#[test]
fn five_thousand_iterates_by_64_workers(rt: HostRuntime) {
    assert!(rt; many_by_many(&rt, rt.alloc()) == Ok([true, true]));
}
