//! Made scripts: what is written of them, and that nothing is read for them.
use crate::run::run_between;
use pooma_io::{MemorySource, SureSink};
use pooma_top::Status;
use std::alloc::{AllocError, Global};

// Words that ask for a made script, with what they write. The sums are taken from a second reading of the language.
const MADE: &[(&[&str], &[u8])] = &[
    (
        &["make", "1", "2"],
        b"layout L (0:63,0:63) blocks (4,4) internal (1,1) external (1,1)\narray A on L\narray B on L\nfield U on L faces periodic, periodic, reflect, reflect\nA = index(0) + 2 * index(1)\nU = index(0) * index(1) % 17\nU = (A + B) % 997 + 58\nB = where(A < U, A, U + 15)\nscalar t = sum(A)\nprint t\nscalar t = sum(B)\nprint t\nscalar t = sum(U)\nprint t\n",
    ),
    (
        &["make", "0", "2"],
        b"layout L (0:63,0:63) blocks (4,4) internal (1,1) external (1,1)\narray A on L\narray B on L\nfield U on L faces periodic, periodic, reflect, reflect\nA = index(0) + 2 * index(1)\nU = index(0) * index(1) % 17\nA = (U[-1:62,0:63] + U[1:64,0:63]) % 1009\nA += B[63:0:-1,0:63] % 101 + 17\nscalar t = sum(A)\nprint t\nscalar t = sum(B)\nprint t\nscalar t = sum(U)\nprint t\n",
    ),
    (&["demo", "1", "2", "1"], b"387072\n387072\n624640\n"),
    (&["demo", "1", "200", "1"], b"2052796\n1603420\n2297738\n"),
    (&["demo", "0", "60", "1"], b"2084128\n1631332\n2555564\n"),
];

// Whether these words are done and write this text, between a source whose first read fails and a sink with room enough.
fn is_made(alloc: Global, words: &[&str], text: &[u8]) -> Result<bool, AllocError> {
    let failing = vec![in alloc; 1u32]?;
    let mut source = MemorySource::new(Vec::new(alloc), 1, failing);
    let mut sink = SureSink::new(alloc, 4_096)?;
    let status = run_between(alloc, words, &mut source, &mut sink)?;
    Ok(status == Status::Done && sink.held() == text)
}

// The place of the first of the words that are answered otherwise.
fn first_unmade(alloc: Global) -> Result<Option<usize>, AllocError> {
    for (place, (words, text)) in MADE.iter().enumerate() {
        if !is_made(alloc, words, text)? {
            return Ok(Some(place));
        }
    }
    Ok(None)
}

#[test]
fn made_scripts_are_written_and_run(rt: HostRuntime) {
    let wrong = first_unmade(rt.alloc());
    assert!(rt; wrong == Ok(None), "{wrong:?}");
}
