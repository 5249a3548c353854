use pooma_io::{Sink, Source, SureSink, SureSource};
use pooma_top::{First, Picker, Status, top_one};
use std::alloc::{AllocError, Global};

/// How a run ended, and what it wrote.
#[derive(Debug, Drop)]
pub struct Ended {
    pub status: Status,
    pub text: Vec<u8>,
}

/// The words as the command line gives them.
pub fn words_of(alloc: Global, words: &[&str]) -> Result<Vec<String>, AllocError> {
    let mut all = Vec::new(alloc);
    for word in words {
        all.push(String::from_str(alloc, word)?)?;
    }
    Ok(all)
}

/// Runs with these words and this input, and with a sink that has room enough.
pub fn run(alloc: Global, words: &[&str], input: &[u8]) -> Result<Ended, AllocError> {
    run_picking(alloc, words, input, &mut First)
}

/// The same, where this picker chooses what is done next.
pub fn run_picking<P: Picker>(
    alloc: Global,
    words: &[&str],
    input: &[u8],
    picker: &mut P,
) -> Result<Ended, AllocError> {
    let words = words_of(alloc, words)?;
    let mut source = SureSource::new(Vec::from_slice(alloc, input)?);
    let mut sink = SureSink::new(alloc, 65_536)?;
    let status = top_one(alloc, &words, &mut source, &mut sink, picker);
    Ok(Ended {
        status,
        text: Vec::from_slice(alloc, sink.held())?,
    })
}

/// Appends some lines, of which semicolons are the ends.
pub fn push_lines(text: &mut Vec<u8>, lines: &str) -> Result<(), AllocError> {
    for byte in lines.bytes() {
        text.push(if byte == b';' { b'\n' } else { byte })?;
    }
    Ok(())
}

/// Runs with these words between a source and a sink.
pub fn run_between<S: Source, K: Sink>(
    alloc: Global,
    words: &[&str],
    source: &mut S,
    sink: &mut K,
) -> Result<Status, AllocError> {
    let words = words_of(alloc, words)?;
    Ok(top_one(alloc, &words, source, sink, &mut First))
}

/// The place of the first of some scripts that is not answered by the text beside it and with this status.
pub fn first_wrong(
    alloc: Global,
    words: &[&str],
    rows: &[(&[u8], &[u8])],
    status: Status,
) -> Result<Option<usize>, AllocError> {
    for (place, (input, text)) in rows.iter().enumerate() {
        if !is_answered(alloc, words, input, text, status)? {
            return Ok(Some(place));
        }
    }
    Ok(None)
}

// Whether the script is answered by this text and with this status.
fn is_answered(
    alloc: Global,
    words: &[&str],
    input: &[u8],
    text: &[u8],
    status: Status,
) -> Result<bool, AllocError> {
    let ended = run(alloc, words, input)?;
    Ok(ended.text.as_slice() == text && ended.status == status)
}
