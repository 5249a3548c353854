//! What no clause says: that the calls succeed, and what is read and held at the steps, limits and failing calls of some
//! tables.

use pooma_io::{
    Failed, MemorySink, MemorySource, ReadAllError, ReadSource, Sink, Source, SureSink, SureSource,
    WriteSink, read_all,
};
use std::alloc::{AllocError, Global};

const TEXT: &[u8] = b"brick A (0:3); A = 7;print A";

/// What `read_all` comes to: whether it answers the text, and how many bytes a second one finds behind it, where that one
/// does not fail.
type Read = (Result<bool, ReadAllError>, Option<usize>);

// What it comes to where the text is given in steps, and one call fails; none for 0.
fn answer(alloc: Global, step: usize, failing: u32, limit: usize) -> Result<Read, AllocError> {
    let bytes = Vec::from_slice(alloc, TEXT)?;
    let mut source = MemorySource::new(bytes, step.max(1), vec![in alloc; failing]?);
    let answer = match read_all(alloc, &mut source, limit) {
        Ok(read) => Ok(read.as_slice() == TEXT),
        Err(error) => Err(error),
    };
    match read_all(alloc, &mut source, 1000) {
        Ok(rest) => Ok((answer, Some(rest.len()))),
        Err(_) => Ok((answer, None)),
    }
}

// The bytes a call, the failing call, the limit, and what it comes to. At 7 bytes four calls take the text, and the fifth finds
// its end. Of too many bytes one past the limit is taken.
const ANSWERS: &[(usize, u32, usize, Read)] = &[
    (1, 0, 1000, (Ok(true), Some(0))),
    (3, 0, 1000, (Ok(true), Some(0))),
    (5, 0, 1000, (Ok(true), Some(0))),
    (7, 0, 28, (Ok(true), Some(0))),
    (100, 0, 28, (Ok(true), Some(0))),
    (7, 0, 27, (Err(ReadAllError::TooLong), Some(0))),
    (7, 0, 10, (Err(ReadAllError::TooLong), Some(17))),
    (1, 0, 0, (Err(ReadAllError::TooLong), Some(27))),
    (100, 0, 21, (Err(ReadAllError::TooLong), Some(6))),
    (7, 1, 28, (Err(ReadAllError::ReadFault), Some(28))),
    (7, 2, 28, (Err(ReadAllError::ReadFault), Some(21))),
    (7, 3, 28, (Err(ReadAllError::ReadFault), Some(14))),
    (7, 4, 28, (Err(ReadAllError::ReadFault), Some(7))),
    (7, 5, 28, (Err(ReadAllError::ReadFault), Some(0))),
    (7, 6, 28, (Ok(true), None)),
];

#[test]
fn a_source_is_read_whole_unless_a_call_fails(rt: HostRuntime) {
    for (step, failing, limit, expected) in ANSWERS {
        assert_eq!(rt;
            (step, failing, answer(rt.alloc(), *step, *failing, *limit)),
            (step, failing, Ok(*expected))
        );
    }
}

// What the calls of a sink of ten bytes take that takes four a call and fails at the second, and whether it holds these.
fn taken(alloc: Global) -> Result<([Result<usize, Failed>; 6], bool), AllocError> {
    let mut sink = MemorySink::new(alloc, 10, 4, vec![in alloc; 2]?)?;
    let calls = [
        sink.write(b"abcdef"),
        sink.write(b"ef"),
        sink.write(b"ef"),
        sink.write(b"ghijkl"),
        sink.write(b""),
        sink.write(b"kl"),
    ];
    Ok((calls, sink.held() == b"abcdefghij".as_slice()))
}

#[test]
fn a_sink_holds_what_its_calls_took(rt: HostRuntime) {
    let calls = [Ok(4), Err(Failed), Ok(2), Ok(4), Ok(0), Err(Failed)];
    assert!(rt; taken(rt.alloc()) == Ok((calls, true)));
}

// What is read and written in turn between sure ends, the last call one byte too many; and whether what was read first, and
// what is held at the end, are as they should be. None where the rest is not read.
fn between_sure_ends(
    alloc: Global,
) -> Result<Option<([Result<usize, Failed>; 4], [bool; 2])>, AllocError> {
    let mut source = SureSource::new(Vec::from_slice(alloc, TEXT)?);
    let mut sink = SureSink::new(alloc, 28)?;
    let mut buf = [0; 6];
    let read = source.read(&mut buf);
    let Ok(rest) = read_all(alloc, &mut source, 22) else {
        return Ok(None);
    };
    let calls = [read, sink.write(&buf), sink.write(&rest), sink.write(b"x")];
    let first = buf.as_slice() == b"brick ".as_slice();
    Ok(Some((calls, [first, sink.held() == TEXT])))
}

#[test]
fn sure_ends_give_and_take_all(rt: HostRuntime) {
    let calls = [Ok(6), Ok(6), Ok(22), Err(Failed)];
    assert!(rt; between_sure_ends(rt.alloc()) == Ok(Some((calls, [true, true]))));
}

// Whether a reader of std gives the text, and a writer takes it and holds it. None where it is not read.
fn by_std(alloc: Global) -> Option<(bool, Result<usize, Failed>, bool)> {
    let mut source = ReadSource::new(TEXT);
    let bytes = read_all(alloc, &mut source, 28).ok()?;
    let mut held = Vec::new(alloc);
    let mut sink = WriteSink::new(&mut held);
    let taken = sink.write(&bytes);
    Some((bytes.as_slice() == TEXT, taken, held.as_slice() == TEXT))
}

// What a writer of std with room for three bytes takes.
fn into_room() -> [Result<usize, Failed>; 3] {
    let mut room = [0; 3];
    let mut small = WriteSink::new(room.as_mut_slice());
    [small.write(b"abcd"), small.write(b"d"), small.write(b"")]
}

#[test]
fn a_reader_and_a_writer_of_std_are_ends_too(rt: HostRuntime) {
    assert!(rt; by_std(rt.alloc()) == Some((true, Ok(28), true)));
    assert!(rt; into_room() == [Ok(3), Err(Failed), Ok(0)]);
}
