use pooma_queue::{Mode, Queue};
use std::alloc::{AllocError, Global};

// The places of a write and of a read that is asked for behind it, whether the write is granted, and what blocks the read.
fn write_and_read(alloc: Global) -> Result<([usize; 2], bool, Option<u32>), AllocError> {
    let mut queue = Queue::new(alloc);
    queue.reserve(alloc, 2)?;
    let write = queue.push(alloc, 0, Mode::Write)?;
    let read = queue.push(alloc, 1, Mode::Read)?;
    Ok(([write, read], queue.granted(0), queue.blocker(1)))
}

#[test]
fn a_read_waits_for_the_write_before_it(rt: HostRuntime) {
    assert!(rt; write_and_read(rt.alloc()) == Ok(([0, 1], true, Some(0))));
}

// How many requests the front has before and after the first write of a write, two reads, a write and a read is released, and
// the first entry then.
fn fronts(alloc: Global) -> Result<(usize, usize, Option<u32>), AllocError> {
    let mut queue = Queue::new(alloc);
    queue.push(alloc, 0, Mode::Write)?;
    queue.push(alloc, 1, Mode::Read)?;
    queue.push(alloc, 2, Mode::Read)?;
    queue.push(alloc, 3, Mode::Write)?;
    queue.push(alloc, 4, Mode::Read)?;
    let before = queue.front().len();
    queue.release_entry(0);
    let front = queue.front();
    let first = match front {
        [first, ..] => Some(first.entry),
        [] => None,
    };
    Ok((before, front.len(), first))
}

#[test]
fn the_front_ends_with_the_first_open_write(rt: HostRuntime) {
    assert!(rt; fronts(rt.alloc()) == Ok((1, 3, Some(1))));
}
