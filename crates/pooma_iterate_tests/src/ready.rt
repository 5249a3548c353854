//! Ready numbers that an owner and a thief take.
use pooma_ready::{Ready, Thief};
use std::alloc::Global;
use std::sync::Wait;
use std::thread;
use std::thread::Threads;

// What is given after 5 and 6 were put: one to the thief, one to the owner, and none to either.
fn five_and_six<R: Wait>(rt: &R, alloc: Global) -> Option<[Option<u32>; 4]> {
    let mut ready = Ready::new(alloc).ok()?;
    ready.put(5).ok()?;
    ready.put(6).ok()?;
    let mut thief = ready.thief().ok()?;
    Some([thief.steal(rt), ready.take(), thief.steal(rt), ready.take()])
}

#[test]
fn a_thief_takes_first_what_was_put_first(rt: HostRuntime) {
    assert_eq!(rt;
        five_and_six(&rt, rt.alloc()),
        Some([Some(5), Some(6), None, None])
    );
}

// What the owner of a new deque is given before a number was put, and after each of two, and whether it has a thief.
fn alone(alloc: Global) -> Option<([Option<u32>; 4], bool)> {
    let mut ready = Ready::new(alloc).ok()?;
    let before = ready.take();
    ready.put(u32::MAX).ok()?;
    ready.put(u32::MAX).ok()?;
    let has_thief = ready.has_thief();
    Some((
        [before, ready.take(), ready.take(), ready.take()],
        has_thief,
    ))
}

#[test]
fn a_number_that_was_put_twice_is_given_twice(rt: HostRuntime) {
    assert_eq!(rt;
        alone(rt.alloc()),
        Some(([None, Some(u32::MAX), Some(u32::MAX), None], false))
    );
}

// Puts the numbers below `count` in order, and takes one after every third.
fn put_and_take(alloc: Global, ready: &mut Ready, count: u32) -> Option<Vec<u32>> {
    let mut given = Vec::new(alloc);
    for j in 0..count {
        ready.put(j).ok()?;
        if j % 3 == 0
            && let Some(taken) = ready.take()
        {
            given.push(taken).ok()?;
        }
    }
    Some(given)
}

// Tries so many times to steal.
fn steal_some<R: Wait>(rt: &R, alloc: Global, thief: &mut Thief, tries: u32) -> Option<Vec<u32>> {
    let mut given = Vec::new(alloc);
    for _ in 0..tries {
        match thief.steal(rt) {
            Some(stolen) => given.push(stolen).ok()?,
            None => thread::yield_now(),
        }
    }
    Some(given)
}

// Takes what is left, up to so many.
fn take_rest(alloc: Global, ready: &mut Ready, most: u32) -> Option<Vec<u32>> {
    let mut given = Vec::new(alloc);
    for _ in 0..most {
        let Some(taken) = ready.take() else {
            break;
        };
        given.push(taken).ok()?;
    }
    Some(given)
}

fn ascends(numbers: &[u32]) -> bool {
    numbers.is_sorted()
}

// What an owner and a thief in two threads were given, one list after the other, and whether each was given numbers that ascend.
fn by_two<R: Threads + Wait + Sync>(rt: &R, alloc: Global, count: u32) -> Option<(Vec<u32>, bool)> {
    let mut ready = Ready::new(alloc).ok()?;
    let mut thief = ready.thief().ok()?;
    let ((mut ready, given), stolen) = thread::join(
        rt,
        move || {
            let given = put_and_take(alloc, &mut ready, count);
            (ready, given)
        },
        move || steal_some(rt, alloc, &mut thief, count),
    );
    let rest = take_rest(alloc, &mut ready, count)?;
    let (mut all, stolen) = (given?, stolen?);
    all.extend_from_slice(&rest).ok()?;
    let in_order = ascends(&all) && ascends(&stolen);
    all.extend_from_slice(&stolen).ok()?;
    Some((all, in_order))
}

// Whether these are the numbers below `count`, each once.
fn each_once(numbers: &mut Vec<u32>, count: u32) -> bool {
    numbers.sort_unstable();
    numbers.iter().copied().eq(0..count)
}

// Whether each number was given once, and in order.
fn ends<R: Threads + Wait + Sync>(rt: &R, alloc: Global, count: u32) -> Option<(bool, bool)> {
    let (mut all, in_order) = by_two(rt, alloc, count)?;
    Some((each_once(&mut all, count), in_order))
}

#[test]
fn an_owner_and_a_thief_are_given_each_number_once(rt: HostRuntime) {
    assert_eq!(rt; ends(&rt, rt.alloc(), 20_000), Some((true, true)));
}
