// Worked examples on the triangle that forwards clockwise.
use crate::bench::{Bench, acceptance};
use crate::course::{Course, check_course, queues, two_lane_course};
use crate::rows::{Ask, No, Say};
use fabric::queue::Queue;
use routing::pair::Pair;
use std::process::Abort;
use std::test::*;

// One packet from 0 to 2, on lane 1 from its second switch to its third; another finds the queue full.
const PASSAGE: [(Ask, Result<Say, No>); 6] = [
    (Ask::Admit(0, 2, 9), Ok(Say::Admitted)),
    (Ask::Admit(0, 1, 7), Err(No::For(33, 0, 1, 0))),
    (Ask::Forward(0), Ok(Say::Forwarded(6, 0))),
    (Ask::Forward(48), Ok(Say::Forwarded(8, 1))),
    (Ask::Forward(65), Ok(Say::Forwarded(5, 0))),
    (Ask::Take(40), Ok(Say::Taken(0, 2, 9))),
];

#[test]
fn one_packet(rt: HostRuntime) -> Result<(), Fail> {
    two_lane_course(&rt, rt.alloc(), &PASSAGE, 0)
}

// With one lane: three packets, each forwarded once. Then each waits for the queue of the next, and none is at its receiver.
const JAM: [(Ask, Result<Say, No>); 12] = [
    (Ask::Admit(0, 2, 1), Ok(Say::Admitted)),
    (Ask::Forward(0), Ok(Say::Forwarded(6, 0))),
    (Ask::Admit(1, 0, 2), Ok(Say::Admitted)),
    (Ask::Forward(16), Ok(Say::Forwarded(8, 0))),
    (Ask::Admit(2, 1, 3), Ok(Say::Admitted)),
    (Ask::Forward(32), Ok(Say::Forwarded(10, 0))),
    (Ask::Forward(48), Err(No::For(33, 0, 2, 2))),
    (Ask::Forward(64), Err(No::For(33, 1, 0, 2))),
    (Ask::Forward(80), Err(No::For(33, 2, 1, 2))),
    (Ask::Take(48), Err(No::For(34, 0, 2, 1))),
    (Ask::Take(64), Err(No::For(34, 1, 0, 1))),
    (Ask::Take(80), Err(No::For(34, 2, 1, 1))),
];

// The check refuses the plan with one lane, so the acceptance is that of the plan with two. Three packets still wait at the end, so every other queue is empty.
#[test]
fn jammed(rt: HostRuntime) -> Result<(), Fail> {
    let heap = rt.alloc();
    let bench = Bench::one_lane(heap, 36)?;
    match bench.accept(heap) {
        Ok(_) => return Err(Fail::new("accepted")),
        Err(fault) => assert!(rt; fault.number() == Some(25)),
    }
    check_course(&rt, heap, bench, acceptance(&rt, heap)?, &JAM, 3)
}

// Two packets in queue 16.
const TWO_WAIT: [(Ask, Result<Say, No>); 2] = [
    (Ask::Admit(1, 0, 5), Ok(Say::Admitted)),
    (Ask::Admit(1, 2, 6), Ok(Say::Admitted)),
];

// One packet goes through, and the queues beyond cannot be asked for.
const ALONG: [(Ask, Result<Say, No>); 7] = [
    (Ask::Forward(16), Err(No::Plain(32))),
    (Ask::Admit(1, 2, 7), Ok(Say::Admitted)),
    (Ask::Forward(96), Err(No::Plain(31))),
    (Ask::Take(96), Err(No::Plain(31))),
    (Ask::Forward(16), Ok(Say::Forwarded(8, 0))),
    (Ask::Forward(64), Ok(Say::Forwarded(5, 0))),
    (Ask::Take(40), Ok(Say::Taken(1, 2, 7))),
];

// The two packets wait in each queue from place 96 on, and nothing before.
fn check_beyond(rt: &impl Abort, queues: &[Queue]) -> Result<(), Fail> {
    for (k, queue) in queues.iter().enumerate() {
        match queue.first() {
            Some(packet) => assert!(rt;
                k >= 96 && packet.pair == Pair::of(1, 0) && packet.tag == 5
            ),
            None => assert!(rt; k < 96),
        }
    }
    assert!(rt; queues.len() == 100);
    Ok(())
}

// Tables that are longer than needed: the queues beyond those of the rack keep what they hold, and do not count.
#[test]
fn queues_beyond(rt: HostRuntime) -> Result<(), Fail> {
    let heap = rt.alloc();
    let bench = Bench::two_lanes(heap, 40)?;
    let mut course = Course::open(bench, acceptance(&rt, heap)?, 2, queues(heap, 100)?)?;
    course.rows(&rt, &TWO_WAIT)?;
    let Course {
        bench,
        mut queues,
        ..
    } = course;
    // every queue holds two packets
    if let Some(queue) = queues.get(16).copied() {
        queues.fill(queue);
    }
    let mut course = Course::open(bench, acceptance(&rt, heap)?, 8, queues)?;
    course.rows(&rt, &ALONG)?;
    let queues = course.closed(&rt, 0)?;
    check_beyond(&rt, &queues)
}
