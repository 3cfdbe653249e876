// A fabric filled to the brim and drained again.
use crate::bench::{Bench, acceptance};
use crate::course::{Course, queues};
use crate::rows::{No, Say};
use fabric::call::{Call, Done};
use fabric::packet::VirtualChannel;
use std::alloc::Global;
use std::collections::BTreeMap;
use std::process::Abort;
use std::test::*;

// Sender and receiver of each pair.
const PAIRS: [(u16, u16); 6] = [(0, 1), (0, 2), (1, 0), (1, 2), (2, 0), (2, 1)];

// The packets of a pair have the tags 0, 1, 2 and so on; by sender and receiver the next one, where it is not 0.
#[derive(Drop)]
struct Tags {
    next: BTreeMap<(u16, u16), u32>,
}

impl Tags {
    fn next(&self, u: u16, v: u16) -> u32 {
        self.next.get(&(u, v)).copied().unwrap_or(0)
    }

    fn count(&mut self, u: u16, v: u16) -> Result<(), Fail> {
        let tag = self.next.entry((u, v))?.or_insert(0);
        *tag = tag.saturating_add(1);
        Ok(())
    }
}

// A packet of each pair, or no room for it; how many came in.
fn admit_all(rt: &impl Abort, course: &mut Course, tags: &mut Tags) -> Result<u32, Fail> {
    let mut count = 0u32;
    for (u, v) in PAIRS {
        let said = course.admit(u, v, tags.next(u, v));
        if said == Ok(Say::Admitted) {
            tags.count(u, v)?;
            count = count.saturating_add(1);
        } else {
            assert!(rt; said == Err(No::For(33, u, v, 0)));
        }
    }
    Ok(count)
}

// A forward from each virtual channel; how many moved.
fn forward_all(heap: Global, course: &mut Course) -> Result<usize, Fail> {
    let calls: Vec<Call> = (0..96u16)
        .map(|x| Call::Forward(VirtualChannel(x)))
        .collect(heap)?;
    let answers = course.run(heap, &calls)?;
    Ok(
        answers
            .iter()
            .filter(|answer| matches!(answer, Ok(Done::Forwarded(_, _))))
            .count(),
    )
}

// A take from each virtual channel; how many went out, each the next of its pair.
fn take_all(rt: &impl Abort, course: &mut Course, tags: &mut Tags) -> Result<u32, Fail> {
    let mut count = 0u32;
    for x in 0..96u16 {
        if let Ok(Say::Taken(u, v, tag)) = course.take(x) {
            assert!(rt; tag == tags.next(u, v));
            tags.count(u, v)?;
            count = count.saturating_add(1);
        }
    }
    Ok(count)
}

// Rounds of a step and of forwarding, until neither moves a packet; then the steps moved 75. There are more rounds than that takes, so that what never stands still fails the test.
fn rounds<F: Fn(&mut Course, &mut Tags) -> Result<u32, Fail>>(
    rt: &impl Abort,
    heap: Global,
    course: &mut Course,
    most: u32,
    step: F,
) -> Result<Tags, Fail>
    requires { F.IsAlwaysCallable step }
{
    let mut tags = Tags {
        next: BTreeMap::new(heap),
    };
    let mut count = 0u32;
    for _ in 0..most {
        let more = step(course, &mut tags)?;
        count = count.saturating_add(more);
        if forward_all(heap, course)? == 0 && more == 0 {
            assert!(rt; count == 75);
            return Ok(tags);
        }
    }
    Err(Fail::new("not still"))
}

// Filled and drained: each packet came out once, and those of a pair in their order.
#[test]
fn filled_and_drained(rt: HostRuntime) -> Result<(), Fail> {
    let heap = rt.alloc();
    let bench = Bench::two_lanes(heap, 36)?;
    let mut course = Course::open(bench, acceptance(&rt, heap)?, 8, queues(heap, 96)?)?;
    let came = rounds(&rt, heap, &mut course, 40, |course, tags| {
        admit_all(&rt, course, tags)
    })?;
    let left = rounds(&rt, heap, &mut course, 60, |course, tags| {
        take_all(&rt, course, tags)
    })?;
    assert!(rt; came.next == left.next);
    course.closed(&rt, 0)?;
    Ok(())
}
