// Every refusal of the fabric, with its number, its pair and its hop.
use crate::bench::{Bench, acceptance};
use crate::course::{Course, queues, two_lane_course};
use crate::rows::{Ask, No, Say};
use checking::acceptance::Acceptance;
use fabric::fabric::Fabric;
use std::alloc::Global;
use std::process::Abort;
use std::test::*;

// At depth 1: pairs that are not two different hosts, virtual channels that are none, empty and full queues, packets that are not where they should be, and levels.
const CALLS: [(Ask, Result<Say, No>); 36] = [
    (Ask::Admit(0, 0, 1), Err(No::For(30, 0, 0, 0))),
    (Ask::Admit(3, 0, 1), Err(No::For(30, 3, 0, 0))),
    (Ask::Admit(0, 3, 1), Err(No::For(30, 0, 3, 0))),
    (Ask::Admit(6, 0, 1), Err(No::For(30, 6, 0, 0))),
    (Ask::Admit(0, 6, 1), Err(No::For(30, 0, 6, 0))),
    (Ask::Admit(0, 65535, 1), Err(No::For(30, 0, 65535, 0))),
    (Ask::Forward(96), Err(No::Plain(31))),
    (Ask::Take(96), Err(No::Plain(31))),
    (Ask::Forward(65535), Err(No::Plain(31))),
    (Ask::Take(65535), Err(No::Plain(31))),
    (Ask::Forward(95), Err(No::Plain(32))),
    (Ask::Take(95), Err(No::Plain(32))),
    // 0 to 2 on hop 0, then on hop 1 with 0 to 1 behind it
    (Ask::Admit(0, 2, 1), Ok(Say::Admitted)),
    (Ask::Admit(0, 2, 2), Err(No::For(33, 0, 2, 0))),
    (Ask::Admit(0, 1, 2), Err(No::For(33, 0, 1, 0))),
    (Ask::Take(0), Err(No::For(34, 0, 2, 0))),
    (Ask::Forward(0), Ok(Say::Forwarded(6, 0))),
    (Ask::Forward(0), Err(No::Plain(32))),
    (Ask::Take(48), Err(No::For(34, 0, 2, 1))),
    (Ask::Admit(0, 1, 2), Ok(Say::Admitted)),
    (Ask::Forward(0), Err(No::For(33, 0, 1, 1))),
    // 0 to 2 on hop 3, at its receiver, with 1 to 2 behind it
    (Ask::Forward(48), Ok(Say::Forwarded(8, 1))),
    (Ask::Forward(65), Ok(Say::Forwarded(5, 0))),
    (Ask::Forward(40), Err(No::For(34, 0, 2, 3))),
    (Ask::Admit(1, 2, 3), Ok(Say::Admitted)),
    (Ask::Forward(16), Ok(Say::Forwarded(8, 0))),
    (Ask::Forward(64), Err(No::For(33, 1, 2, 2))),
    (Ask::Take(40), Ok(Say::Taken(0, 2, 1))),
    (Ask::Forward(64), Ok(Say::Forwarded(5, 0))),
    // a level above 15 is told before the queue is looked at, and 15 is a level
    (Ask::Level(1, 16), Ok(Say::Written)),
    (Ask::Level(6, 255), Ok(Say::Written)),
    (Ask::Level(12, 15), Ok(Say::Written)),
    (Ask::Admit(0, 1, 4), Err(No::For(26, 0, 1, 0))),
    (Ask::Admit(0, 2, 4), Err(No::For(33, 0, 2, 0))),
    (Ask::Admit(1, 0, 4), Err(No::For(26, 1, 0, 0))),
    (Ask::Admit(2, 0, 4), Ok(Say::Admitted)),
];

#[test]
fn of_calls(rt: HostRuntime) -> Result<(), Fail> {
    two_lane_course(&rt, rt.alloc(), &CALLS, 3)
}

// The source or the map is wrong at the next hop of a packet from 0 to 2.
const NEXT_HOPS: [(Ask, Result<Say, No>); 20] = [
    (Ask::Admit(0, 2, 1), Ok(Say::Admitted)),
    // 3 has no entry for host 2, one with a channel out of 4, one with what is no channel
    (Ask::Entry(20, 0), Ok(Say::Written)),
    (Ask::Forward(0), Err(No::For(20, 0, 2, 1))),
    (Ask::Entry(20, 9), Ok(Say::Written)),
    (Ask::Forward(0), Err(No::For(21, 0, 2, 1))),
    (Ask::Entry(20, 13), Ok(Say::Written)),
    (Ask::Forward(0), Err(No::For(21, 0, 2, 1))),
    (Ask::Entry(20, 7), Ok(Say::Written)),
    // lane 2 in the turn from channel 0 to channel 6, and a byte that is no lane
    (Ask::Lane(16, 2), Ok(Say::Written)),
    (Ask::Forward(0), Err(No::For(24, 0, 2, 1))),
    (Ask::Lane(16, 255), Ok(Say::Written)),
    (Ask::Forward(0), Err(No::For(24, 0, 2, 1))),
    (Ask::Lane(16, 0), Ok(Say::Written)),
    (Ask::Forward(0), Ok(Say::Forwarded(6, 0))),
    // lane 7 in the turn from channel 6 to channel 8
    (Ask::Lane(3488, 7), Ok(Say::Written)),
    (Ask::Forward(48), Err(No::For(24, 0, 2, 2))),
    // 4 sends the packet to its own host, where it can neither go on nor be taken
    (Ask::Entry(26, 4), Ok(Say::Written)),
    (Ask::Forward(48), Ok(Say::Forwarded(3, 0))),
    (Ask::Forward(24), Err(No::For(34, 0, 2, 2))),
    (Ask::Take(24), Err(No::For(34, 0, 2, 2))),
];

#[test]
fn of_next_hops(rt: HostRuntime) -> Result<(), Fail> {
    two_lane_course(&rt, rt.alloc(), &NEXT_HOPS, 1)
}

// What a call is asked with, and the number of its refusal.
#[derive(Clone, Copy)]
struct Start {
    // the lane count
    count: u8,
    // the places of the path table and of the queues
    levels: usize,
    places: usize,
    number: u8,
}

// Nothing is wrong with these; the number is that of a depth that is.
const FITTING: Start = Start {
    count: 2,
    levels: 36,
    places: 96,
    number: 10,
};

// The lane count is told first.
const STARTS: [Start; 5] = [
    Start {
        count: 0,
        ..FITTING
    },
    Start {
        count: 9,
        ..FITTING
    },
    Start {
        count: 9,
        levels: 35,
        places: 95,
        number: 10,
    },
    Start {
        levels: 35,
        number: 9,
        ..FITTING
    },
    Start {
        places: 95,
        number: 9,
        ..FITTING
    },
];

impl Start {
    fn bench(self, heap: Global) -> Result<Bench, Fail> {
        let mut bench = Bench::one_lane(heap, self.levels)?;
        bench.count = self.count;
        Ok(bench)
    }
}

// Not opened, and the acceptance comes back. `not_started` has the same match, over another call and with another type that comes back; one function for both would take three closures.
fn not_opened(
    rt: &impl Abort,
    heap: Global,
    acceptance: Acceptance,
    depth: u8,
    start: Start,
) -> Result<Acceptance, Fail> {
    let bench = start.bench(heap)?;
    let mut queues = queues(heap, start.places)?;
    match bench.open(acceptance, depth, &mut queues) {
        Ok(_) => Err(Fail::new("opened")),
        Err(not) => {
            assert!(rt; No::from(not.fault) == No::Plain(start.number));
            Ok(not.acceptance)
        }
    }
}

// No call on the fabric starts; it is not closed, and comes back.
fn not_started(
    rt: &impl Abort,
    heap: Global,
    fabric: Fabric,
    start: Start,
) -> Result<Fabric, Fail> {
    let told = No::Plain(start.number);
    let rows = [
        (Ask::Admit(0, 0, 1), Err(told)),
        (Ask::Forward(65535), Err(told)),
        (Ask::Take(0), Err(told)),
    ];
    let mut course = Course {
        bench: start.bench(heap)?,
        fabric,
        queues: queues(heap, start.places)?,
    };
    course.rows(rt, &rows)?;
    let (told_at_close, _) = course.close();
    match told_at_close {
        Ok(_) => Err(Fail::new("closed")),
        Err(not) => {
            assert!(rt; No::from(not.fault) == told);
            Ok(not.fabric)
        }
    }
}

// A lane count, a table or a depth is wrong; then the acceptance that came back opens, and the fabric that came back is closed.
#[test]
fn of_tables(rt: HostRuntime) -> Result<(), Fail> {
    let heap = rt.alloc();
    let mut token = acceptance(&rt, heap)?;
    for start in STARTS {
        token = not_opened(&rt, heap, token, 1, start)?;
    }
    for depth in [0, 9] {
        token = not_opened(&rt, heap, token, depth, FITTING)?;
    }
    let bench = Bench::two_lanes(heap, 36)?;
    let mut course = Course::open(bench, token, 8, queues(heap, 96)?)?;
    for start in STARTS {
        course.fabric = not_started(&rt, heap, course.fabric, start)?;
    }
    course.closed(&rt, 0)?;
    Ok(())
}
