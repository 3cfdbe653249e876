// Paths by a stored source and by a downhill one.
use crate::distances::distances_of;
use crate::racks::twin;
use crate::walks::{check_walks, plan_of};
use example_racks::{CLOCKWISE, line, triangle};
use routing::downhill::Downhill;
use routing::one_lane::OneLane;
use routing::pair::Pair;
use routing::stored::Stored;
use routing::two_hop::TwoHop;
use std::test::Fail;

#[test]
fn stored_clockwise(rt: HostRuntime) -> Result<(), Fail> {
    let heap = rt.alloc();
    let rack = triangle(heap)?;
    let forwarding = CLOCKWISE;
    let source = Stored {
        rack: &rack,
        forwarding: &forwarding,
    };
    let plan = plan_of(&rack, &source, &OneLane, 1);
    check_walks(
        &rt,
        heap,
        &plan,
        Pair::of(0, 2),
        &[(0, 0), (6, 0), (8, 0), (5, 0)],
    )?;
    check_walks(
        &rt,
        heap,
        &plan,
        Pair::of(1, 0),
        &[(2, 0), (8, 0), (10, 0), (1, 0)],
    )
}

// Behind the first switch the lane is 1.
#[test]
fn two_hop_clockwise(rt: HostRuntime) -> Result<(), Fail> {
    let heap = rt.alloc();
    let rack = triangle(heap)?;
    let forwarding = CLOCKWISE;
    let source = Stored {
        rack: &rack,
        forwarding: &forwarding,
    };
    let map = TwoHop { rack: &rack };
    let plan = plan_of(&rack, &source, &map, 2);
    check_walks(
        &rt,
        heap,
        &plan,
        Pair::of(0, 2),
        &[(0, 0), (6, 0), (8, 1), (5, 1)],
    )
}

#[test]
fn downhill_triangle(rt: HostRuntime) -> Result<(), Fail> {
    let heap = rt.alloc();
    let rack = triangle(heap)?;
    let table: [u8; 36] = distances_of(&rack)?;
    let source = Downhill {
        rack: &rack,
        distances: &table,
    };
    let plan = plan_of(&rack, &source, &OneLane, 1);
    check_walks(&rt, heap, &plan, Pair::of(0, 2), &[(0, 0), (11, 0), (5, 0)])
}

#[test]
fn downhill_line(rt: HostRuntime) -> Result<(), Fail> {
    let heap = rt.alloc();
    let rack = line(heap)?;
    let table: [u8; 64] = distances_of(&rack)?;
    let source = Downhill {
        rack: &rack,
        distances: &table,
    };
    let plan = plan_of(&rack, &source, &OneLane, 1);
    check_walks(
        &rt,
        heap,
        &plan,
        Pair::of(0, 3),
        &[(0, 0), (8, 0), (10, 0), (12, 0), (7, 0)],
    )?;
    check_walks(
        &rt,
        heap,
        &plan,
        Pair::of(3, 0),
        &[(6, 0), (13, 0), (11, 0), (9, 0), (1, 0)],
    )
}

// Of two channels that go one nearer the lower one is taken.
#[test]
fn downhill_lowest(rt: HostRuntime) -> Result<(), Fail> {
    let heap = rt.alloc();
    let rack = twin(heap)?;
    let table: [u8; 16] = distances_of(&rack)?;
    let source = Downhill {
        rack: &rack,
        distances: &table,
    };
    let plan = plan_of(&rack, &source, &OneLane, 1);
    check_walks(&rt, heap, &plan, Pair::of(0, 1), &[(0, 0), (4, 0), (3, 0)])?;
    check_walks(&rt, heap, &plan, Pair::of(1, 0), &[(2, 0), (5, 0), (1, 0)])
}
