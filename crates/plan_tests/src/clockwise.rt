// The triangle that forwards clockwise: its three switches make a ring unless lanes part it.
use crate::plans::Bench;
use crate::tables::{check_ring, check_table};
use builder::fault::BuildFault;
use checking::fault::CheckFault;
use example_racks::{CLOCKWISE, triangle};
use routing::fault::WalkFault;
use routing::pair::Pair;
use routing::stored::Stored;
use std::test::*;

// The dependency words of the plan with two lanes.
pub const PARTED: [(usize, u64); 9] = [
    (1, 1),
    (74, 1),
    (146, 1),
    (216, 257),
    (218, 2),
    (288, 257),
    (290, 2),
    (360, 257),
    (361, 2),
];

// On one lane the three channels between the switches follow one another in a ring.
#[test]
fn one_lane(rt: HostRuntime) -> Result<(), Fail> {
    let heap = rt.alloc();
    let rack = triangle(heap)?;
    let mut bench = Bench::zero(heap, &rack)?;
    assert_eq!(rt;
        bench.check_stored(&CLOCKWISE, 1),
        Err(CheckFault::Ring { length: 3 })
    );
    check_ring(&rt, &bench.work.ring, [48, 64, 80])?;
    check_table(&rt, &bench.work.ranks, 96, &[])?;
    check_table(
        &rt,
        &bench.work.dependencies,
        432,
        &[
            (1, 1),
            (74, 1),
            (146, 1),
            (216, 1),
            (218, 1),
            (288, 1),
            (290, 1),
            (360, 1),
            (361, 1),
        ],
    )
}

// Built with two lanes, each turn from switch to switch to switch goes to lane 1.
#[test]
fn built_with_two_lanes(rt: HostRuntime) -> Result<(), Fail> {
    let heap = rt.alloc();
    let rack = triangle(heap)?;
    let mut bench = Bench::marked(heap, &rack)?;
    assert_eq!(rt; bench.build_stored(&CLOCKWISE, 2), Ok(()));
    check_table(
        &rt,
        &bench.tables.lanes,
        6912,
        &[(3488, 1), (4640, 1), (5776, 1)],
    )?;
    check_table(&rt, &bench.tables.levels, 36, &[])?;
    assert_eq!(rt; bench.check_stored(&CLOCKWISE, 2), Ok(3));
    check_table(&rt, &bench.work.dependencies, 432, &PARTED)?;
    // 6, 8 and 10 on lane 0 are second, on lane 1 third, and the channels to the hosts last
    check_table(
        &rt,
        &bench.work.ranks,
        96,
        &[
            (8, 3),
            (24, 3),
            (40, 3),
            (48, 1),
            (49, 2),
            (64, 1),
            (65, 2),
            (80, 1),
            (81, 2),
        ],
    )?;
    check_table(&rt, &bench.work.ring, 0, &[])
}

// With one lane there is none for the path from 0 to 2, and both tables are cleared.
#[test]
fn built_with_one_lane(rt: HostRuntime) -> Result<(), Fail> {
    let heap = rt.alloc();
    let rack = triangle(heap)?;
    let mut bench = Bench::marked(heap, &rack)?;
    assert_eq!(rt;
        bench.build_stored(&CLOCKWISE, 1),
        Err(BuildFault::Lane {
            pair: Pair::of(0, 2)
        })
    );
    check_table(&rt, &bench.tables.lanes, 6912, &[])?;
    check_table(&rt, &bench.tables.levels, 36, &[])
}

// The map that raises the lane once needs two lanes, and they suffice.
#[test]
fn raised_once(rt: HostRuntime) -> Result<(), Fail> {
    let heap = rt.alloc();
    let rack = triangle(heap)?;
    let source = Stored {
        rack: &rack,
        forwarding: &CLOCKWISE,
    };
    let mut bench = Bench::zero(heap, &rack)?;
    assert_eq!(rt;
        bench.check_two_hop(&source, 1),
        Err(CheckFault::Walk(WalkFault::Lane {
            pair: Pair::of(0, 1),
            hop: 2,
        }))
    );
    bench.work.check_untouched(&rt)?;
    assert_eq!(rt; bench.check_two_hop(&source, 2), Ok(3));
    check_table(
        &rt,
        &bench.work.dependencies,
        432,
        &[
            (1, 1),
            (74, 1),
            (146, 1),
            (216, 514),
            (218, 2),
            (288, 514),
            (290, 2),
            (360, 514),
            (361, 2),
        ],
    )?;
    check_table(&rt, &bench.work.ring, 0, &[])
}
