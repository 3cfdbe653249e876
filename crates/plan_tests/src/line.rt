// The line of four switches, by shortest ways.
use crate::plans::Bench;
use crate::racks::turned_line;
use crate::tables::check_table;
use builder::fault::BuildFault;
use example_racks::line;
use rack::rack::Rack;
use routing::distances::fill_distances;
use routing::downhill::Downhill;
use routing::fault::DistanceFault;
use routing::pair::Pair;
use std::test::*;

// The true distances of a rack of eight nodes. The tests of routing have it for any rack: a crate of tests cannot be used by another, and `example_racks` does not stand on routing.
fn distances_of(rack: &Rack) -> Result<[u8; 64], DistanceFault> {
    let mut distances = [0u8; 64];
    fill_distances(rack, &mut distances)?;
    Ok(distances)
}

// Two pairs find their turns taken at level 0, and have level 1.
#[test]
fn second_level(rt: HostRuntime) -> Result<(), Fail> {
    let heap = rt.alloc();
    let rack = line(heap)?;
    let distances = distances_of(&rack)?;
    let source = Downhill {
        rack: &rack,
        distances: &distances,
    };
    let mut bench = Bench::marked(heap, &rack)?;
    assert_eq!(rt; bench.build_rows(&source, 3), Ok(()));
    check_table(
        &rt,
        &bench.tables.lanes,
        8064,
        &[
            (4640, 1),
            (5792, 2),
            (5793, 1),
            (6352, 1),
            (6353, 2),
            (7504, 1),
            (7505, 1),
        ],
    )?;
    check_table(&rt, &bench.tables.levels, 64, &[(11, 1), (24, 1)])?;
    assert_eq!(rt; bench.check_rows(&source, 3), Ok(4));
    check_table(&rt, &bench.work.ring, 0, &[])
}

// With the ends of the cables the other way round the levels are the same, and the lanes stand in the rows of the ways back.
#[test]
fn ends_turned(rt: HostRuntime) -> Result<(), Fail> {
    let heap = rt.alloc();
    let rack = turned_line(heap)?;
    let distances = distances_of(&rack)?;
    let source = Downhill {
        rack: &rack,
        distances: &distances,
    };
    let mut bench = Bench::marked(heap, &rack)?;
    assert_eq!(rt; bench.build_rows(&source, 3), Ok(()));
    check_table(
        &rt,
        &bench.tables.lanes,
        8064,
        &[
            (5216, 1),
            (5776, 1),
            (5777, 2),
            (6368, 2),
            (6369, 1),
            (6928, 1),
            (6929, 1),
        ],
    )?;
    check_table(&rt, &bench.tables.levels, 64, &[(11, 1), (24, 1)])
}

// The path from end to end has five channels, one more than two lanes take.
#[test]
fn too_few_lanes(rt: HostRuntime) -> Result<(), Fail> {
    let heap = rt.alloc();
    let rack = line(heap)?;
    let distances = distances_of(&rack)?;
    let source = Downhill {
        rack: &rack,
        distances: &distances,
    };
    let mut bench = Bench::marked(heap, &rack)?;
    assert_eq!(rt;
        bench.build_rows(&source, 2),
        Err(BuildFault::Lane {
            pair: Pair::of(0, 3)
        })
    );
    check_table(&rt, &bench.tables.lanes, 8064, &[])?;
    check_table(&rt, &bench.tables.levels, 64, &[])
}

// The dependency words where the lane is raised once, behind the first switch.
pub const RAISED_ONCE: [(usize, u64); 16] = [
    (1, 1),
    (73, 1),
    (74, 1),
    (145, 1),
    (146, 1),
    (217, 1),
    (288, 2),
    (290, 2),
    (324, 514),
    (360, 514),
    (362, 514),
    (396, 514),
    (397, 514),
    (432, 514),
    (468, 2),
    (469, 2),
];

// Two lanes suffice where the lane is raised once: it need not rise at every switch.
#[test]
fn raised_once(rt: HostRuntime) -> Result<(), Fail> {
    let heap = rt.alloc();
    let rack = line(heap)?;
    let distances = distances_of(&rack)?;
    let source = Downhill {
        rack: &rack,
        distances: &distances,
    };
    let mut bench = Bench::zero(heap, &rack)?;
    assert_eq!(rt; bench.check_two_hop(&source, 2), Ok(4));
    check_table(&rt, &bench.work.dependencies, 504, &RAISED_ONCE)?;
    check_table(&rt, &bench.work.ring, 0, &[])
}
