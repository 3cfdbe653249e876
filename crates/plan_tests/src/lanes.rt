// Lane tables that no builder made, on the triangle that forwards clockwise.
// The row of a turn begins at 16 for channels 0 and 6, 1184 for 2 and 8, 2336 for 4 and 10, 3488 for 6 and 8, 4640 for 8 and 10, 5776 for 10 and 6.
use crate::clockwise::PARTED;
use crate::plans::Bench;
use crate::tables::{check_ring, check_table, put};
use checking::fault::CheckFault;
use example_racks::{CLOCKWISE, triangle};
use routing::fault::WalkFault;
use routing::pair::Pair;
use std::test::*;

// Channel 8 is on lane 2 throughout, and 10 behind it on lane 0 again: the ring goes through the fall.
#[test]
fn ring_through_a_fall(rt: HostRuntime) -> Result<(), Fail> {
    let heap = rt.alloc();
    let rack = triangle(heap)?;
    let mut bench = Bench::zero(heap, &rack)?;
    put(&mut bench.tables.lanes, 1184, 2);
    put(&mut bench.tables.lanes, 3488, 2);
    assert_eq!(rt;
        bench.check_stored(&CLOCKWISE, 2),
        Err(CheckFault::Walk(WalkFault::Lane {
            pair: Pair::of(0, 2),
            hop: 2,
        }))
    );
    bench.work.check_untouched(&rt)?;
    assert_eq!(rt;
        bench.check_stored(&CLOCKWISE, 3),
        Err(CheckFault::Ring { length: 3 })
    );
    check_ring(&rt, &bench.work.ring, [48, 66, 80])?;
    check_table(&rt, &bench.work.ranks, 96, &[])?;
    check_table(
        &rt,
        &bench.work.dependencies,
        432,
        &[
            (1, 1),
            (74, 4),
            (146, 1),
            (216, 1),
            (218, 4),
            (288, 65536),
            (290, 65536),
            (360, 1),
            (361, 1),
        ],
    )
}

// Channel 8 is on lane 2 only behind 6, and then nothing but the host follows: no ring.
#[test]
fn fall_beside_the_ring(rt: HostRuntime) -> Result<(), Fail> {
    let heap = rt.alloc();
    let rack = triangle(heap)?;
    let mut bench = Bench::zero(heap, &rack)?;
    put(&mut bench.tables.lanes, 3488, 2);
    assert_eq!(rt; bench.check_stored(&CLOCKWISE, 3), Ok(5));
    check_table(
        &rt,
        &bench.work.ranks,
        96,
        &[(8, 3), (24, 4), (40, 5), (48, 3), (64, 1), (66, 4), (80, 2)],
    )?;
    check_table(&rt, &bench.work.ring, 0, &[])
}

// Lanes that rise from switch to switch are accepted, and so are lanes that fall, as long as there is no ring.
#[test]
fn rising_and_falling(rt: HostRuntime) -> Result<(), Fail> {
    let heap = rt.alloc();
    let rack = triangle(heap)?;
    for (first, second) in [(1u8, 2u8), (2, 0), (0, 2)] {
        let mut bench = Bench::zero(heap, &rack)?;
        for place in [16, 1184, 2336] {
            put(&mut bench.tables.lanes, place, first);
        }
        for place in [3488, 4640, 5776] {
            put(&mut bench.tables.lanes, place, second);
        }
        assert_eq!(rt; bench.check_stored(&CLOCKWISE, 3), Ok(3));
        check_table(&rt, &bench.work.ring, 0, &[])?;
    }
    Ok(())
}

// What the rows hold at a level that no pair has is not looked at; once a pair has it, it is.
#[test]
fn level_of_no_pair(rt: HostRuntime) -> Result<(), Fail> {
    let heap = rt.alloc();
    let rack = triangle(heap)?;
    let mut bench = Bench::zero(heap, &rack)?;
    assert_eq!(rt; bench.build_stored(&CLOCKWISE, 2), Ok(()));
    for row in bench.tables.lanes.chunks_exact_mut(16) {
        row[5] = 3;
    }
    assert_eq!(rt; bench.check_stored(&CLOCKWISE, 2), Ok(3));
    check_table(&rt, &bench.work.dependencies, 432, &PARTED)?;
    put(&mut bench.tables.levels, 2, 5);
    assert_eq!(rt;
        bench.check_stored(&CLOCKWISE, 2),
        Err(CheckFault::Walk(WalkFault::Lane {
            pair: Pair::of(0, 2),
            hop: 1,
        }))
    );
    Ok(())
}
