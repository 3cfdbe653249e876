// What the check and the builder refuse, on the triangle that forwards clockwise, and what the tables hold then.
use crate::plans::Bench;
use crate::tables::{MARK, Tables, Work, check_table, put};
use builder::fault::BuildFault;
use checking::fault::CheckFault;
use example_racks::{CLOCKWISE, triangle};
use rack::rack::Rack;
use routing::fault::WalkFault;
use routing::pair::Pair;
use std::alloc::Global;
use std::process::Abort;
use std::test::*;

// The clockwise forwarding table with another entry at a place.
fn changed(place: usize, entry: u16) -> [u16; 36] {
    let mut out = CLOCKWISE;
    put(&mut out, place, entry);
    out
}

// Both the check and the builder tell the fault; the check writes nothing, and the builder clears its tables.
fn check_walk(
    rt: &impl Abort,
    heap: Global,
    rack: &Rack,
    forwarding: &[u16],
    fault: WalkFault,
) -> Result<(), Fail> {
    let mut bench = Bench::zero(heap, rack)?;
    assert_eq!(rt;
        bench.check_stored(forwarding, 1),
        Err(CheckFault::Walk(fault))
    );
    bench.work.check_untouched(rt)?;
    let mut bench = Bench::marked(heap, rack)?;
    assert_eq!(rt;
        bench.build_stored(forwarding, 2),
        Err(BuildFault::Walk(fault))
    );
    check_table(rt, &bench.tables.lanes, 6912, &[])?;
    check_table(rt, &bench.tables.levels, 36, &[])
}

// One entry for host 2 is wrong, so that the packets of 0 do not arrive there.
#[test]
fn paths(rt: HostRuntime) -> Result<(), Fail> {
    let heap = rt.alloc();
    let rack = triangle(heap)?;
    let pair = Pair::of(0, 2);
    let rows: [(usize, u16, WalkFault); 5] = [
        // 3 has no entry
        (20, 0, WalkFault::NoChannel { pair, hop: 1 }),
        // 3 names a channel out of 4
        (20, 9, WalkFault::Elsewhere { pair, hop: 1 }),
        // 3 names what is no channel
        (20, 13, WalkFault::Elsewhere { pair, hop: 1 }),
        // 4 sends them to its own host
        (26, 4, WalkFault::OtherHost { pair, hop: 2 }),
        // 4 sends them back to 3
        (26, 8, WalkFault::Endless { pair, hop: 12 }),
    ];
    for (place, entry, fault) in rows {
        check_walk(&rt, heap, &rack, &changed(place, entry), fault)?;
    }
    Ok(())
}

// A lane count that is not 1 to 8 is told first, whatever the tables are.
#[test]
fn lane_counts(rt: HostRuntime) -> Result<(), Fail> {
    let heap = rt.alloc();
    let rack = triangle(heap)?;
    for (count, places) in [(0u8, 36usize), (9, 36), (255, 36), (0, 35), (9, 35)] {
        let mut bench = Bench {
            heap,
            rack: &rack,
            tables: Tables::new(heap, 6912, places, MARK)?,
            work: Work::new(heap, 432, 96, 96)?,
        };
        assert_eq!(rt;
            bench.check_stored(&CLOCKWISE, count),
            Err(CheckFault::Lanes)
        );
        bench.work.check_untouched(&rt)?;
        assert_eq!(rt;
            bench.build_stored(&CLOCKWISE, count),
            Err(BuildFault::Lanes)
        );
        check_table(&rt, &bench.tables.lanes, 0, &[])?;
        check_table(&rt, &bench.tables.levels, 0, &[])?;
    }
    Ok(())
}

// A table one place short is refused by the check, and nothing is written.
#[test]
fn short_for_the_check(rt: HostRuntime) -> Result<(), Fail> {
    let heap = rt.alloc();
    let rack = triangle(heap)?;
    let rows: [(usize, usize, usize, usize); 4] = [
        (35, 432, 96, 96),
        (36, 431, 96, 96),
        (36, 432, 95, 96),
        (36, 432, 96, 95),
    ];
    for (levels, dependencies, ranks, ring) in rows {
        let mut bench = Bench {
            heap,
            rack: &rack,
            tables: Tables::new(heap, 6912, levels, 0)?,
            work: Work::new(heap, dependencies, ranks, ring)?,
        };
        assert_eq!(rt; bench.check_stored(&CLOCKWISE, 1), Err(CheckFault::Tables));
        bench.work.check_untouched(&rt)?;
    }
    Ok(())
}

// The same for the builder.
#[test]
fn short_for_the_builder(rt: HostRuntime) -> Result<(), Fail> {
    let heap = rt.alloc();
    let rack = triangle(heap)?;
    for (lanes, levels) in [(6911, 36), (6912, 35)] {
        let mut bench = Bench::marked(heap, &rack)?;
        bench.tables = Tables::new(heap, lanes, levels, MARK)?;
        assert_eq!(rt; bench.build_stored(&CLOCKWISE, 2), Err(BuildFault::Tables));
        check_table(&rt, &bench.tables.lanes, 0, &[])?;
        check_table(&rt, &bench.tables.levels, 0, &[])?;
    }
    Ok(())
}

// A level above 15 is refused, and 15 is a level like any other: here the path from 1 to 0 keeps to lane 0 at it.
#[test]
fn levels(rt: HostRuntime) -> Result<(), Fail> {
    let heap = rt.alloc();
    let rack = triangle(heap)?;
    let mut bench = Bench::zero(heap, &rack)?;
    assert_eq!(rt; bench.build_stored(&CLOCKWISE, 2), Ok(()));
    for level in [16, 255] {
        put(&mut bench.tables.levels, 6, level);
        assert_eq!(rt;
            bench.check_stored(&CLOCKWISE, 2),
            Err(CheckFault::Level {
                pair: Pair::of(1, 0)
            })
        );
        bench.work.check_untouched(&rt)?;
    }
    put(&mut bench.tables.levels, 6, 15);
    assert_eq!(rt; bench.check_stored(&CLOCKWISE, 2), Ok(4));
    Ok(())
}
