// The bare check, over channels, on the dependency tables of plans.
use crate::line::RAISED_ONCE;
use crate::plans::Bench;
use crate::tables::{Work, check_ring, check_table, put};
use checking::bare::check_channels;
use checking::fault::CheckFault;
use example_racks::{CLOCKWISE, line, triangle};
use rack::rack::Rack;
use std::alloc::{AllocError, Global};
use std::process::Abort;
use std::test::*;

// A dependency table for as many channels, with these words.
fn words(heap: Global, channels: u16, entries: &[(usize, u64)]) -> Result<Vec<u64>, AllocError> {
    let mut out = vec![in heap; 0u64; 36 * usize::from(channels)]?;
    for (place, word) in entries {
        put(&mut out, *place, *word);
    }
    Ok(out)
}

// The channels of the triangle's switches follow one another in a ring.
fn check_switch_ring(rt: &impl Abort, rack: &Rack, dependencies: &[u64]) -> Result<(), Fail> {
    let mut ranks = [9u16; 14];
    let mut ring = [9u16; 15];
    assert_eq!(rt;
        check_channels(rack, dependencies, &mut ranks, &mut ring),
        Err(CheckFault::Ring { length: 3 })
    );
    check_ring(rt, &ring, [6, 8, 10])?;
    check_table(rt, &ranks, 12, &[])
}

// Channels know no lanes: the ring is there under one lane and under the two that part it.
#[test]
fn ring_of_channels(rt: HostRuntime) -> Result<(), Fail> {
    let heap = rt.alloc();
    let rack = triangle(heap)?;
    let mut bench = Bench::zero(heap, &rack)?;
    assert_eq!(rt;
        bench.check_stored(&CLOCKWISE, 1),
        Err(CheckFault::Ring { length: 3 })
    );
    check_switch_ring(&rt, &rack, &bench.work.dependencies)?;
    assert_eq!(rt; bench.build_stored(&CLOCKWISE, 2), Ok(()));
    assert_eq!(rt; bench.check_stored(&CLOCKWISE, 2), Ok(3));
    check_switch_ring(&rt, &rack, &bench.work.dependencies)
}

// Up the line and back down it no channel comes again.
#[test]
fn ranks_of_channels(rt: HostRuntime) -> Result<(), Fail> {
    let heap = rt.alloc();
    let rack = line(heap)?;
    let dependencies = words(heap, 14, &RAISED_ONCE)?;
    let mut ranks = [9u16; 16];
    let mut ring = [9u16; 16];
    assert_eq!(rt;
        check_channels(&rack, &dependencies, &mut ranks, &mut ring),
        Ok(4)
    );
    check_table(
        &rt,
        &ranks,
        14,
        &[
            (1, 4),
            (3, 3),
            (5, 3),
            (7, 4),
            (8, 1),
            (9, 3),
            (10, 2),
            (11, 2),
            (12, 3),
            (13, 1),
        ],
    )?;
    check_table(&rt, &ring, 0, &[])
}

// A word at a host counts too: 0 enters switch 3, 1 goes back to host 0, and 0 leaves it.
#[test]
fn ring_through_a_host(rt: HostRuntime) -> Result<(), Fail> {
    let heap = rt.alloc();
    let rack = triangle(heap)?;
    let dependencies = words(heap, 12, &[(0, 1), (36, 4)])?;
    let mut ranks = [9u16; 12];
    let mut ring = [9u16; 12];
    assert_eq!(rt;
        check_channels(&rack, &dependencies, &mut ranks, &mut ring),
        Err(CheckFault::Ring { length: 2 })
    );
    assert!(rt; ring.starts_with(&[0, 1, 9]) || ring.starts_with(&[1, 0, 9]));
    check_table(&rt, &ranks, 12, &[])
}

// A table one place short is refused, and nothing is written.
#[test]
fn short(rt: HostRuntime) -> Result<(), Fail> {
    let heap = rt.alloc();
    let rack = triangle(heap)?;
    for (dependencies, ranks, ring) in [(431, 12, 12), (432, 11, 12), (432, 12, 11)] {
        let mut work = Work::new(heap, dependencies, ranks, ring)?;
        assert_eq!(rt;
            check_channels(&rack, &work.dependencies, &mut work.ranks, &mut work.ring),
            Err(CheckFault::Tables)
        );
        work.check_untouched(&rt)?;
    }
    Ok(())
}
