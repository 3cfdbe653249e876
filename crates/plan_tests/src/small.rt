// Racks without pairs: there is nothing to follow, and every rank is 0.
use crate::plans::Bench;
use crate::racks::{lone, nothing};
use crate::tables::check_table;
use rack::rack::Rack;
use std::alloc::Global;
use std::process::Abort;
use std::test::*;

// A rack with as many nodes and channels, and no pair, is planned and accepted.
fn check_pairless(
    rt: &impl Abort,
    heap: Global,
    rack: &Rack,
    nodes: u8,
    channels: u8,
) -> Result<(), Fail> {
    let nodes = usize::from(nodes);
    let channels = usize::from(channels);
    let mut bench = Bench::marked(heap, rack)?;
    assert_eq!(rt; bench.build_stored(&[], 1), Ok(()));
    check_table(rt, &bench.tables.lanes, 576 * channels, &[])?;
    check_table(rt, &bench.tables.levels, nodes * nodes, &[])?;
    assert_eq!(rt; bench.check_stored(&[], 1), Ok(0));
    check_table(rt, &bench.work.dependencies, 36 * channels, &[])?;
    check_table(rt, &bench.work.ranks, 8 * channels, &[])?;
    check_table(rt, &bench.work.ring, 0, &[])
}

// Two tests, so that each is told by its name.
#[test]
fn one_host(rt: HostRuntime) -> Result<(), Fail> {
    let heap = rt.alloc();
    let rack = lone(heap)?;
    check_pairless(&rt, heap, &rack, 2, 2)
}

#[test]
fn no_nodes(rt: HostRuntime) -> Result<(), Fail> {
    let heap = rt.alloc();
    let rack = nothing(heap)?;
    check_pairless(&rt, heap, &rack, 0, 0)
}
