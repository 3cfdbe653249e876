// Sources that go up and then down over a root: what they name, and plans of one lane over them.
use crate::plans::Bench;
use crate::racks::{chords, lone, parted, pentagon, tree};
use checking::fault::CheckFault;
use example_racks::triangle;
use rack::numbers::{Channel, Node};
use routing::distances::fill_distances;
use routing::downhill::Downhill;
use routing::source::ForwardingSource;
use std::process::Abort;
use std::test::*;
use up_down::fault::UpDownFault;
use up_down::source::UpDown;

// Behind each channel towards each node the source names the channel given third, or none.
fn check_names(rt: &impl Abort, source: &UpDown<'_>, wanted: &[(u16, u16, Option<u16>)]) {
    for (arriving, receiver, next) in wanted {
        let named = source.next_channel(Channel(*arriving), Node(*receiver));
        assert_eq!(rt; named, next.map(Channel));
    }
}

// In a tree the way goes up as far as it must, over the lower-numbered of two cables, and then down.
#[test]
fn tree_over_its_top(rt: HostRuntime) -> Result<(), Fail> {
    let heap = rt.alloc();
    let rack = tree(heap)?;
    let source = UpDown::new(heap, &rack, Node(4))?;
    check_names(
        &rt,
        &source,
        &[
            (0, 1, Some(3)),
            (0, 2, Some(8)),
            (8, 2, Some(11)),
            (12, 3, Some(11)),
            (11, 3, Some(7)),
            (4, 0, Some(10)),
            (10, 0, Some(9)),
            (9, 0, Some(1)),
        ],
    );
    let mut bench = Bench::zero(heap, &rack)?;
    assert_eq!(rt; bench.check_rows(&source, 1), Ok(3));
    Ok(())
}

// Nothing is named behind a channel that is down where the way would go up again, behind one that enters a host or is none, and to what is no host.
#[test]
fn none_named(rt: HostRuntime) -> Result<(), Fail> {
    let heap = rt.alloc();
    let rack = tree(heap)?;
    let source = UpDown::new(heap, &rack, Node(4))?;
    check_names(
        &rt,
        &source,
        &[
            (9, 2, None),
            (11, 1, None),
            (1, 2, None),
            (14, 2, None),
            (65535, 2, None),
            (0, 4, None),
            (0, 7, None),
            (0, 65535, None),
        ],
    );
    Ok(())
}

// Of two switches that are as far from the root, the lower-numbered one is above: what is named behind a channel into one depends on whether that channel is down.
#[test]
fn triangle_over_a_corner(rt: HostRuntime) -> Result<(), Fail> {
    let heap = rt.alloc();
    let rack = triangle(heap)?;
    let source = UpDown::new(heap, &rack, Node(3))?;
    check_names(
        &rt,
        &source,
        &[
            (2, 2, Some(8)),
            (4, 1, Some(9)),
            (11, 1, None),
            (6, 2, Some(8)),
        ],
    );
    let mut bench = Bench::zero(heap, &rack)?;
    assert_eq!(rt; bench.check_rows(&source, 1), Ok(2));
    Ok(())
}

// On a ring of five switches shortest ways make a ring on one lane. Over a root there is none; the ways between hosts 2 and 4 are longer for it, in both directions.
#[test]
fn pentagon_over_a_root(rt: HostRuntime) -> Result<(), Fail> {
    let heap = rt.alloc();
    let rack = pentagon(heap)?;
    let mut distances = [0u8; 100];
    fill_distances(&rack, &mut distances)?;
    let downhill = Downhill {
        rack: &rack,
        distances: &distances,
    };
    let mut bench = Bench::zero(heap, &rack)?;
    assert_eq!(rt;
        bench.check_rows(&downhill, 1),
        Err(CheckFault::Ring { length: 5 })
    );
    let source = UpDown::new(heap, &rack, Node(5))?;
    check_names(
        &rt,
        &source,
        &[
            (8, 2, Some(18)),
            (18, 2, Some(10)),
            (10, 2, Some(12)),
            (12, 2, Some(5)),
        ],
    );
    assert_eq!(rt; bench.check_rows(&source, 1), Ok(6));
    Ok(())
}

// What is named behind two channels into one switch, towards one host, differs: one is up, and the other down.
#[test]
fn named_by_arriving(rt: HostRuntime) -> Result<(), Fail> {
    let heap = rt.alloc();
    let rack = chords(heap)?;
    let source = UpDown::new(heap, &rack, Node(2))?;
    check_names(
        &rt,
        &source,
        &[
            (0, 1, Some(9)),
            (15, 1, Some(9)),
            (6, 1, Some(14)),
            (8, 1, Some(14)),
        ],
    );
    let mut bench = Bench::zero(heap, &rack)?;
    assert_eq!(rt; bench.check_rows(&source, 1), Ok(3));
    Ok(())
}

// On a rack without pairs a plan over a root is accepted too.
#[test]
fn no_pairs(rt: HostRuntime) -> Result<(), Fail> {
    let heap = rt.alloc();
    let rack = lone(heap)?;
    let source = UpDown::new(heap, &rack, Node(1))?;
    let mut bench = Bench::zero(heap, &rack)?;
    assert_eq!(rt; bench.check_rows(&source, 1), Ok(0));
    Ok(())
}

// A source is refused over what is no switch, and where a node is out of reach: the lowest is told.
#[test]
fn refused(rt: HostRuntime) -> Result<(), Fail> {
    let heap = rt.alloc();
    let rack = parted(heap)?;
    let refusals = [
        (0, UpDownFault::Root(Node(0)), 35, 0),
        (4, UpDownFault::Root(Node(4)), 35, 4),
        (2, UpDownFault::Unreachable(Node(1)), 36, 1),
        (3, UpDownFault::Unreachable(Node(0)), 36, 0),
    ];
    for (root, fault, number, record) in refusals {
        let made = UpDown::new(heap, &rack, Node(root)).err();
        assert_eq!(rt; made, Some(fault));
        assert_eq!(rt; fault.number(), Some(number));
        assert_eq!(rt; fault.record(), record);
    }
    Ok(())
}
