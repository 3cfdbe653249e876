// What is said of plans that are built.
use crate::bench::ring;
use rack::numbers::Node;
use std::test::*;
use up_down::fault::UpDownFault;
use up_down::source::UpDown;
use workbench::built::build_text;
use workbench::layout::Layout;
use workbench::reply::told_root;

#[test]
fn accepted_with_a_summary(rt: HostRuntime) -> Result<(), Fail> {
    let heap = rt.alloc();
    let rack = ring(heap, 4, true)?;
    let built = build_text(heap, &rack.rack, &rack.source(), 8, Layout::Method)?;
    assert_eq!(rt;
        built.text.as_str(),
        "accepted 4\nnodes 8 cables 8 pairs 12\nlanes 8 lanes used 3 levels used 2\nlongest path 5 greatest rank 4\n"
    );
    assert!(rt; built.file.is_some());
    Ok(())
}

#[test]
fn refused_by_the_builder(rt: HostRuntime) -> Result<(), Fail> {
    let heap = rt.alloc();
    let rack = ring(heap, 4, true)?;
    for (lanes, text) in [
        (0, "refused 10 0 0 0\n"),
        (1, "refused 11 0 2 0\n"),
        (9, "refused 10 0 0 0\n"),
    ] {
        let built = build_text(heap, &rack.rack, &rack.source(), lanes, Layout::Method)?;
        assert_eq!(rt; built.text.as_str(), text);
        assert!(rt; built.file.is_none());
    }
    Ok(())
}

#[test]
fn two_hop_needs_two_lanes(rt: HostRuntime) -> Result<(), Fail> {
    let heap = rt.alloc();
    let rack = ring(heap, 3, true)?;
    let built = build_text(heap, &rack.rack, &rack.source(), 1, Layout::TwoHop)?;
    assert_eq!(rt; built.text.as_str(), "refused 24 0 1 2\n");
    let built = build_text(heap, &rack.rack, &rack.source(), 2, Layout::TwoHop)?;
    assert_eq!(rt;
        built.text.as_str(),
        "accepted 3\nnodes 6 cables 6 pairs 6\nlanes 2 lanes used 2 levels used 1\nlongest path 4 greatest rank 3\n"
    );
    Ok(())
}

// Up and then down over switch 4 no ring of packets closes on a ring of four switches; clockwise one does.
#[test]
fn one_lane_over_a_root(rt: HostRuntime) -> Result<(), Fail> {
    let heap = rt.alloc();
    let rack = ring(heap, 4, true)?;
    let source = UpDown::new(heap, &rack.rack, Node(4))?;
    let built = build_text(heap, &rack.rack, &source, 1, Layout::OneLane)?;
    assert_eq!(rt;
        built.text.as_str(),
        "accepted 4\nnodes 8 cables 8 pairs 12\nlanes 1 lanes used 1 levels used 1\nlongest path 4 greatest rank 4\n"
    );
    let built = build_text(heap, &rack.rack, &rack.source(), 1, Layout::OneLane)?;
    assert!(rt; built.text.as_str().starts_with("refused 25 0 0 0\n"));
    assert!(rt; built.file.is_none());
    Ok(())
}

#[test]
fn no_root_is_told(rt: HostRuntime) {
    let told = |fault| told_root(fault).map(|t| (t.number, t.sender, t.receiver, t.hop));
    assert!(rt; told(UpDownFault::Root(Node(7))) == Some((35, 7, 0, 0)));
    assert!(rt; told(UpDownFault::Unreachable(Node(65535))) == Some((36, 65535, 0, 0)));
    assert!(rt; told(UpDownFault::Memory).is_none());
}
