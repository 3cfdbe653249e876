// Plans whose lanes fall on a ring of four switches, and the ring that is shown.
use crate::bench::ring;
use std::test::*;
use workbench::checked::check_text;
use workbench::plan_file::PlanFile;

// Between switches lanes go up, down, up and down: each packet waits for the next.
// Channel 8 + 2i leads from switch i to the next, by port 2 of it; the row of the turn to the one behind it begins at 16 (36 (8 + 2i) + 1).
#[test]
fn a_fall_closes_a_ring(rt: HostRuntime) -> Result<(), Fail> {
    let heap = rt.alloc();
    let rack = ring(heap, 4, true)?;
    let mut lanes = vec![in heap; 0u8; 16 * 36 * 16]?;
    let levels = vec![in heap; 0u8; 64]?;
    lanes[16 * (36 * 8 + 1)] = 1;
    lanes[16 * (36 * 12 + 1)] = 1;
    let plan = PlanFile {
        lane_count: 2,
        lanes: &lanes,
        levels: &levels,
    };
    let text = check_text(heap, &rack.rack, &rack.source(), plan)?;
    let shown = "refused 25 0 0 0
channel 8 lane 0 from node 4 port 2 to node 5 port 3
channel 10 lane 1 from node 5 port 2 to node 6 port 3
channel 12 lane 0 from node 6 port 2 to node 7 port 3
channel 14 lane 1 from node 7 port 2 to node 4 port 3
";
    assert_eq!(rt; text.as_str(), shown);
    Ok(())
}
