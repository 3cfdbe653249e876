// The edges of plan files.
use crate::bench::ring;
use std::test::*;
use workbench::built::{Built, build_text};
use workbench::layout::Layout;
use workbench::plan_file::{PlanLength, file_length, plan_in};

// What is written reads back, byte for byte.
#[test]
fn written_reads_back(rt: HostRuntime) -> Result<(), Fail> {
    let heap = rt.alloc();
    let rack = ring(heap, 3, true)?;
    let Built { text: _, file } = build_text(heap, &rack.rack, &rack.source(), 2, Layout::Method)?;
    let Some(file) = file else {
        return Err(Fail::new("no plan file"));
    };
    assert_eq!(rt; file.len(), 1 + 16 * 36 * 12 + 36);
    let plan = plan_in(&rack.rack, &file)?;
    assert_eq!(rt; plan.lane_count, 2);
    assert_eq!(rt; plan.lanes.len(), 16 * 36 * 12);
    assert_eq!(rt; plan.levels.len(), 36);
    let again = plan.to_bytes(heap)?;
    assert_eq!(rt; again.as_slice(), file.as_slice());
    Ok(())
}

// A byte too few, a byte too many, and no byte at all.
#[test]
fn other_lengths_are_told(rt: HostRuntime) -> Result<(), Fail> {
    let heap = rt.alloc();
    let rack = ring(heap, 3, false)?;
    let wanted = file_length(&rack.rack);
    assert_eq!(rt; wanted, 6949);
    let bytes = vec![in heap; 0u8; 6950]?;
    let told = |found| Some(PlanLength { wanted, found });
    assert!(rt; plan_in(&rack.rack, &bytes[..0]).err() == told(0));
    assert!(rt; plan_in(&rack.rack, &bytes[..6948]).err() == told(6948));
    assert!(rt; plan_in(&rack.rack, &bytes).err() == told(6950));
    assert!(rt; plan_in(&rack.rack, &bytes[..6949]).is_ok());
    let wrong = PlanLength { wanted, found: 0 };
    let text = wrong.to_string(heap)?;
    assert_eq!(rt;
        text.as_str(),
        "a plan for this rack has 6949 bytes, and this file 0"
    );
    Ok(())
}
