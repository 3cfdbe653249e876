// Rows of the lane table, at its last turn.
use crate::racks::corner;
use crate::walks::level;
use rack::numbers::{Channel, Lane, Port};
use routing::map::LaneMap;
use routing::rows::{Row, StoredRows, row_place};
use std::process::Abort;
use std::test::Fail;

// The bytes of the lane table of four channels, and the place of its last row.
const BYTES: usize = 2304;

const LAST: usize = 2288;

// The stored rows answer the lane for the last turn at the level.
fn check_lane(rt: &(impl Abort + AllocGlobal), lanes: &[u8], at: u8, want: u8) -> Result<(), Fail> {
    let rack = corner(rt.alloc())?;
    let map = StoredRows { rack: &rack, lanes };
    assert_eq!(rt; map.lane(Channel(3), Channel(1), level(at)?).number(), want);
    Ok(())
}

#[test]
fn stored_lanes(rt: HostRuntime) -> Result<(), Fail> {
    assert_eq!(rt; row_place(Channel(3), Port(36)), LAST);
    let mut lanes = [6u8; 2304];
    lanes[LAST] = 3;
    lanes[LAST + 5] = 200;
    lanes[LAST + 6] = 8;
    lanes[LAST + 15] = 7;
    check_lane(&rt, &lanes, 0, 3)?;
    check_lane(&rt, &lanes, 1, 6)?;
    // a byte above 7 is read as 7
    check_lane(&rt, &lanes, 5, 7)?;
    check_lane(&rt, &lanes, 6, 7)?;
    check_lane(&rt, &lanes, 15, 7)?;
    // the row lies beyond a table one byte short
    check_lane(&rt, &lanes[0..BYTES - 1], 0, 0)?;
    check_lane(&rt, &[], 0, 0)
}

// What is no turn has lane 0.
#[test]
fn no_turn(rt: HostRuntime) -> Result<(), Fail> {
    let rack = corner(rt.alloc())?;
    let map = StoredRows {
        rack: &rack,
        lanes: &[6u8; 2304],
    };
    for (arriving, leaving) in [(1u16, 3u16), (2, 3), (3, 0), (3, 4), (4, 1)] {
        assert_eq!(rt;
            map.lane(Channel(arriving), Channel(leaving), level(0)?)
                .number(),
            0
        );
    }
    assert_eq!(rt; map.lane(Channel(0), Channel(2), level(0)?).number(), 6);
    Ok(())
}

// A row is taken out and put back whole, and only the byte of its level changes.
#[test]
fn one_byte(rt: HostRuntime) -> Result<(), Fail> {
    let mut lanes = [9u8; 2304];
    let row = Row::take(&lanes[LAST..]).ok_or_else(|| Fail::new("no row"))?;
    let put = row.with(level(15)?, Lane::one()).put(&mut lanes[LAST..]);
    assert!(rt; put.is_some());
    for (k, byte) in lanes.iter().enumerate() {
        let want = if k == BYTES - 1 { 1 } else { 9 };
        assert_eq!(rt; *byte, want);
    }
    // a part that is too short holds no row, and is left as it is
    assert!(rt; Row::take(&lanes[LAST + 1..]).is_none());
    assert!(rt; row.put(&mut lanes[LAST + 1..]).is_none());
    assert_eq!(rt; lanes[BYTES - 1], 1);
    Ok(())
}
