// Distance tables: on the line, on a rack in two parts, and tables that are too short or longer.
use crate::racks::parted;
use example_racks::line;
use rack::rack::Rack;
use routing::distances::fill_distances;
use routing::fault::DistanceFault;
use std::test::Fail;

// The distances of a rack, in a table of as many places.
pub fn distances_of<const N: usize>(rack: &Rack) -> Result<[u8; N], DistanceFault> {
    let mut table = [0u8; N];
    fill_distances(rack, &mut table)?;
    Ok(table)
}

#[test]
fn on_the_line(rt: HostRuntime) -> Result<(), Fail> {
    let rack = line(rt.alloc())?;
    let mut table = [9u8; 64];
    fill_distances(&rack, &mut table)?;
    let rows: [[u8; 8]; 8] = [
        [0, 3, 4, 5, 255, 255, 255, 255],
        [3, 0, 3, 4, 255, 255, 255, 255],
        [4, 3, 0, 3, 255, 255, 255, 255],
        [5, 4, 3, 0, 255, 255, 255, 255],
        [1, 2, 3, 4, 255, 255, 255, 255],
        [2, 1, 2, 3, 255, 255, 255, 255],
        [3, 2, 1, 2, 255, 255, 255, 255],
        [4, 3, 2, 1, 255, 255, 255, 255],
    ];
    for (found, want) in table.chunks_exact(8).zip(&rows) {
        assert_eq!(rt; found, want.as_slice());
    }
    Ok(())
}

// Between the parts there is no way, and the places beyond those needed are as they were.
#[test]
fn in_two_parts(rt: HostRuntime) -> Result<(), Fail> {
    let rack = parted(rt.alloc())?;
    let mut table = [9u8; 18];
    fill_distances(&rack, &mut table)?;
    assert_eq!(rt;
        table,
        [
            0, 255, 255, 255, 255, 0, 255, 255, 1, 255, 255, 255, 255, 1, 255, 255, 9, 9,
        ]
    );
    Ok(())
}

// A table one place short is refused, and is as it was.
#[test]
fn one_short(rt: HostRuntime) -> Result<(), Fail> {
    let rack = parted(rt.alloc())?;
    let mut table = [9u8; 15];
    let fault = fill_distances(&rack, &mut table)
        .err()
        .ok_or_else(|| Fail::new("filled"))?;
    assert_eq!(rt; fault.number(), 9);
    assert_eq!(rt; table, [9u8; 15]);
    Ok(())
}
