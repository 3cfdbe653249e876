// What is wrong with a path: each refusal, with its pair and its hop.
ghost use Rattle.std.specs.Prelude.{Some as There};

use crate::distances::distances_of;
use crate::racks::parted;
use crate::walks::{check_stops, plan_of};
use example_racks::{CLOCKWISE, triangle};
use rack::numbers::{Channel, Node};
use routing::downhill::Downhill;
use routing::one_lane::OneLane;
use routing::pair::Pair;
use routing::source::ForwardingSource;
use routing::stored::Stored;
use routing::two_hop::TwoHop;
use std::process::Abort;
use std::test::Fail;

// A source that names the same channel wherever it is asked.
#[derive(Clone, Copy)]
struct Always {
    channel: u16,
}

impl ForwardingSource for Always {
    ghost route = { λ s _ _. There s.channel };

    fn next_channel(&self, _arriving: Channel, _destination: Node) -> Option<Channel> {
        Some(Channel(self.channel))
    }
}

// A channel of another switch, a channel out of a host, and numbers that are no channel's.
#[test]
fn elsewhere(rt: HostRuntime) -> Result<(), Fail> {
    let heap = rt.alloc();
    let rack = triangle(heap)?;
    for channel in [10u16, 0, 12, 65535] {
        let source = Always { channel };
        let plan = plan_of(&rack, &source, &OneLane, 8);
        check_stops(&rt, heap, &plan, Pair::of(0, 2), 21, 1)?;
    }
    // the first turn is one, and the second is not
    let source = Always { channel: 6 };
    let plan = plan_of(&rack, &source, &OneLane, 8);
    check_stops(&rt, heap, &plan, Pair::of(0, 2), 21, 2)
}

// The table has another entry at the place. The tests of plans make such tables too: `example_racks` has a rack as it should be, and no slips of it.
fn check_changed(
    rt: &(impl Abort + AllocGlobal),
    place: usize,
    entry: u16,
    number: u8,
    hop: u16,
) -> Result<(), Fail> {
    let heap = rt.alloc();
    let rack = triangle(heap)?;
    let mut forwarding = CLOCKWISE;
    if let Some(word) = forwarding.get_mut(place) {
        *word = entry;
    }
    let source = Stored {
        rack: &rack,
        forwarding: &forwarding,
    };
    let plan = plan_of(&rack, &source, &OneLane, 1);
    check_stops(rt, heap, &plan, Pair::of(0, 2), number, hop)
}

#[test]
fn stored(rt: HostRuntime) -> Result<(), Fail> {
    // 3 has no entry for 2
    check_changed(&rt, 20, 0, 20, 1)?;
    // 5 has none
    check_changed(&rt, 32, 0, 20, 3)?;
    // 4 sends the packets for 2 back to 3
    check_changed(&rt, 26, 8, 23, 12)?;
    // 4 sends them to its own host
    check_changed(&rt, 26, 4, 22, 2)?;
    // 3 sends them back to their sender
    check_changed(&rt, 20, 2, 22, 1)?;
    // 4 names a channel of 5
    check_changed(&rt, 26, 6, 21, 2)
}

// What is not two different hosts is no pair.
#[test]
fn no_pair(rt: HostRuntime) -> Result<(), Fail> {
    let heap = rt.alloc();
    let rack = triangle(heap)?;
    let forwarding = CLOCKWISE;
    let source = Stored {
        rack: &rack,
        forwarding: &forwarding,
    };
    let plan = plan_of(&rack, &source, &OneLane, 1);
    for (sender, receiver) in [(1u16, 1u16), (3, 0), (0, 3), (0, 6), (65535, 0)] {
        check_stops(&rt, heap, &plan, Pair::of(sender, receiver), 30, 0)?;
    }
    Ok(())
}

// Lane 1 is not below the lane count.
#[test]
fn lane(rt: HostRuntime) -> Result<(), Fail> {
    let heap = rt.alloc();
    let rack = triangle(heap)?;
    let forwarding = CLOCKWISE;
    let source = Stored {
        rack: &rack,
        forwarding: &forwarding,
    };
    let map = TwoHop { rack: &rack };
    let plan = plan_of(&rack, &source, &map, 1);
    check_stops(&rt, heap, &plan, Pair::of(0, 1), 24, 2)
}

// Where there is no way, the downhill source names no channel.
#[test]
fn no_way(rt: HostRuntime) -> Result<(), Fail> {
    let heap = rt.alloc();
    let rack = parted(heap)?;
    let table: [u8; 16] = distances_of(&rack)?;
    let source = Downhill {
        rack: &rack,
        distances: &table,
    };
    let plan = plan_of(&rack, &source, &OneLane, 1);
    check_stops(&rt, heap, &plan, Pair::of(0, 1), 20, 1)
}
