// The lane table of the two-hop map.
ghost use Rattle.std.specs.Prelude.{◌≡◌, ◌≤◌, length};
ghost use Rattle.rack.specs.Racks.{channel_count};
ghost use Rattle.routing.specs.Turns.{lane_bytes};
ghost use Rattle.workbench.specs.TwoHops.{FilledRows, HoldsTwoHop, lane_of};

use rack::numbers::Channel;
use rack::rack::Rack;
use routing::rows::{LEVELS, PORTS};

// The bytes of one channel in a lane table: a row for each port.
const ROWS: usize = LEVELS * PORTS;

// The lane behind a channel: 1 if it leaves a switch, else 0.
fn lane_behind(rack: &Rack, channel: Channel) -> u8
    ensures { result ≡ lane_of rack.now channel.0 }
{
    match rack.ends(channel) {
        Some(ends) if rack.is_switch(ends.tail.node) => 1,
        _ => 0,
    }
}

// Writes the two-hop map into a lane table.
pub(crate) fn fill_two_hop(rack: &Rack, lanes: &mut [u8])
    requires { lane_bytes (channel_count rack.now) ≤ length lanes.old }
    ensures long { length lanes.new ≡ length lanes.old }
    ensures rows { FilledRows rack.now lanes.new }
    ensures map { HoldsTwoHop rack.now lanes.new }
{
    for channel in 0..rack.channel_count() {
        let from = ROWS * channel;
        lanes[from..from + ROWS].fill(lane_behind(rack, Channel(channel as u16)));
    }
}
