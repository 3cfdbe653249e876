// How many places the tables of a rack have.
ghost use Rattle.std.specs.Prelude.{◌≡◌, ◌*◌, ◌≤◌};
ghost use Rattle.rack.specs.Racks.{node_count, channel_count};
ghost use Rattle.routing.specs.Turns.{turn_count, lane_bytes};

use crate::rows::{LEVELS, PORTS};
use rack::rack::Rack;

// A place for each pair of nodes: a path table, a distance table, a forwarding table.
pub fn node_pairs(rack: &Rack) -> usize
    ensures { result ≡ node_count rack.now * node_count rack.now }
{
    rack.node_count() * rack.node_count()
}

// A word for each turn: a dependency table.
pub fn dependency_words(rack: &Rack) -> usize
    ensures { result ≡ turn_count (channel_count rack.now) }
{
    PORTS * rack.channel_count()
}

// A byte for each turn and each level: a lane table.
pub fn lane_bytes(rack: &Rack) -> usize
    ensures { result ≡ lane_bytes (channel_count rack.now) }
{
    LEVELS * dependency_words(rack)
}

// Eight for each channel: ranks, a ring, queues.
pub fn virtual_channels(rack: &Rack) -> usize
    ensures count { result ≡ 8 * channel_count rack.now }
    ensures small { result ≤ 4096 }
{
    8 * rack.channel_count()
}
