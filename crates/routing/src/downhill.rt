// The forwarding source that goes one channel nearer.
ghost use Rattle.std.specs.Prelude.{◌≡◌, ◌+◌, ◌<◌, Decides, MatchOption};
ghost use Rattle.rack.specs.Racks.{channel_count, head};
ghost use Rattle.routing.specs.Sources.{numbers, told, one_nearer, least, downhill_route};

use crate::distances::NO_WAY;
use crate::pair::Pair;
use crate::source::{ForwardingSource, switch_towards};
use rack::numbers::{Channel, Node};
use rack::rack::Rack;

#[derive(Clone, Copy)]
pub struct Downhill<'a> {
    pub rack: &'a Rack,
    // at place N w + v the distance from node w to host v; 255 where there is no way
    pub distances: &'a [u8],
}

impl Downhill<'_> {
    // The distance from a node to a host; none where there is no way, or beyond the table.
    fn distance(&self, node: Node, host: Node) -> Option<u8>
        ensures { MatchOption result (told self.now.rack.now self.now.distances.now node.0 host.0 ≡ 255) (λ d. (told self.now.rack.now self.now.distances.now node.0 host.0 ≡ d) × (d < 255)) }
    {
        let pair = Pair {
            sender: node,
            receiver: host,
        };
        let distance = *self.distances.get(pair.place(self.rack))?;
        (distance != NO_WAY).then_some(distance)
    }

    // Whether the head of the channel is nearer to the host than `distance` by one.
    fn leads_nearer(&self, channel: Channel, host: Node, distance: u8) -> bool
        ensures { Decides result ((channel.0 < channel_count self.now.rack.now) × (told self.now.rack.now self.now.distances.now (head self.now.rack.now channel.0) host.0 + 1 ≡ distance)) }
    {
        // no `is_some_and` in another: its goal stayed open
        let Some(ends) = self.rack.ends(channel) else {
            return false;
        };
        self.distance(ends.head.node, host)
            .is_some_and(|ahead| ahead + 1 == distance)
    }

    // The lowest-numbered channel out of the switch whose head is nearer than `distance` by one.
    fn nearer(&self, switch: Node, host: Node, distance: u8) -> Option<Channel>
        requires { distance ≡ told self.now.rack.now self.now.distances.now switch.0 host.0 }
        ensures { numbers result ≡ least (one_nearer self.now.rack.now self.now.distances.now switch.0 host.0) 0 (channel_count self.now.rack.now) }
    {
        self.rack
            .leaving(switch)
            .iter()
            .copied()
            .find(|channel| self.leads_nearer(*channel, host, distance))
    }
}

impl ForwardingSource for Downhill<'_> {
    ghost route = { λ s c v. downhill_route s.rack.now s.distances.now c v };

    fn next_channel(&self, arriving: Channel, destination: Node) -> Option<Channel> {
        let switch = switch_towards(self.rack, arriving, destination)?;
        let distance = self.distance(switch, destination)?;
        self.nearer(switch, destination, distance)
    }
}
