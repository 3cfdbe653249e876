// The forwarding source that reads a forwarding table.
ghost use Rattle.routing.specs.Sources.{stored_route};

use crate::pair::Pair;
use crate::source::{ForwardingSource, switch_towards};
use rack::numbers::{Channel, Node};
use rack::rack::Rack;

#[derive(Clone, Copy)]
pub struct Stored<'a> {
    pub rack: &'a Rack,
    // at place N w + v, for switch w and host v, one more than the channel; 0 for none: words of a lent table, as a file's reader writes them
    pub forwarding: &'a [u16],
}

impl ForwardingSource for Stored<'_> {
    ghost route = { λ s c v. stored_route s.rack.now s.forwarding.now c v };

    fn next_channel(&self, arriving: Channel, destination: Node) -> Option<Channel> {
        let switch = switch_towards(self.rack, arriving, destination)?;
        let pair = Pair {
            sender: switch,
            receiver: destination,
        };
        let entry = *self.forwarding.get(pair.place(self.rack))?;
        entry.checked_sub(1).map(Channel)
    }
}
