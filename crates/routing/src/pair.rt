// A sender and a receiver, and their place in a table with a place for every pair of nodes.
ghost use Rattle.std.specs.Prelude.{◌≡◌, ◌+◌, ◌*◌, Decides, MatchOption};
ghost use Rattle.rack.specs.Racks.{node_count, Leaving};
ghost use Rattle.routing.specs.Paths.{PairOf};

use rack::numbers::{Channel, Node};
use rack::rack::Rack;

// A sender and a receiver.
#[derive(Clone, Copy, PartialEq, Eq, Debug)]
pub struct Pair {
    pub sender: Node,
    pub receiver: Node,
}

impl Pair {
    // Sender `u` and receiver `v`.
    pub fn of(u: u16, v: u16) -> Pair
        ensures { result ≡ record { sender = record { 0 = u }; receiver = record { 0 = v } } }
    {
        Pair {
            sender: Node(u),
            receiver: Node(v),
        }
    }

    // Place N u + v, for sender u and receiver v.
    pub fn place(self, rack: &Rack) -> usize
        ensures { result ≡ node_count rack.now * self.sender.0 + self.receiver.0 }
    {
        rack.node_count() * usize::from(self.sender.0) + usize::from(self.receiver.0)
    }

    // Whether these are two different hosts of the rack.
    pub fn joins_hosts(self, rack: &Rack) -> bool
        ensures { Decides result (PairOf rack.now self.sender.0 self.receiver.0) }
    {
        self.sender != self.receiver && rack.is_host(self.sender) && rack.is_host(self.receiver)
    }

    // The channel on which the pair's packets begin; none if these are not two different hosts.
    pub fn way_out(self, rack: &Rack) -> Option<Channel>
        ensures { MatchOption result (PairOf rack.now self.sender.0 self.receiver.0 → ⊥) (λ c. PairOf rack.now self.sender.0 self.receiver.0 × Leaving rack.now self.sender.0 c.0) }
    {
        if self.joins_hosts(rack) {
            rack.channel_out(self.sender)
        } else {
            None
        }
    }
}
