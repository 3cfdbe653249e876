// The pairs of different hosts of a rack, one after the other.
ghost use Rattle.std.specs.Prelude.{◌≡◌, ◌+◌, ◌-◌, ◌*◌, ◌<◌, MatchOption};
ghost use Rattle.std.specs.Iterator.{at_most};
ghost use Rattle.rack.specs.Racks.{node_count};
ghost use Rattle.routing.specs.Pairs.{pair_place, NextOf, NextPair};

use crate::pair::Pair;
use rack::numbers::Node;
use rack::rack::Rack;

// The pairs of different hosts from a place on, by ascending sender and then receiver.
#[derive(Drop)]
pub struct Pairs<'a> {
    rack: &'a Rack,
    from: usize,
}

impl<'a> Pairs<'a> {
    // All of them.
    pub fn of(rack: &'a Rack) -> Pairs<'a>
        ensures rack { result.rack.now ≡ rack.now }
        ensures from { result.from ≡ 0 }
    {
        Pairs { rack, from: 0 }
    }

    // The first pair of a sender that is at `from` or behind it. Of what is no host no receiver is looked at.
    fn next_of(&self, sender: Node) -> Option<Pair>
        requires { sender.0 < node_count self.now.rack.now }
        ensures { NextOf self.now.rack.now sender.0 self.now.from result }
    {
        if !self.rack.is_host(sender) {
            return None;
        }
        let nodes = self.rack.node_count();
        let row = nodes * usize::from(sender.0);
        for v in self.from.saturating_sub(row)..nodes {
            let receiver = Node(v as u16);
            let pair = Pair { sender, receiver };
            if pair.joins_hosts(self.rack) {
                return Some(pair);
            }
        }
        None
    }

    // The first pair that is at `from` or behind it: of the sender in whose row that is, or of one after it.
    fn next_pair(&self) -> Option<Pair>
        ensures { NextPair self.now.rack.now self.now.from result }
    {
        let nodes = self.rack.node_count();
        for u in self.from.checked_div(nodes)?..nodes {
            if let Some(pair) = self.next_of(Node(u as u16)) {
                return Some(pair);
            }
        }
        None
    }
}

impl Iterator for Pairs<'_> {
    type Item = Pair;

    ghost next_gives = { λ s r t. (t.rack.now ≡ s.rack.now) × NextPair s.rack.now s.from r × MatchOption r (t.from ≡ s.from) (λ p. t.from ≡ pair_place s.rack.now p.sender.0 p.receiver.0 + 1) };

    ghost remaining = { λ s. at_most (node_count s.rack.now * node_count s.rack.now - s.from) };

    fn next(&mut self) -> Option<Pair> {
        let pair = self.next_pair()?;
        let place = pair.place(self.rack);
        self.from = place + 1;
        Some(pair)
    }
}
