// The fewest channels from every node to every host, or to one node, through switches only.
ghost use Rattle.std.specs.Prelude.{◌≡◌, ℕ, ◌+◌, ◌*◌, ◌<◌, ◌≤◌, true, false, ◌⊎◌, length, drop, is_ok, Decides};
ghost use Rattle.rack.specs.Racks.{node_count, channel_count, Switch};
ghost use Rattle.routing.specs.Ways.{Distances, Fewest, far, Beside, Reached, Spread};

use crate::fault::DistanceFault;
use crate::pair::Pair;
use crate::sizes::node_pairs;
use rack::numbers::Node;
use rack::rack::Rack;

// What the distance table holds where there is no way. A byte and no `Option`: the table is lent, and callers read it.
pub const NO_WAY: u8 = 255;

// The column of a node in the distance table: the places of the distances to it.
// The table itself is lent by each call: in here, each method would have to say that it is still the same table, and that all else stays. So that it has room is a clause there.
#[derive(Clone, Copy)]
pub struct Column<'a> {
    pub rack: &'a Rack,
    pub target: Node,
    ghost within: { target.0 < node_count rack.now },
}

impl Column<'_> {
    // The place of the distance from a node.
    fn place(&self, node: Node) -> usize
        ensures { result ≡ node_count self.now.rack.now * node.0 + self.now.target.0 }
    {
        let pair = Pair {
            sender: node,
            receiver: self.target,
        };
        pair.place(self.rack)
    }

    // Gives that distance to each node that has no way yet and from which a channel leads to `node`; whether there was one.
    fn reach(&self, distances: &mut [u8], node: Node, distance: u8) -> bool
        requires room { node_count self.now.rack.now * node_count self.now.rack.now ≤ length distances.old }
        requires small { distance < 255 }
        ensures { Reached self.now.rack.now self.now.target.0 node.0 distance (channel_count self.now.rack.now) distances.old distances.new result }
    {
        let mut found = false;
        for channel in self.rack.leaving(node) {
            // the other channel of the cable leads back to `node`
            if let Some(ends) = self.rack.ends(*channel) {
                let place = self.place(ends.head.node);
                if distances[place] == NO_WAY {
                    distances[place] = distance;
                    found = true;
                }
            }
        }
        found
    }

    // Whether a way to the target may go on from the node: it is the target itself or a switch.
    fn lets_through(&self, node: Node) -> bool
        ensures { Decides result ((node.0 ≡ self.now.target.0) ⊎ Switch self.now.rack.now node.0) }
    {
        node == self.target || self.rack.is_switch(node)
    }

    // One round: whatever has a channel to a node at that distance, the target itself or a switch, is one farther, if it has no way yet.
    fn spread(&self, distances: &mut [u8], distance: u8) -> bool
        requires room { node_count self.now.rack.now * node_count self.now.rack.now ≤ length distances.old }
        requires small { distance < 128 }
        ensures { Spread self.now.rack.now self.now.target.0 distance (node_count self.now.rack.now) distances.old distances.new result }
    {
        let mut found = false;
        for node in (0..self.rack.node_count() as u16).map(Node) {
            if distances[self.place(node)] == distance && self.lets_through(node) {
                found |= self.reach(distances, node, distance + 1);
            }
        }
        found
    }

    // Fills the column, which holds no way yet, with the distances to the target.
    pub fn fill(&self, distances: &mut [u8])
        requires room { node_count self.now.rack.now * node_count self.now.rack.now ≤ length distances.old }
        requires blank { (w : ℕ) → w < node_count self.now.rack.now → far (node_count self.now.rack.now) self.now.target.0 distances.old w ≡ 255 }
        ensures column { (w : ℕ) → w < node_count self.now.rack.now → Fewest self.now.rack.now self.now.target.0 w (far (node_count self.now.rack.now) self.now.target.0 distances.new w) }
        ensures beside { Beside (node_count self.now.rack.now) self.now.target.0 distances.old distances.new }
    {
        distances[self.place(self.target)] = 0;
        for distance in 0..self.rack.node_count() as u8 {
            if !self.spread(distances, distance) {
                return;
            }
        }
    }
}

// Fills the distance table: place N w + v holds the fewest channels from node w to host v through switches only, 255 where there is no way.
pub fn fill_distances(rack: &Rack, distances: &mut [u8]) -> Result<(), DistanceFault>
    ensures short { length distances.old < node_count rack.now * node_count rack.now → (is_ok result ≡ false) × (distances.new ≡ distances.old) }
    ensures filled { node_count rack.now * node_count rack.now ≤ length distances.old → (is_ok result ≡ true) × Distances rack.now distances.new }
    ensures beyond { drop (node_count rack.now * node_count rack.now) distances.new ≡ drop (node_count rack.now * node_count rack.now) distances.old }
{
    let places = node_pairs(rack);
    if distances.len() < places {
        return Err(DistanceFault::Tables);
    }
    distances[..places].fill(NO_WAY);
    for host in (0..rack.node_count() as u16).map(Node) {
        if rack.is_host(host) {
            Column { rack, target: host }.fill(distances);
        }
    }
    Ok(())
}
