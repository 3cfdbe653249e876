// The forwarding source that goes up and then down.
ghost use Rattle.std.specs.Prelude.{◌≡◌, ℕ, ◌+◌, ◌*◌, ◌<◌, true, false, not, length, slice_set};
ghost use Rattle.rack.specs.Racks.{node_count, channel_count, Leaving};
ghost use Rattle.up_down.specs.Ways.{up};
ghost use Rattle.up_down.specs.Sources.{Made, tier_of, table_of, begin_at, up_down_route};
ghost use Rattle.up_down.specs.Tables.{TiersIn, shorter, FewestIs, BeginsBy, BeginIs, RowIs, Ready, Given, RowFilled, Same, AllRows};

use crate::begin::Begin;
use crate::fault::UpDownFault;
use crate::tiers::tiers_over;
use rack::numbers::{Channel, Node};
use rack::rack::Rack;
use routing::distances::NO_WAY;
use routing::pair::Pair;
use routing::sizes::node_pairs;
use routing::source::ForwardingSource;
use std::alloc::Global;

// A source over a rack and a root, with tables of its own.
#[derive(Drop)]
pub struct UpDown<'a> {
    rack: &'a Rack,
    // for each node how many cables it is away from the root
    tiers: Vec<u8>,
    // at place N w + v how a shortest way from node w to node v begins, of ways of one channel or more that may go up and then down; none without one
    rising: Vec<Option<Begin>>,
    // the same of ways that only go down
    falling: Vec<Option<Begin>>,
}

impl UpDown<'_> {
    // Whether the channel is up; what is no channel is not.
    fn is_up(&self, channel: Channel) -> bool
        ensures { channel.0 < channel_count self.now.rack.now → result ≡ up self.now.rack.now (tier_of self.now.tiers.items) channel.0 }
    {
        let Some(ends) = self.rack.ends(channel) else {
            return false;
        };
        let (tail, head) = (ends.tail.node, ends.head.node);
        let (from, to) = (self.tier(tail), self.tier(head));
        to < from || to == from && head < tail
    }

    // The tier of a node; 0 beyond the nodes.
    fn tier(&self, node: Node) -> u8
        ensures { result ≡ tier_of self.now.tiers.items node.0 }
    {
        self.tiers.get(usize::from(node.0)).copied().unwrap_or(0)
    }

    // Where the tables speak of the ways from a node to another.
    fn place(&self, node: Node, receiver: Node) -> usize
        ensures { result ≡ node_count self.now.rack.now * node.0 + receiver.0 }
    {
        let pair = Pair {
            sender: node,
            receiver: receiver,
        };
        pair.place(self.rack)
    }

    // How a shortest way from the node begins, as the table tells.
    fn told(&self, down: bool, node: Node, receiver: Node) -> Option<Begin>
        ensures { result ≡ begin_at self.now down node.0 receiver.0 }
    {
        let table = if down { &self.falling } else { &self.rising };
        *table.get(self.place(node, receiver))?
    }

    // How many channels a shortest way from the node has; none without a way.
    fn length(&self, down: bool, node: Node, receiver: Node) -> Option<u16>
        requires tiers { (root : ℕ) × TiersIn self.now.rack.now root self.now.tiers.items }
        requires nodes { (node.0 < node_count self.now.rack.now) × (receiver.0 < node_count self.now.rack.now) }
        requires row { RowIs self.now down node.0 }
        ensures { FewestIs self.now.rack.now (tier_of self.now.tiers.items) receiver.0 down node.0 result }
    {
        if node == receiver {
            return Some(0);
        }
        let begin = self.told(down, node, receiver)?;
        Some(begin.left + 1)
    }

    // How a shortest way from the node begins that begins with the channel, which leaves it; none without a way.
    fn begin_by(&self, down: bool, node: Node, channel: Channel, receiver: Node) -> Option<Begin>
        requires tiers { (root : ℕ) × TiersIn self.now.rack.now root self.now.tiers.items }
        requires leaves { Leaving self.now.rack.now node.0 channel.0 }
        requires receiver { receiver.0 < node_count self.now.rack.now }
        requires ready { Ready self.now down node.0 }
        ensures { BeginsBy self.now.rack.now (tier_of self.now.tiers.items) receiver.0 down node.0 channel.0 result }
    {
        let up = self.is_up(channel);
        if down && up {
            return None;
        }
        let ends = self.rack.ends(channel)?;
        let left = self.length(!up, ends.head.node, receiver)?;
        Some(Begin {
            first: channel,
            left,
        })
    }

    // How a shortest way from the node begins, with the lowest-numbered channel that begins one.
    fn begin(&self, down: bool, node: Node, receiver: Node) -> Option<Begin>
        requires tiers { (root : ℕ) × TiersIn self.now.rack.now root self.now.tiers.items }
        requires receiver { receiver.0 < node_count self.now.rack.now }
        requires ready { Ready self.now down node.0 }
        ensures { BeginIs self.now.rack.now (tier_of self.now.tiers.items) receiver.0 down node.0 result }
    {
        let mut best = None;
        for channel in self.rack.leaving(node) {
            best = shorter(best, self.begin_by(down, node, *channel, receiver));
        }
        best
    }

    // Writes to one of the tables.
    fn write(&mut self, down: bool, place: usize, begin: Option<Begin>)
        requires { (place < length self.old.rising.items) × (place < length self.old.falling.items) }
        ensures same { Same self.old self.new }
        ensures written { table_of self.new down ≡ slice_set (table_of self.old down) place begin }
        ensures other { table_of self.new (not down) ≡ table_of self.old (not down) }
    {
        if down {
            self.falling[place] = begin;
        } else {
            self.rising[place] = begin;
        }
    }

    // Fills the row of a node in one of the tables.
    fn fill_row(&mut self, down: bool, node: Node)
        requires given { (root : ℕ) × Given root self.old }
        requires node { node.0 < node_count self.old.rack.now }
        requires ready { Ready self.old down node.0 }
        ensures { RowFilled down node.0 self.old self.new }
    {
        for receiver in (0..self.rack.node_count() as u16).map(Node) {
            let begin = self.begin(down, node, receiver);
            self.write(down, self.place(node, receiver), begin);
        }
    }

    // Fills the rows of the ways that only go down, the nodes farthest from the root first.
    fn fill_falling(&mut self)
        requires { (root : ℕ) × Given root self.old }
        ensures { Same self.old self.new × AllRows self.new true }
    {
        let nodes = self.rack.node_count();
        // tiers are below `NO_WAY`
        let mut at = nodes * usize::from(NO_WAY);
        while at > 0 {
            at -= 1;
            let node = Node((at % nodes) as u16);
            if usize::from(self.tier(node)) == at / nodes {
                self.fill_row(true, node);
            }
        }
    }

    // Fills the rows of the ways that may go up first, the root first.
    fn fill_rising(&mut self)
        requires given { (root : ℕ) × Given root self.old }
        requires falling { AllRows self.old true }
        ensures { Same self.old self.new × AllRows self.new true × AllRows self.new false }
    {
        let nodes = self.rack.node_count();
        for at in 0..nodes * usize::from(NO_WAY) {
            let node = Node((at % nodes) as u16);
            if usize::from(self.tier(node)) == at / nodes {
                self.fill_row(false, node);
            }
        }
    }
}

// The shorter of two beginnings; the first of them where they are as long.
fn shorter(one: Option<Begin>, other: Option<Begin>) -> Option<Begin>
    ensures { result ≡ shorter one other }
{
    match (one, other) {
        (Some(begin), Some(next)) if next.left < begin.left => other,
        (Some(_), _) => one,
        (None, _) => other,
    }
}

impl<'a> UpDown<'a> {
    // A source over a root switch that all nodes can reach; refused if the root is no switch, or else a node cannot.
    pub fn new(heap: Global, rack: &'a Rack, root: Node) -> Result<UpDown<'a>, UpDownFault>
        ensures { Made rack.now root.0 result }
    {
        if !rack.is_switch(root) {
            return Err(UpDownFault::Root(root));
        }
        let tiers = tiers_over(heap, rack, root)?;
        let mut source = UpDown {
            rack,
            tiers,
            rising: vec![in heap; None; node_pairs(rack)]?,
            falling: vec![in heap; None; node_pairs(rack)]?,
        };
        source.fill_falling();
        source.fill_rising();
        Ok(source)
    }
}

impl ForwardingSource for UpDown<'_> {
    ghost route = { λ s c v. up_down_route s c v };

    fn next_channel(&self, arriving: Channel, destination: Node) -> Option<Channel> {
        let switch = self.rack.switch_entered(arriving)?;
        if !self.rack.is_host(destination) {
            return None;
        }
        let begin = self.told(!self.is_up(arriving), switch, destination)?;
        Some(begin.first)
    }
}
