// What a rack tells of its nodes and channels.
ghost use Rattle.std.specs.Prelude.{◌≡◌, ℕ, ◌<◌, ◌≤◌, Decides, MatchOption};
ghost use Rattle.rack.specs.Index.{Lists};
ghost use Rattle.rack.specs.Network.{tail_end, head_end, Leaves};
ghost use Rattle.rack.specs.Racks.{node_count, channel_count, cables_of, Host, Switch, Leaving, Entering, EntersSwitch, back};

use crate::cable::End;
pub use crate::cable::Ends;
use crate::ends::{is_host_at, is_switch_at};
use crate::numbers::{Channel, Node};
use crate::rack::Rack;
use crate::rack::make::port_place;

// The other channel of the channel's cable.
pub fn way_back(channel: Channel) -> Channel
    ensures { result.0 ≡ back channel.0 }
{
    if channel.0 % 2 == 0 {
        Channel(channel.0 + 1)
    } else {
        Channel(channel.0 - 1)
    }
}

impl Rack {
    pub fn node_count(&self) -> usize
        ensures { (result ≡ node_count self.now) × (result ≤ 128) }
    {
        self.nodes.len()
    }

    pub fn channel_count(&self) -> usize
        ensures { (result ≡ channel_count self.now) × (result ≤ 512) }
    {
        self.cables.len() * 2
    }

    pub fn is_host(&self, node: Node) -> bool
        ensures { Decides result (Host self.now node.0) }
    {
        is_host_at(&self.nodes, node)
    }

    pub fn is_switch(&self, node: Node) -> bool
        ensures { Decides result (Switch self.now node.0) }
    {
        is_switch_at(&self.nodes, node)
    }

    // The ends of a channel; none if there is no such channel.
    pub fn ends(&self, channel: Channel) -> Option<Ends>
        ensures { MatchOption result (channel_count self.now ≤ channel.0) (λ e. (channel.0 < channel_count self.now) × (e.tail ≡ tail_end (cables_of self.now) channel.0) × (e.head ≡ head_end (cables_of self.now) channel.0)) }
    {
        let cable = self.cables.get(usize::from(channel.0 / 2))?;
        Some(cable.ends(channel))
    }

    // The switch that a channel enters; none if it enters a host or is no channel.
    pub fn switch_entered(&self, channel: Channel) -> Option<Node>
        ensures { MatchOption result ((w : ℕ) → EntersSwitch self.now channel.0 w → ⊥) (λ w. EntersSwitch self.now channel.0 w.0) }
    {
        let node = self.ends(channel)?.head.node;
        self.is_switch(node).then_some(node)
    }

    // The channels that leave the node, in ascending order; none leaves what is no node.
    pub fn leaving(&self, node: Node) -> &[Channel]
        ensures { Lists (Leaving self.now node.0) result.now }
    {
        match self.leaving.get(usize::from(node.0)) {
            Some(channels) => channels,
            None => &[],
        }
    }

    // The channel that leaves by the port; none if none does.
    pub fn channel_at(&self, end: End) -> Option<Channel>
        ensures { MatchOption result ((c : ℕ) → Leaves (cables_of self.now) end c → ⊥) (λ c. Leaves (cables_of self.now) end c.0) }
    {
        // behind the places of a node's ports are those of the next node's
        if end.port.0 > 36 {
            return None;
        }
        *self.ports.get(port_place(end))?
    }

    // The lowest-numbered channel from `from` on that leaves the node; none if none does.
    pub fn next_leaving(&self, node: Node, from: Channel) -> Option<Channel>
        ensures { MatchOption result ((c : ℕ) → from.0 ≤ c → Leaving self.now node.0 c → ⊥) (λ c. (from.0 ≤ c.0) × Leaving self.now node.0 c.0 × ((d : ℕ) → from.0 ≤ d → d < c.0 → Leaving self.now node.0 d → ⊥)) }
    {
        self.leaving(node)
            .iter()
            .copied()
            .find(|leaving| *leaving >= from)
    }

    // The lowest-numbered channel from `from` on that enters the node; none if none does.
    pub fn next_entering(&self, node: Node, from: Channel) -> Option<Channel>
        ensures { MatchOption result ((c : ℕ) → from.0 ≤ c → Entering self.now node.0 c → ⊥) (λ c. (from.0 ≤ c.0) × Entering self.now node.0 c.0 × ((d : ℕ) → from.0 ≤ d → d < c.0 → Entering self.now node.0 d → ⊥)) }
    {
        self.leaving(node)
            .iter()
            .map(|channel| way_back(*channel))
            .find(|entering| *entering >= from)
    }

    // The channel out of a host; none if the node is no host.
    pub fn channel_out(&self, host: Node) -> Option<Channel>
        ensures { MatchOption result (Host self.now host.0 → ⊥) (λ c. Host self.now host.0 × Leaving self.now host.0 c.0 × ((d : ℕ) → Leaving self.now host.0 d → d ≡ c.0) × ((w : ℕ) × EntersSwitch self.now c.0 w)) }
    {
        if self.is_host(host) {
            self.next_leaving(host, Channel(0))
        } else {
            None
        }
    }
}
