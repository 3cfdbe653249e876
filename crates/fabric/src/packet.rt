// What waits in a queue.
ghost use Rattle.std.specs.Prelude.{◌≡◌, ◌+◌, ◌*◌, ◌/◌, ◌<◌};
ghost use Rattle.fabric.specs.Packets.{next_hop, moved, delivery};
ghost use Rattle.fabric.specs.Padded.{no_packet};

use crate::fault::FabricFault;
use rack::numbers::{Channel, Lane, Level, Node};
use routing::pair::Pair;

// A packet of a pair, at the level that it was admitted with, and on which hop of its path it is.
#[derive(Clone, Copy)]
pub struct Packet {
    pub pair: Pair,
    pub level: Level,
    pub hop: u16,
    pub tag: u32,
}

// What is told of a packet that was taken.
#[derive(Clone, Copy, PartialEq, Eq, Debug)]
pub struct Delivery {
    pub pair: Pair,
    pub tag: u32,
}

// Lane v of channel c, by its number 8c + v. Any number can be asked for; not every one is a virtual channel of a rack.
#[derive(Clone, Copy, PartialEq, Eq, Debug)]
pub struct VirtualChannel(pub u16);

impl VirtualChannel {
    // A lane of a channel; a rack has no more than 512 channels.
    pub(crate) fn of(channel: Channel, lane: Lane) -> VirtualChannel
        requires { channel.0 < 512 }
        ensures { result.0 ≡ 8 * channel.0 + lane.number }
    {
        VirtualChannel(8 * channel.0 + u16::from(lane.number()))
    }

    pub(crate) fn channel(self) -> Channel
        ensures { result.0 ≡ self.0 / 8 }
    {
        Channel(self.0 / 8)
    }

    // The place of its queue.
    pub(crate) fn place(self) -> usize
        ensures { result ≡ self.0 }
    {
        usize::from(self.0)
    }
}

impl Packet {
    // What stands in the unused places of a queue. Named, and no `Default`: outside a queue it means nothing.
    pub(crate) fn none() -> Packet
        ensures { result ≡ no_packet }
    {
        Packet {
            pair: Pair {
                sender: Node(0),
                receiver: Node(0),
            },
            level: Level::zero(),
            hop: 0,
            tag: 0,
        }
    }

    // The hop after the packet's; it stops at 65,535.
    pub(crate) fn next_hop(self) -> u16
        ensures { result ≡ next_hop self.hop }
    {
        self.hop.saturating_add(1)
    }

    // The packet one hop further on.
    pub(crate) fn moved(self) -> Packet
        ensures { result ≡ moved self }
    {
        Packet {
            hop: self.next_hop(),
            ..self
        }
    }

    // That it is not where it should be.
    pub(crate) fn misplaced(self) -> FabricFault
        ensures { result ≡ FabricFault.Misplaced self.pair self.hop }
    {
        FabricFault::Misplaced {
            pair: self.pair,
            hop: self.hop,
        }
    }
}

// What is told of the packet when it is taken.
impl From<Packet> for Delivery {
    ghost from_gives = { λ p d. d ≡ delivery p };

    fn from(packet: Packet) -> Delivery {
        Delivery {
            pair: packet.pair,
            tag: packet.tag,
        }
    }
}
