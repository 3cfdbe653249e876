// A rack: nodes and cables that keep the rules, with the channels that leave each node and each port.
ghost use Rattle.rack.specs.Network.{KeepsRules};
ghost use Rattle.rack.specs.Index.{Listed, Ported};

use crate::cable::Cable;
use crate::numbers::Channel;

pub mod ask;
pub mod make;

#[derive(Drop)]
pub struct Rack {
    // the node table: 1 a host, 2 a switch, by bytes: definitions speak of them, and a list of `Kind` would be a translation
    nodes: Vec<u8>,
    cables: Vec<Cable>,
    // for each node the channels that leave it, in ascending order
    leaving: Vec<Vec<Channel>>,
    // for each port of each node the channel that leaves there, if one does
    ports: Vec<Option<Channel>>,
    ghost rules: { KeepsRules nodes.items cables.items },
    ghost listed: { Listed nodes.items cables.items leaving.items },
    ghost ported: { Ported nodes.items cables.items ports.items },
}
