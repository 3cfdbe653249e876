// Makes a rack from tables that keep the rules.
ghost use Rattle.std.specs.Prelude.{◌≡◌, ℕ, ◌<◌, [], length, IfOk, Decides, MatchResult, ◌≢◌, slice_index_or};
ghost use Rattle.rack.specs.Network.{none, KeepsRules, KnownKinds, AllJoin, Apart};
ghost use Rattle.rack.specs.Index.{list_of, Listed, port_place, Ported};
ghost use Rattle.rack.specs.Racks.{nodes_of, cables_of, Refuses};

use crate::cable::{Cable, End};
use crate::ends::{is_free, joins_ports, lonely_host};
use crate::fault::RackFault;
use crate::kind::Kind;
use crate::numbers::Channel;
use crate::rack::Rack;
use std::alloc::{AllocError, Global};

// Whether each node is a host or a switch.
fn kinds_known(nodes: &[u8]) -> bool
    ensures { Decides result (KnownKinds nodes.now) }
{
    nodes.iter().all(|number| Kind::of(*number).is_some())
}

// Whether each cable joins ports of two different nodes that are not both hosts.
// Both tables side by side, here and in `ends`: the caller of `from_tables` lends them so, and definitions such as `KeepsRules` take the two; a struct would be taken apart in each clause.
fn all_join(nodes: &[u8], cables: &[Cable]) -> bool
    ensures { Decides result (AllJoin nodes.now cables.now) }
{
    cables.iter().all(|cable| joins_ports(nodes, *cable))
}

// Whether no two cables, each between two different nodes, end at one port.
fn all_apart(cables: &[Cable]) -> bool
    requires { (k : ℕ) → k < length cables.now → (slice_index_or cables.now k none).first.node.0 ≢ (slice_index_or cables.now k none).second.node.0 }
    ensures { Decides result (Apart cables.now) }
{
    cables
        .iter()
        .enumerate()
        .all(|(k, cable)| is_free(&cables[..k], *cable))
}

// Whether the tables keep the rules of a rack.
fn keeps_rules(nodes: &[u8], cables: &[Cable]) -> bool
    ensures { Decides result (KeepsRules nodes.now cables.now) }
{
    if nodes.len() > 128 || cables.len() > 256 {
        return false;
    }
    if !kinds_known(nodes) || !all_join(nodes, cables) {
        return false;
    }
    all_apart(cables) && lonely_host(nodes, cables).is_none()
}

// An empty list for each node.
fn no_channels(heap: Global, nodes: usize) -> Result<Vec<Vec<Channel>>, AllocError>
    ensures long { IfOk result (λ lists. length lists.items ≡ nodes) }
    ensures empty { IfOk result (λ lists. (v : ℕ) → list_of lists.items v ≡ []) }
{
    (0..nodes).map(|_| Vec::new(heap)).collect(heap)
}

// For each node the channels that leave it: each channel goes to the end of its tail's list.
fn list_channels(
    heap: Global,
    nodes: &[u8],
    cables: &[Cable],
) -> Result<Vec<Vec<Channel>>, AllocError>
    requires { KeepsRules nodes.now cables.now }
    ensures { IfOk result (λ lists. Listed nodes.now cables.now lists.items) }
{
    let mut lists = no_channels(heap, nodes.len())?;
    // over numbers: what is listed so far is said channel by channel, two for each cable
    for number in 0..2 * cables.len() {
        let channel = Channel(number as u16);
        let tail = cables[number / 2].ends(channel).tail;
        lists[usize::from(tail.node.0)].push(channel)?;
    }
    Ok(lists)
}

// The place of a port in the table of the ports of all nodes: of each node the places of ports 0 to 36.
pub(crate) fn port_place(end: End) -> usize
    ensures { result ≡ port_place end }
{
    37 * usize::from(end.node.0) + usize::from(end.port.0)
}

// For each port of each node the channel that leaves there.
fn port_channels(
    heap: Global,
    nodes: &[u8],
    cables: &[Cable],
) -> Result<Vec<Option<Channel>>, AllocError>
    requires { KeepsRules nodes.now cables.now }
    ensures { IfOk result (λ ports. Ported nodes.now cables.now ports.items) }
{
    let mut ports = vec![in heap; None; 37 * nodes.len()]?;
    for number in 0..2 * cables.len() {
        let channel = Channel(number as u16);
        let tail = cables[number / 2].ends(channel).tail;
        ports[port_place(tail)] = Some(channel);
    }
    Ok(ports)
}

impl Rack {
    // The rack that the tables describe, if they keep the rules of a rack.
    pub fn from_tables(heap: Global, nodes: &[u8], cables: &[Cable]) -> Result<Rack, RackFault>
        ensures { MatchResult result (λ k. (nodes_of k ≡ nodes.now) × (cables_of k ≡ cables.now)) (Refuses nodes.now cables.now) }
    {
        if !keeps_rules(nodes, cables) {
            return Err(RackFault::Tables);
        }
        Ok(Rack {
            nodes: Vec::from_slice(heap, nodes)?,
            cables: Vec::from_slice(heap, cables)?,
            leaving: list_channels(heap, nodes, cables)?,
            ports: port_channels(heap, nodes, cables)?,
        })
    }
}
