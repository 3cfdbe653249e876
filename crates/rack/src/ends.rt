// Whether a cable may be added to a network, what ends at a port, and which host has no cable.
ghost use Rattle.std.specs.Prelude.{◌≡◌, ◌≢◌, ℕ, ◌<◌, ◌⊎◌, length, get_or, Decides, MatchBool, MatchOption, slice_index, slice_index_or};
ghost use Rattle.rack.specs.Kinds.{code};
ghost use Rattle.rack.specs.Network.{Port, JoinsPorts, EndsAt, FreeEnd, HostAt, SwitchAt, none, Uncabled, Lonely};

use crate::cable::{Cable, End};
use crate::kind::Kind;
use crate::numbers::Node;

// What the node table says of a node: 1 a host, 2 a switch; 0 for what is no node. The byte, as the table has it; `kind_of` has it as a kind.
pub fn kind_at(nodes: &[u8], node: Node) -> u8
    ensures { result ≡ slice_index nodes.now node.0 }
{
    nodes.get(usize::from(node.0)).copied().unwrap_or(0)
}

// What the node is, by the node table; none if the table has no such node or another number for it.
pub fn kind_of(nodes: &[u8], node: Node) -> Option<Kind>
    ensures { MatchOption result ((slice_index nodes.now node.0 ≢ 1) × (slice_index nodes.now node.0 ≢ 2)) (λ kind. code kind ≡ slice_index nodes.now node.0) }
{
    Kind::of(kind_at(nodes, node))
}

// Whether the node has the port. Its number is compared with a count, which is no port.
fn has_port(nodes: &[u8], end: End) -> bool
    ensures { Decides result (Port nodes.now end) }
{
    kind_of(nodes, end.node).is_some_and(|kind| (1..=kind.ports()).contains(&end.port.0))
}

// Whether the node is a host.
// Of one shape with `is_switch_at`: each is one question, and its clause says `HostAt` or `SwitchAt`; one for any `Kind` would speak of `code kind`.
pub fn is_host_at(nodes: &[u8], node: Node) -> bool
    ensures { Decides result (HostAt nodes.now node.0) }
{
    kind_of(nodes, node) == Some(Kind::Host)
}

// Whether the node is a switch.
pub fn is_switch_at(nodes: &[u8], node: Node) -> bool
    ensures { Decides result (SwitchAt nodes.now node.0) }
{
    kind_of(nodes, node) == Some(Kind::Switch)
}

// Whether the cable joins ports of two different nodes that are not both hosts.
pub fn joins_ports(nodes: &[u8], cable: Cable) -> bool
    ensures { Decides result (JoinsPorts nodes.now cable) }
{
    has_port(nodes, cable.first)
        && has_port(nodes, cable.second)
        && cable.first.node != cable.second.node
        && !(is_host_at(nodes, cable.first.node) && is_host_at(nodes, cable.second.node))
}

// The number of a cable that ends there, if one does.
pub fn cable_at(cables: &[Cable], end: End) -> Option<usize>
    ensures { MatchOption result (FreeEnd cables.now end) (λ k. (k < length cables.now) × EndsAt (slice_index_or cables.now k none) end) }
{
    cables
        .iter()
        .position(|cable| cable.first == end || cable.second == end)
}

// Whether none of the cables ends where the cable does.
pub fn is_free(cables: &[Cable], cable: Cable) -> bool
    ensures { Decides result (FreeEnd cables.now cable.first × FreeEnd cables.now cable.second) }
{
    cable_at(cables, cable.first).is_none() && cable_at(cables, cable.second).is_none()
}

// Whether a cable ends at the node, told by its place in the node table: a place may be too large for a `Node`, so numbers are compared.
fn is_cabled(cables: &[Cable], node: usize) -> bool
    ensures { MatchBool result ((k : ℕ) × (k < length cables.now) × (((get_or cables.now k none).first.node.0 ≡ node) ⊎ ((get_or cables.now k none).second.node.0 ≡ node))) (Uncabled cables.now node) }
{
    cables.iter().any(|cable| {
        usize::from(cable.first.node.0) == node || usize::from(cable.second.node.0) == node
    })
}

// The lowest host without a cable. A loop that returns: a chain would find a pair of place and byte, and then take it apart.
pub fn lonely_host(nodes: &[u8], cables: &[Cable]) -> Option<usize>
    ensures { MatchOption result ((u : ℕ) → Lonely nodes.now cables.now u → ⊥) (λ v. Lonely nodes.now cables.now v × ((u : ℕ) → u < v → Lonely nodes.now cables.now u → ⊥)) }
{
    for (node, number) in nodes.iter().enumerate() {
        if Kind::of(*number) == Some(Kind::Host) && !is_cabled(cables, node) {
            return Some(node);
        }
    }
    None
}
