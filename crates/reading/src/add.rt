// Adds one record to the tables, or says which rule it breaks.
ghost use Rattle.std.specs.Prelude.{◌≡◌, ℕ, ◌+◌, ◌*◌, ◌≤◌, List, length, Some, MatchOption, slice_index};
ghost use Rattle.rack.specs.Network.{Leaves};
ghost use Rattle.reading.specs.Rules.{Described, Shown, Judged, CountsFit};

use crate::fault::Rule;
use crate::limits::{CABLES, FORWARDING, Limits, NODES};
use crate::record::{Entry, Kind, Record};
use rack::cable::{Cable, End};
use rack::ends::{cable_at, is_free, is_host_at, is_switch_at, joins_ports};
use rack::numbers::{Channel, Node};

// How many records of each group there are. Not in one struct with the tables: those are lent, and the counts are the answer that the caller gets.
#[derive(Clone, Copy, PartialEq, Eq, Debug)]
pub struct Counts {
    pub nodes: usize,
    pub cables: usize,
    pub entries: usize,
}

pub(crate) fn add_node(
    limits: Limits,
    nodes: &mut [u8; NODES],
    counts: Counts,
    kind: Kind,
    number: Node,
) -> Result<Counts, Rule>
    ensures { (net : Described) (cables : List Cable) (forwarding : List ℕ) → Shown net counts nodes.old cables forwarding → Judged limits net (Some (Record.Node kind number)) result nodes.new cables forwarding }
{
    if counts.cables > 0 || counts.entries > 0 {
        return Err(Rule::Form);
    }
    if counts.nodes >= limits.nodes() {
        return Err(Rule::Many);
    }
    if usize::from(number.0) != counts.nodes {
        return Err(Rule::Number);
    }
    nodes[counts.nodes] = u8::from(kind);
    Ok(Counts {
        nodes: counts.nodes + 1,
        ..counts
    })
}

pub(crate) fn add_cable(
    limits: Limits,
    nodes: &[u8; NODES],
    cables: &mut [Cable; CABLES],
    counts: Counts,
    cable: Cable,
) -> Result<Counts, Rule>
    ensures { (net : Described) (forwarding : List ℕ) → Shown net counts nodes.now cables.old forwarding → Judged limits net (Some (Record.Joins cable)) result nodes.now cables.new forwarding }
{
    if counts.entries > 0 {
        return Err(Rule::Form);
    }
    if counts.cables >= limits.cables() {
        return Err(Rule::Many);
    }
    if !joins_ports(nodes, cable) {
        return Err(Rule::End);
    }
    let count = counts.cables;
    if !is_free(&cables[..count], cable) {
        return Err(Rule::Taken);
    }
    cables[count] = cable;
    Ok(Counts {
        cables: count + 1,
        ..counts
    })
}

// The channel that leaves by the port, if a cable ends there. The cables are the front of a table, and no type says how many they are.
fn channel(cables: &[Cable], end: End) -> Option<Channel>
    requires { length cables.now ≤ 256 }
    ensures { MatchOption result ((c : ℕ) → Leaves cables.now end c → ⊥) (λ c. Leaves cables.now end c.0) }
{
    let k = cable_at(cables, end)?;
    let back = u16::from(cables[k].first != end);
    Some(Channel(2 * k as u16 + back))
}

// The place of the pair in the forwarding table of a file with that many nodes.
// Routing has `Pair::place` for it, which asks a `Rack`: there is none yet, and reading does not stand on routing.
fn place(nodes: usize, switch: Node, host: Node) -> usize
    requires { nodes ≤ 128 }
    ensures { result ≡ nodes * switch.0 + host.0 }
{
    nodes * usize::from(switch.0) + usize::from(host.0)
}

pub(crate) fn add_entry(
    nodes: &[u8; NODES],
    cables: &[Cable; CABLES],
    forwarding: &mut [u16; FORWARDING],
    counts: Counts,
    entry: Entry,
) -> Result<Counts, Rule>
    requires counts { CountsFit counts }
    requires beyond { (k : ℕ) → counts.nodes ≤ k → slice_index nodes.now k ≡ 0 }
    ensures { (limits : Limits) (net : Described) → Shown net counts nodes.now cables.now forwarding.old → Judged limits net (Some (Record.Forwards entry)) result nodes.now cables.now forwarding.new }
{
    if !is_switch_at(nodes, entry.switch) || !is_host_at(nodes, entry.host) {
        return Err(Rule::Forwarding);
    }
    let count = counts.cables;
    let end = End {
        node: entry.switch,
        port: entry.port,
    };
    let leaving = channel(&cables[..count], end).ok_or(Rule::Forwarding)?;
    let at = place(counts.nodes, entry.switch, entry.host);
    if forwarding[at] != 0 {
        return Err(Rule::Forwarding);
    }
    forwarding[at] = leaving.0 + 1;
    Ok(Counts {
        entries: counts.entries + 1,
        ..counts
    })
}
