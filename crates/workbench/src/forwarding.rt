// The downhill answers as a forwarding table.
ghost use Rattle.std.specs.Prelude.{◌≡◌, ℕ, ◌*◌, ◌<◌, length, MatchOption, MatchResult, slice_index};
ghost use Rattle.rack.specs.Racks.{node_count, EntersSwitch};
ghost use Rattle.routing.specs.Sources.{entry_of, downhill_route};
ghost use Rattle.workbench.specs.RackFiles.{AnswersAs, AnswersDownhill};
ghost use Rattle.report.specs.declared.refusal.Refusal.TheVariants.{Memory};

use rack::numbers::{Channel, Node};
use rack::rack::Rack;
use report::refusal::Refusal;
use routing::distances::fill_distances;
use routing::downhill::Downhill;
use routing::sizes::node_pairs;
use routing::source::ForwardingSource;
use std::alloc::Global;

// The lowest-numbered channel that enters the switch; none if none does, or it is no switch.
fn channel_into(rack: &Rack, switch: Node) -> Option<Channel>
    ensures { MatchOption result ((c : ℕ) → EntersSwitch rack.now c switch.0 → ⊥) (λ c. EntersSwitch rack.now c.0 switch.0) }
{
    if !rack.is_switch(switch) {
        return None;
    }
    rack.next_entering(switch, Channel(0))
}

// Fills the row of a switch: the answers behind a channel that enters it, to all nodes.
fn fill_row(source: &Downhill<'_>, arriving: Channel, row: &mut [u16])
    requires { length row.old ≡ node_count source.now.rack.now }
    ensures long { length row.new ≡ length row.old }
    ensures answers { (v : ℕ) → v < length row.new → entry_of (slice_index row.new v) ≡ downhill_route source.now.rack.now source.now.distances.now arriving.0 v }
{
    for node in 0..row.len() {
        row[node] = match source.next_channel(arriving, Node(node as u16)) {
            Some(next) => next.0 + 1,
            None => 0,
        };
    }
}

// Fills the rows of all switches that a channel enters.
fn fill_rows(source: &Downhill<'_>, table: &mut [u16])
    requires { length table.old ≡ node_count source.now.rack.now * node_count source.now.rack.now }
    ensures { AnswersAs source.now.rack.now table.new (downhill_route source.now.rack.now source.now.distances.now) }
{
    let nodes = source.rack.node_count();
    for switch in 0..nodes {
        if let Some(arriving) = channel_into(source.rack, Node(switch as u16)) {
            let from = nodes * switch;
            fill_row(source, arriving, &mut table[from..from + nodes]);
        }
    }
}

// A forwarding table that answers as the downhill source does.
pub(crate) fn downhill_table(heap: Global, rack: &Rack) -> Result<Vec<u16>, Refusal>
    ensures { MatchResult result (λ t. AnswersDownhill rack.now t.items) (λ f. f ≡ Memory) }
{
    let mut distances = vec![in heap; 0u8; node_pairs(rack)]?;
    fill_distances(rack, &mut distances)?;
    let mut table = vec![in heap; 0u16; node_pairs(rack)]?;
    let source = Downhill {
        rack,
        distances: &distances,
    };
    fill_rows(&source, &mut table);
    Ok(table)
}
