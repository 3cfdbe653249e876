// How many cables the nodes are away from the root.
ghost use Rattle.std.specs.Prelude.{◌*◌, ◌<◌, ◌≤◌, ℕ, length, IfOk, MatchResult};
ghost use Rattle.rack.specs.Racks.{node_count, Switch};
ghost use Rattle.routing.specs.Ways.{Fewest, far};
ghost use Rattle.up_down.specs.Sources.{Refuses};
ghost use Rattle.up_down.specs.Tables.{TiersIn};

use crate::fault::UpDownFault;
use rack::numbers::Node;
use rack::rack::Rack;
use routing::distances::{Column, NO_WAY};
use routing::pair::Pair;
use routing::sizes::node_pairs;
use std::alloc::{AllocError, Global};

// A distance table in which the column of the root is filled.
fn distances_to(heap: Global, rack: &Rack, root: Node) -> Result<Vec<u8>, AllocError>
    requires { root.0 < node_count rack.now }
    ensures room { IfOk result (λ t. node_count rack.now * node_count rack.now ≤ length t.items) }
    ensures column { IfOk result (λ t. (w : ℕ) → w < node_count rack.now → Fewest rack.now root.0 w (far (node_count rack.now) root.0 t.items w)) }
{
    let mut distances = vec![in heap; NO_WAY; node_pairs(rack)]?;
    Column { rack, target: root }.fill(&mut distances);
    Ok(distances)
}

// The tiers of all nodes; refused if one of them is out of reach.
pub(crate) fn tiers_over(heap: Global, rack: &Rack, root: Node) -> Result<Vec<u8>, UpDownFault>
    requires { Switch rack.now root.0 }
    ensures { MatchResult result (λ t. TiersIn rack.now root.0 t.items) (Refuses rack.now root.0) }
{
    let distances = distances_to(heap, rack, root)?;
    let mut tiers = Vec::new(heap);
    for node in (0..rack.node_count() as u16).map(Node) {
        let pair = Pair {
            sender: node,
            receiver: root,
        };
        let tier = distances[pair.place(rack)];
        if tier == NO_WAY {
            return Err(UpDownFault::Unreachable(node));
        }
        tiers.push(tier)?;
    }
    Ok(tiers)
}
