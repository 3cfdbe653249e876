// The racks that more than one crate shows examples of, and how one of them forwards.
// Ports are counted from 1 at each node, in the order of the cables; cable k has the channels 2k and 2k + 1.
#![tactic(auto)]

ghost use Rattle.std.specs.Prelude.{◌≡◌, MatchResult};
ghost use Rattle.rack.specs.Racks.{nodes_of, cables_of, Refuses};
ghost use Rattle.example_racks.specs.Tables.{triangle_nodes, triangle_cables, line_nodes, line_cables};

use rack::cable::Cable;
use rack::fault::RackFault;
use rack::rack::Rack;
use std::alloc::Global;

// Hosts 0 to 2, each on its switch, 3 to 5, and a cable between any two switches.
// Channels 0, 2 and 4 leave the hosts, and 1, 3 and 5 enter them; 6 goes from 3 to 4, 8 from 4 to 5 and 10 from 5 to 3.
pub fn triangle(heap: Global) -> Result<Rack, RackFault>
    ensures { MatchResult result (λ k. (nodes_of k ≡ triangle_nodes) × (cables_of k ≡ triangle_cables)) (Refuses triangle_nodes triangle_cables) }
{
    let cables = [
        Cable::between(0, 1, 3, 1),
        Cable::between(1, 1, 4, 1),
        Cable::between(2, 1, 5, 1),
        Cable::between(3, 2, 4, 2),
        Cable::between(4, 3, 5, 2),
        Cable::between(5, 3, 3, 3),
    ];
    Rack::from_tables(heap, &[1, 1, 1, 2, 2, 2], &cables)
}

// How the triangle forwards clockwise: 3 sends to 4, 4 to 5 and 5 to 3, but for what goes to a switch's own host.
// One more than a channel at each place; the entries of 3 stand from place 18 on, those of 4 from 24 on and those of 5 from 30 on.
pub const CLOCKWISE: [u16; 36] = [
    0, 0, 0, 0, 0, 0, 0, 0, 0, 0, 0, 0, 0, 0, 0, 0, 0, 0, 2, 7, 7, 0, 0, 0, 9, 4, 9, 0, 0, 0, 11,
    11, 6, 0, 0, 0,
];

// Hosts 0 to 3, each on its switch, 4 to 7, and the switches in a row.
// Channels 8, 10 and 12 go up the row, and 9, 11 and 13 back.
pub fn line(heap: Global) -> Result<Rack, RackFault>
    ensures { MatchResult result (λ k. (nodes_of k ≡ line_nodes) × (cables_of k ≡ line_cables)) (Refuses line_nodes line_cables) }
{
    let cables = [
        Cable::between(0, 1, 4, 1),
        Cable::between(1, 1, 5, 1),
        Cable::between(2, 1, 6, 1),
        Cable::between(3, 1, 7, 1),
        Cable::between(4, 2, 5, 2),
        Cable::between(5, 3, 6, 2),
        Cable::between(6, 3, 7, 2),
    ];
    Rack::from_tables(heap, &[1, 1, 1, 1, 2, 2, 2, 2], &cables)
}
