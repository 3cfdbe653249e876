// A plan: where packets go on a rack, and on which lanes.
ghost use Rattle.std.specs.Prelude.{◌≡◌, ◌+◌, ◌*◌, ◌<◌, MatchOption, slice_index};
ghost use Rattle.rack.specs.Racks.{node_count};

use crate::pair::Pair;
use rack::numbers::Level;
use rack::rack::Rack;

#[derive(Drop)]
pub struct Plan<'a, S, M> {
    pub rack: &'a Rack,
    pub source: &'a S,
    pub map: &'a M,
    // the path table: at place N u + v the level of the pair u, v
    pub levels: &'a [u8],
    // how many lanes there are
    pub lanes: u8,
}

// The level that a path table has for a pair, 0 beyond the table; none if its byte is above 15.
// No method of `Plan`, which would ask for a source and a map too.
pub fn level_of(rack: &Rack, levels: &[u8], pair: Pair) -> Option<Level>
    ensures { MatchOption result (15 < slice_index levels.now (node_count rack.now * pair.sender.0 + pair.receiver.0)) (λ s. s.number ≡ slice_index levels.now (node_count rack.now * pair.sender.0 + pair.receiver.0)) }
{
    let byte = levels.get(pair.place(rack)).copied().unwrap_or(0);
    Level::new(byte)
}
