// The middle turns of a path, and their entries in the lane table.
// Rack, lane table and path stand side by side: the table is lent by the caller, and a struct with it would have to say after each write that it is still the same one.
// In a path c0 .. cn, middle turn j, for j from 1 to n - 2, goes from channel j to channel j + 1 and wants lane j.
ghost use Rattle.std.specs.Prelude.{◌≡◌, ◌+◌, ◌≤◌, true, length, Decides, MatchOption, slice_set};
ghost use Rattle.rack.specs.Racks.{channel_count, tail_port};
ghost use Rattle.routing.specs.Turns.{turns as turning, row_start, lane_bytes};
ghost use Rattle.builder.specs.Method.{channels_of, Passes, Fits, Lowest, NoLevel, Claimed};

use rack::numbers::{Channel, Lane, Level};
use rack::rack::Rack;
use routing::map::LaneMap;
use routing::rows::{StoredRows, row_of, row_place, turn_port};
use routing::walk::Step;

// Whether every middle turn of the path has room at the level: its entry there is 0 or its own lane.
pub(crate) fn fits(rack: &Rack, lanes: &[u8], path: &[Step], level: Level) -> bool
    ensures { Decides result (Fits rack.now lanes.now (channels_of path.now) level.number) }
{
    let rows = StoredRows { rack, lanes };
    // no windows of two: j is not only a place, but the lane that the turn wants
    for j in 1..path.len().saturating_sub(2) {
        let entry = rows.lane(path[j].channel, path[j + 1].channel, level);
        let own = usize::from(entry.number());
        if own != 0 && own != j {
            return false;
        }
    }
    true
}

// The lowest level at which every middle turn of the path has room; none if there is none.
pub(crate) fn lowest_level(rack: &Rack, lanes: &[u8], path: &[Step]) -> Option<Level>
    ensures { MatchOption result (NoLevel rack.now lanes.now (channels_of path.now)) (λ s. Lowest rack.now lanes.now (channels_of path.now) s.number) }
{
    (0..16)
        .filter_map(Level::new)
        .find(|level| fits(rack, lanes, path, *level))
}

// Sets the turn's entry at the level to the lane: its row is taken out, changed and put back.
fn claim(
    rack: &Rack,
    lanes: &mut [u8],
    arriving: Channel,
    leaving: Channel,
    level: Level,
    lane: Lane,
)
    requires turn { turning rack.now arriving.0 leaving.0 ≡ true }
    requires long { lane_bytes (channel_count rack.now) ≤ length lanes.old }
    ensures { lanes.new ≡ slice_set lanes.old (row_start arriving.0 (tail_port rack.now leaving.0) + level.number) lane.number }
{
    let port = turn_port(rack, arriving, leaving).unwrap();
    let row = row_of(lanes, arriving, port).unwrap().with(level, lane);
    let place = row_place(arriving, port);
    row.put(&mut lanes[place..]).unwrap();
}

// Gives every middle turn of the path its lane at the level.
pub(crate) fn claim_all(rack: &Rack, lanes: &mut [u8], path: &[Step], level: Level)
    requires passes { Passes rack.now (channels_of path.now) }
    requires short { length path.now ≤ 10 }
    requires long { lane_bytes (channel_count rack.now) ≤ length lanes.old }
    ensures { Claimed rack.now (channels_of path.now) level.number lanes.old lanes.new }
{
    // by number: the turn's place is its lane
    for j in 1..path.len().saturating_sub(2) {
        let lane = Lane::new(j as u8).unwrap();
        let (arriving, leaving) = (path[j].channel, path[j + 1].channel);
        claim(rack, lanes, arriving, leaving, level, lane);
    }
}
