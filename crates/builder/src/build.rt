// Builds the lane table and the path table of a rack.
ghost use Rattle.std.specs.Prelude.{◌≡◌, ◌*◌, ◌≤◌, length, drop, vec_capacity, MatchResult, OnOk};
ghost use Rattle.rack.specs.Racks.{node_count, channel_count};
ghost use Rattle.routing.specs.Paths.{PairOf};
ghost use Rattle.routing.specs.Turns.{lane_bytes};
ghost use Rattle.builder.specs.Method.{channels_of, PathOf, tables, PairBuilt, Senders, blank};
ghost use Rattle.builder.specs.Laws.{TurnsNumbered, EndsKeep0};
ghost use Rattle.routing.specs.Plans.{OneToEight};
ghost use Rattle.builder.specs.Outcomes.{LongEnough, NoPath, Lacks, FirstLacks, Outcome};

use crate::fault::BuildFault;
use crate::turns::{claim_all, lowest_level};
use rack::numbers::Level;
use rack::rack::Rack;
use routing::one_lane::OneLane;
use routing::pair::Pair;
use routing::pairs::Pairs;
use routing::plan::Plan;
use routing::sizes::{lane_bytes, node_pairs};
use routing::source::ForwardingSource;
use routing::walk::{Step, walk};
use std::alloc::Global;

// What all pairs of a build share.
#[derive(Drop)]
struct Given<'a, S> {
    rack: &'a Rack,
    source: &'a S,
    lane_count: u8,
    ghost range: { OneToEight lane_count },
}

// What all pairs share, and a list with room for the path of any one of them.
// Each method says that what they share stays, since it may change all that it is lent.
#[derive(Drop)]
struct Builder<'a, S> {
    given: &'a Given<'a, S>,
    path: Vec<Step>,
    ghost cap: { channel_count given.now.rack.now ≤ vec_capacity path },
}

impl<S: ForwardingSource> Builder<'_, S> {
    // The path of a pair, as the source alone names it.
    fn walk(&mut self, pair: Pair) -> Result<(), BuildFault>
        ensures answer { MatchResult result (λ _. PathOf self.old.given.now.rack.now (S.ForwardingSource.route self.old.given.now.source.now) pair.sender.0 pair.receiver.0 (channels_of self.new.path.items)) (NoPath self.old.given.now.rack.now (S.ForwardingSource.route self.old.given.now.source.now) pair) }
        ensures given { self.new.given ≡ self.old.given }
    {
        let plan = Plan {
            rack: self.given.rack,
            source: self.given.source,
            map: &OneLane,
            levels: &[],
            lanes: 8,
        };
        walk(&plan, pair, Level::zero(), &mut self.path)?;
        Ok(())
    }

    // One pair: its path gets the lowest level that has room for it, and its lanes there.
    fn pair(&mut self, pair: Pair, lanes: &mut [u8], levels: &mut [u8]) -> Result<(), BuildFault>
        requires hosts { PairOf self.old.given.now.rack.now pair.sender.0 pair.receiver.0 }
        requires long { LongEnough self.old.given.now.rack.now (tables lanes.old levels.old) }
        ensures answer { MatchResult result (λ _. PairBuilt self.old.given.now.rack.now (S.ForwardingSource.route self.old.given.now.source.now) self.old.given.now.lane_count pair.sender.0 pair.receiver.0 (tables lanes.old levels.old) (tables lanes.new levels.new)) (Lacks self.old.given.now.rack.now (S.ForwardingSource.route self.old.given.now.source.now) self.old.given.now.lane_count pair (tables lanes.old levels.old)) }
        ensures given { self.new.given ≡ self.old.given }
    {
        let given = self.given;
        self.walk(pair)?;
        if self.path.len() > usize::from(given.lane_count) + 2 {
            return Err(BuildFault::Lane { pair });
        }
        let level = lowest_level(given.rack, lanes, &self.path).ok_or(BuildFault::Level { pair })?;
        claim_all(given.rack, lanes, &self.path, level);
        levels[pair.place(given.rack)] = level.number();
        Ok(())
    }

    // All pairs, by ascending sender and then receiver, from tables that are all 0.
    fn all(&mut self, lanes: &mut [u8], levels: &mut [u8]) -> Result<(), BuildFault>
        requires { tables lanes.old levels.old ≡ blank self.old.given.now.rack.now }
        ensures { MatchResult result (λ _. Senders self.old.given.now.rack.now (S.ForwardingSource.route self.old.given.now.source.now) self.old.given.now.lane_count (node_count self.old.given.now.rack.now) (blank self.old.given.now.rack.now) (tables lanes.new levels.new)) (FirstLacks self.old.given.now.rack.now (S.ForwardingSource.route self.old.given.now.source.now) self.old.given.now.lane_count) }
    {
        let given = self.given;
        for pair in Pairs::of(given.rack) {
            self.pair(pair, lanes, levels)?;
        }
        Ok(())
    }
}

// The two tables are lent side by side, here and in the methods above: in a struct each method would have to say that they are still the same tables.
// Fills the lane table and the path table; where a path, a lane or a level is lacking, the needed places of both are 0 and the first pair that lacks it is told.
pub fn build<S: ForwardingSource>(
    heap: Global,
    rack: &Rack,
    source: &S,
    lane_count: u8,
    lanes: &mut [u8],
    levels: &mut [u8],
) -> Result<(), BuildFault>
    ensures answer { Outcome rack.now (S.ForwardingSource.route source.now) lane_count (tables lanes.old levels.old) (tables lanes.new levels.new) result }
    ensures plan { OnOk result (TurnsNumbered rack.now (S.ForwardingSource.route source.now) lane_count (tables lanes.new levels.new) × EndsKeep0 rack.now lanes.new) }
    ensures beyond { (drop (lane_bytes (channel_count rack.now)) lanes.new ≡ drop (lane_bytes (channel_count rack.now)) lanes.old) × (drop (node_count rack.now * node_count rack.now) levels.new ≡ drop (node_count rack.now * node_count rack.now) levels.old) }
{
    if !(1..=8).contains(&lane_count) {
        return Err(BuildFault::Lanes);
    }
    let rows = lane_bytes(rack);
    let pairs = node_pairs(rack);
    if lanes.len() < rows || levels.len() < pairs {
        return Err(BuildFault::Tables);
    }
    let path = Vec::with_capacity(heap, rack.channel_count())?;
    let lanes = &mut lanes[..rows];
    let levels = &mut levels[..pairs];
    lanes.fill(0);
    levels.fill(0);
    let given = &Given {
        rack,
        source,
        lane_count,
    };
    let mut builder = Builder { given, path };
    let built = builder.all(lanes, levels);
    if built.is_err() {
        lanes.fill(0);
        levels.fill(0);
    }
    built
}
