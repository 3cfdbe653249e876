// Builds a plan over a source, and checks it.
ghost use Rattle.std.specs.Prelude.{◌≡◌, ◌*◌, drop};
ghost use Rattle.rack.specs.Racks.{node_count, channel_count};
ghost use Rattle.routing.specs.Turns.{lane_bytes};
ghost use Rattle.checking.specs.Answers.{tables_at};
ghost use Rattle.builder.specs.Method.{tables};
ghost use Rattle.planning.specs.Plans.{Planned};

use crate::fault::PlanFault;
use builder::build::build;
use checking::acceptance::Acceptance;
use checking::check::check;
use rack::rack::Rack;
use routing::plan::Plan;
use routing::rows::StoredRows;
use routing::source::ForwardingSource;
use std::alloc::Global;

// A plan in the lent tables, built and accepted; or the fault of the builder; or that the check's tables are too short.
// The tables are lent, so each is a parameter.
pub fn plan<'x, S: ForwardingSource>(
    heap: Global,
    rack: &'x Rack,
    source: &'x S,
    lane_count: u8,
    lanes: &mut [u8],
    levels: &mut [u8],
    dependencies: &mut [u64],
    ranks: &mut [u16],
    ring: &mut [u16],
) -> Result<Acceptance, PlanFault>
    ensures answer { Planned rack.now (S.ForwardingSource.route source.now) lane_count (tables lanes.old levels.old) (tables lanes.new levels.new) (tables_at dependencies.old ranks.old ring.old) (tables_at dependencies.new ranks.new ring.new) result }
    ensures beyond { (drop (lane_bytes (channel_count rack.now)) lanes.new ≡ drop (lane_bytes (channel_count rack.now)) lanes.old) × (drop (node_count rack.now * node_count rack.now) levels.new ≡ drop (node_count rack.now * node_count rack.now) levels.old) }
{
    build(heap, rack, source, lane_count, lanes, levels)?;
    let map = StoredRows { rack, lanes };
    let plan = Plan {
        rack,
        source,
        map: &map,
        levels,
        lanes: lane_count,
    };
    let acceptance = check(heap, &plan, dependencies, ranks, ring)?;
    Ok(acceptance)
}
