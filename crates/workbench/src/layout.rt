// How the tables of a plan are laid out.
ghost use Rattle.std.specs.Prelude.{◌≤◌, length};
ghost use Rattle.rack.specs.Racks.{channel_count};
ghost use Rattle.routing.specs.Turns.{lane_bytes};
ghost use Rattle.builder.specs.Method.{tables};
ghost use Rattle.workbench.specs.Builds.{LaidOut};

use crate::two_hop::fill_two_hop;
use builder::build::build;
use builder::fault::BuildFault;
use rack::rack::Rack;
use routing::source::ForwardingSource;
use std::alloc::Global;

#[derive(Clone, Copy, PartialEq, Eq, Debug)]
pub enum Layout {
    // by the builder
    Method,
    // the two-hop map, at level 0 for all pairs
    TwoHop,
    // lane 0 for all turns, at level 0 for all pairs
    OneLane,
}

// Fills the tables of a plan.
pub(crate) fn lay_out<S: ForwardingSource>(
    heap: Global,
    rack: &Rack,
    source: &S,
    lane_count: u8,
    layout: Layout,
    lanes: &mut [u8],
    levels: &mut [u8],
) -> Result<(), BuildFault>
    requires { lane_bytes (channel_count rack.now) ≤ length lanes.old }
    ensures { LaidOut rack.now (S.route source.now) lane_count layout (tables lanes.old levels.old) (tables lanes.new levels.new) result }
{
    match layout {
        Layout::Method => return build(heap, rack, source, lane_count, lanes, levels),
        Layout::TwoHop => fill_two_hop(rack, lanes),
        Layout::OneLane => lanes.fill(0),
    }
    levels.fill(0);
    Ok(())
}
