// The check of a plan.
ghost use Rattle.std.specs.Prelude.{◌≡◌, ◌*◌, ◌≤◌, ◌⊎◌, length, OnOk, IfOk, IfErr};
ghost use Rattle.rack.specs.Racks.{channel_count};
ghost use Rattle.checking.specs.Starts.{Long, StartRefused};
ghost use Rattle.checking.specs.Plans.{FirstFault};
ghost use Rattle.routing.specs.Plans.{routing_of};
ghost use Rattle.checking.specs.Marks.{Collected, Settled};
ghost use Rattle.checking.specs.Answers.{tables_at, Starts, Checked, ExactlySound, RisingAccepted};

use crate::acceptance::Acceptance;
use crate::fault::CheckFault;
use crate::graph::VirtualChannels;
use crate::marks::Marker;
use rack::rack::Rack;
use ranking::rank;
use routing::map::LaneMap;
use routing::plan::Plan;
use routing::sizes::{dependency_words, node_pairs, virtual_channels};
use routing::source::ForwardingSource;
use std::alloc::Global;

// Whether the lane count is in range and the tables are long enough. The range is one comparison, which the builder and the fabric make too, by one definition.
fn admissible<S: ForwardingSource, M: LaneMap>(
    plan: &Plan<'_, S, M>,
    dependencies: &[u64],
    ranks: &[u16],
    ring: &[u16],
) -> Result<(), CheckFault>
    ensures starts { OnOk result (Starts (routing_of S.route M.lanes plan.now) plan.now.levels.now plan.now.lanes (tables_at dependencies.now ranks.now ring.now)) }
    ensures refused { IfErr result (StartRefused plan.now.lanes (Long plan.now.rack.now (length plan.now.levels.now) (length dependencies.now) (length ranks.now) (length ring.now))) }
{
    if !(1..=8).contains(&plan.lanes) {
        return Err(CheckFault::Lanes);
    }
    let points = virtual_channels(plan.rack);
    if plan.levels.len() < node_pairs(plan.rack)
        || dependencies.len() < dependency_words(plan.rack)
        || ranks.len() < points
        || ring.len() < points
    {
        return Err(CheckFault::Tables);
    }
    Ok(())
}

// The marks of all pairs, in memory of their own; or the first pair's fault.
fn collect<S: ForwardingSource, M: LaneMap>(
    heap: Global,
    plan: &Plan<'_, S, M>,
) -> Result<Vec<u64>, CheckFault>
    requires { 1 ≤ plan.now.lanes }
    ensures collected { IfOk result (λ m. Collected (routing_of S.route M.lanes plan.now) plan.now.levels.now plan.now.lanes m.items) }
    ensures fault { IfErr result (λ f. (f ≡ CheckFault.Memory) ⊎ FirstFault (routing_of S.route M.lanes plan.now) plan.now.levels.now plan.now.lanes f) }
{
    let marks = vec![in heap; 0u64; dependency_words(plan.rack)]?;
    let path = Vec::with_capacity(heap, plan.rack.channel_count())?;
    let mut marker = Marker { plan, path, marks };
    marker.mark_all()?;
    let Marker { marks, .. } = marker;
    Ok(marks)
}

// Ranks the virtual channels as the dependency table tells them.
fn settle<'x>(
    rack: &'x Rack,
    dependencies: &'x [u64],
    ranks: &mut [u16],
    ring: &mut [u16],
) -> Result<Acceptance, CheckFault>
    requires ranks { 8 * channel_count rack.now ≤ length ranks.old }
    requires ring { 8 * channel_count rack.now ≤ length ring.old }
    ensures { Settled rack.now dependencies.now ranks.old ranks.new ring.old ring.new result }
{
    let graph = VirtualChannels { rack, dependencies };
    let greatest = rank(&graph, ranks, ring)?;
    Ok(Acceptance::new(greatest))
}

// Accepts the plan if every pair is delivered on lanes below the lane count, with a level to 15, and no virtual channels follow one another in a ring.
// The three tables are lent, and stand side by side: in a struct each call would have to say that they are still the same tables.
// Work grows with pairs times hops, and with dependencies times ranks.
pub fn check<S: ForwardingSource, M: LaneMap>(
    heap: Global,
    plan: &Plan<'_, S, M>,
    dependencies: &mut [u64],
    ranks: &mut [u16],
    ring: &mut [u16],
) -> Result<Acceptance, CheckFault>
    ensures answer { Checked (routing_of S.route M.lanes plan.now) plan.now.levels.now plan.now.lanes (tables_at dependencies.old ranks.old ring.old) (tables_at dependencies.new ranks.new ring.new) result }
    ensures sound { ExactlySound (routing_of S.route M.lanes plan.now) plan.now.levels.now plan.now.lanes (tables_at dependencies.old ranks.old ring.old) result }
    ensures rising { RisingAccepted (routing_of S.route M.lanes plan.now) plan.now.levels.now plan.now.lanes (tables_at dependencies.old ranks.old ring.old) result }
{
    admissible(plan, dependencies, ranks, ring)?;
    let marks = collect(heap, plan)?;
    dependencies[..marks.len()].copy_from_slice(&marks);
    settle(plan.rack, dependencies, ranks, ring)
}
