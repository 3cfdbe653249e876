// What every call on a fabric asks first.
ghost use Rattle.std.specs.Prelude.{◌≡◌, ◌≤◌, Decides, MatchResult};
ghost use Rattle.routing.specs.Plans.{OneToEight};
ghost use Rattle.fabric.specs.Calls.{CanStart, CannotStart};

use crate::fabric::Fabric;
use crate::fault::FabricFault;
use rack::numbers::Channel;
use routing::plan::Plan;
use routing::sizes::{node_pairs, virtual_channels};

// Whether a lane count or a depth is in range.
pub(crate) fn is_ranged(count: u8) -> bool
    ensures { Decides result (OneToEight count) }
{
    (1..=8).contains(&count)
}

// Whether the lane count is in range, and the path table and the queues have the places needed.
pub(crate) fn ready<S, M>(plan: &Plan<'_, S, M>, queues: usize) -> Result<(), FabricFault>
    ensures { MatchResult result (λ _. CanStart plan.now queues) (CannotStart plan.now queues) }
{
    if !is_ranged(plan.lanes) {
        return Err(FabricFault::Lanes);
    }
    if plan.levels.len() < node_pairs(plan.rack) || queues < virtual_channels(plan.rack) {
        return Err(FabricFault::Tables);
    }
    Ok(())
}

impl Fabric {
    // How many packets may wait in a queue of a channel.
    pub fn room(&self, _channel: Channel) -> usize
        ensures is { result ≡ self.now.depth }
        ensures few { result ≤ 8 }
    {
        usize::from(self.depth)
    }
}
