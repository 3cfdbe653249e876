// Opening a fabric.
ghost use Rattle.std.specs.Prelude.{◌≡◌, ◌*◌, ◌≤◌, length, IfOk, OnOk, IfErr, OnErr};
ghost use Rattle.rack.specs.Racks.{channel_count};
ghost use Rattle.routing.specs.Plans.{OneToEight};
ghost use Rattle.fabric.specs.Calls.{CanStart, CannotOpen, Emptied};

use crate::fabric::Fabric;
use crate::fabric::given::{is_ranged, ready};
use crate::fault::FabricFault;
use crate::queue::Queue;
use checking::acceptance::Acceptance;
use rack::rack::Rack;
use routing::plan::Plan;
use routing::sizes::virtual_channels;

// A fabric was not opened: why, and the acceptance back. Not one type with `NotClosed`: the field says what comes back.
#[derive(Drop)]
pub struct NotOpened {
    pub fault: FabricFault,
    pub acceptance: Acceptance,
}

// Empties the queues of a rack.
fn empty_all(rack: &Rack, queues: &mut [Queue])
    requires { 8 * channel_count rack.now ≤ length queues.old }
    ensures { Emptied rack.now queues.old queues.new }
{
    queues[..virtual_channels(rack)].fill(Queue::empty());
}

// Opens a fabric whose queues hold so many packets each: spends the acceptance and empties the queues of the rack.
pub fn open<S, M>(
    acceptance: Acceptance,
    plan: &Plan<'_, S, M>,
    depth: u8,
    queues: &mut [Queue],
) -> Result<Fabric, NotOpened>
    ensures depth { IfOk result (λ f. f.depth ≡ depth) }
    ensures ranged { OnOk result (OneToEight depth) }
    ensures ready { OnOk result (CanStart plan.now (length queues.old)) }
    ensures emptied { OnOk result (Emptied plan.now.rack.now queues.old queues.new) }
    ensures why { IfErr result (λ n. CannotOpen depth plan.now (length queues.old) n.fault) }
    ensures back { IfErr result (λ n. n.acceptance ≡ acceptance) }
    ensures kept { OnErr result (queues.new ≡ queues.old) }
{
    if !is_ranged(depth) {
        return Err(NotOpened {
            fault: FabricFault::Depth,
            acceptance,
        });
    }
    if let Err(fault) = ready(plan, queues.len()) {
        return Err(NotOpened { fault, acceptance });
    }
    empty_all(plan.rack, queues);
    Ok(Fabric { depth })
}
