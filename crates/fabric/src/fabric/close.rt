// Closing a fabric.
ghost use Rattle.std.specs.Prelude.{◌≡◌, ◌*◌, ◌≤◌, length, IfOk, OnOk, IfErr};
ghost use Rattle.rack.specs.Racks.{channel_count};
ghost use Rattle.fabric.specs.Calls.{CanStart, CannotStart, waiting_count};

use crate::fabric::Fabric;
use crate::fabric::given::ready;
use crate::fault::FabricFault;
use crate::queue::Queue;
use rack::rack::Rack;
use routing::plan::Plan;
use routing::sizes::virtual_channels;

// A fabric was not closed: why, and the fabric back. Not one type with `NotOpened`: the field says what comes back.
#[derive(Drop)]
pub struct NotClosed {
    pub fault: FabricFault,
    pub fabric: Fabric,
}

// How many packets wait in the queues of a rack.
// A loop and no sum: that a queue holds eight at most, so that the sum fits, is known of each where it is counted.
fn count_all(rack: &Rack, queues: &[Queue]) -> usize
    requires { 8 * channel_count rack.now ≤ length queues.now }
    ensures { result ≡ waiting_count rack.now queues.now }
{
    let mut count = 0;
    for queue in &queues[..virtual_channels(rack)] {
        count += queue.count();
    }
    count
}

impl Fabric {
    // Ends the fabric and answers how many packets still wait.
    pub fn close<S, M>(self, plan: &Plan<'_, S, M>, queues: &[Queue]) -> Result<usize, NotClosed>
        ensures count { IfOk result (λ n. n ≡ waiting_count plan.now.rack.now queues.now) }
        ensures ready { OnOk result (CanStart plan.now (length queues.now)) }
        ensures why { IfErr result (λ n. CannotStart plan.now (length queues.now) n.fault) }
        ensures back { IfErr result (λ n. n.fabric ≡ self) }
    {
        if let Err(fault) = ready(plan, queues.len()) {
            return Err(NotClosed {
                fault,
                fabric: self,
            });
        }
        Ok(count_all(plan.rack, queues))
    }
}
