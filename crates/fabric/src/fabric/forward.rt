// Packets from queue to queue.
ghost use Rattle.std.specs.Prelude.{◌≡◌, IfOk, IfErr, OnErr};
ghost use Rattle.routing.specs.Paths.{hop};
ghost use Rattle.fabric.specs.Calls.{setup_of, GoesOn, NoWayOn, Forwards, ForwardRefused};

use crate::fabric::Fabric;
use crate::fault::FabricFault;
use crate::packet::{Packet, VirtualChannel};
use crate::queue::Queue;
use crate::queue::row::{count_at, pop_at, push_at};
use rack::numbers::{Channel, Lane};
use routing::map::LaneMap;
use routing::plan::Plan;
use routing::source::ForwardingSource;
use routing::walk::{Step, advance};

impl Fabric {
    // Where a packet goes on from a queue.
    fn onward<S: ForwardingSource, M: LaneMap>(
        &self,
        plan: &Plan<'_, S, M>,
        from: VirtualChannel,
        packet: Packet,
    ) -> Result<Step, FabricFault>
        ensures on { IfOk result (λ h. GoesOn (setup_of S.route M.lanes plan.now self.now.depth) from.0 packet (hop h.channel.0 h.lane.number)) }
        ensures why { IfErr result (NoWayOn (setup_of S.route M.lanes plan.now self.now.depth) from.0 packet) }
    {
        let arriving = from.channel();
        if plan.rack.switch_entered(arriving).is_none() {
            return Err(packet.misplaced());
        }
        let step = advance(plan, packet.pair, packet.level, arriving, packet.next_hop())?;
        Ok(step)
    }

    // Moves the first packet of a queue to the end of the next queue of its path, and answers the channel and the lane of that.
    pub fn forward<S: ForwardingSource, M: LaneMap>(
        &self,
        plan: &Plan<'_, S, M>,
        queues: &mut [Queue],
        from: VirtualChannel,
    ) -> Result<(Channel, Lane), FabricFault>
        ensures moved { IfOk result (λ n. Forwards (setup_of S.route M.lanes plan.now self.now.depth) queues.old from.0 (hop n.0.0 n.1.number) queues.new) }
        ensures why { IfErr result (ForwardRefused (setup_of S.route M.lanes plan.now self.now.depth) queues.old from.0) }
        ensures kept { OnErr result (queues.new ≡ queues.old) }
    {
        let packet = self.first_at(plan, queues, from)?;
        let step = self.onward(plan, from, packet)?;
        let next = VirtualChannel::of(step.channel, step.lane);
        if count_at(queues, next) >= self.room(step.channel) {
            return Err(FabricFault::Full {
                pair: packet.pair,
                hop: packet.next_hop(),
            });
        }
        pop_at(queues, from);
        push_at(queues, next, packet.moved());
        Ok((step.channel, step.lane))
    }
}
