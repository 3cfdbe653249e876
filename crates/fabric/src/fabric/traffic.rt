// Packets in at their senders, and out at their receivers.
ghost use Rattle.std.specs.Prelude.{◌≡◌, ◌*◌, ◌<◌, [], drop, Decides, MatchResult, OnOk, IfOk, IfErr, OnErr};
ghost use Rattle.rack.specs.Racks.{channel_count, head};
ghost use Rattle.courses.specs.Queues.{at};
ghost use Rattle.fabric.specs.Calls.{setup_of, Admits, AdmitRefused, First, NoneFirst, Takes, TakeRefused, Entrance, NoEntrance};

use crate::fabric::Fabric;
use crate::fabric::given::ready;
use crate::fault::FabricFault;
use crate::packet::{Delivery, Packet, VirtualChannel};
use crate::queue::Queue;
use crate::queue::row::{count_at, pop_at, push_at};
use rack::numbers::{Channel, Lane, Level, Node};
use rack::rack::Rack;
use routing::map::LaneMap;
use routing::pair::Pair;
use routing::plan::{Plan, level_of};
use routing::sizes::virtual_channels;
use routing::source::ForwardingSource;

// The channel on which the packets of a pair begin, and their level.
fn entrance<S, M>(plan: &Plan<'_, S, M>, pair: Pair) -> Result<(Channel, Level), FabricFault>
    ensures { MatchResult result (λ e. Entrance plan.now.rack.now plan.now.levels.now pair e.0.0 e.1.number) (NoEntrance plan.now.rack.now plan.now.levels.now pair) }
{
    let channel = pair.way_out(plan.rack).ok_or(FabricFault::NoPair { pair })?;
    let level = level_of(plan.rack, plan.levels, pair).ok_or(FabricFault::Level { pair })?;
    Ok((channel, level))
}

// Whether a channel enters a node. One comparison, as in `arrive` of the walk, which turns it into a fault of its own.
fn enters(rack: &Rack, channel: Channel, node: Node) -> bool
    requires { channel.0 < channel_count rack.now }
    ensures { Decides result (head rack.now channel.0 ≡ node.0) }
{
    rack.ends(channel)
        .is_some_and(|ends| ends.head.node == node)
}

impl Fabric {
    // The packet that waits first in a queue.
    pub(crate) fn first_at<S: ForwardingSource, M: LaneMap>(
        &self,
        plan: &Plan<'_, S, M>,
        queues: &[Queue],
        from: VirtualChannel,
    ) -> Result<Packet, FabricFault>
        ensures { MatchResult result (λ p. First (setup_of S.route M.lanes plan.now self.now.depth) queues.now from.0 p (drop 1 (at queues.now from.0))) (NoneFirst (setup_of S.route M.lanes plan.now self.now.depth) queues.now from.0) }
    {
        ready(plan, queues.len())?;
        if from.place() >= virtual_channels(plan.rack) {
            return Err(FabricFault::NoQueue);
        }
        queues[from.place()].first().ok_or(FabricFault::Empty)
    }

    // Puts a packet of the pair last in lane 0 of the channel out of its sender.
    pub fn admit<S: ForwardingSource, M: LaneMap>(
        &self,
        plan: &Plan<'_, S, M>,
        queues: &mut [Queue],
        pair: Pair,
        tag: u32,
    ) -> Result<(), FabricFault>
        ensures admitted { OnOk result (Admits (setup_of S.route M.lanes plan.now self.now.depth) queues.old pair tag queues.new) }
        ensures why { IfErr result (AdmitRefused (setup_of S.route M.lanes plan.now self.now.depth) queues.old pair) }
        ensures kept { OnErr result (queues.new ≡ queues.old) }
    {
        ready(plan, queues.len())?;
        let (channel, level) = entrance(plan, pair)?;
        let first = VirtualChannel::of(channel, Lane::zero());
        if count_at(queues, first) >= self.room(channel) {
            return Err(FabricFault::Full { pair, hop: 0 });
        }
        let packet = Packet {
            pair,
            level,
            hop: 0,
            tag,
        };
        push_at(queues, first, packet);
        Ok(())
    }

    // Takes the first packet of a queue, at its receiver.
    pub fn take<S: ForwardingSource, M: LaneMap>(
        &self,
        plan: &Plan<'_, S, M>,
        queues: &mut [Queue],
        from: VirtualChannel,
    ) -> Result<Delivery, FabricFault>
        ensures taken { IfOk result (λ d. Takes (setup_of S.route M.lanes plan.now self.now.depth) queues.old from.0 d queues.new) }
        ensures why { IfErr result (TakeRefused (setup_of S.route M.lanes plan.now self.now.depth) queues.old from.0) }
        ensures kept { OnErr result (queues.new ≡ queues.old) }
    {
        let packet = self.first_at(plan, queues, from)?;
        if !enters(plan.rack, from.channel(), packet.pair.receiver) {
            return Err(packet.misplaced());
        }
        pop_at(queues, from);
        Ok(packet.into())
    }
}
