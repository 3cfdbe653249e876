// The path of a pair, hop by hop.
ghost use Rattle.std.specs.Prelude.{◌≡◌, ◌<◌, ◌≤◌, [], ◌∷◌, ◌++◌, vec_len, vec_capacity, MatchResult, ◌≢◌};
ghost use Rattle.rack.specs.Racks.{Leaving, channel_count, head};
ghost use Rattle.routing.specs.Paths.{PairOf};
ghost use Rattle.routing.specs.Plans.{routing_of};
ghost use Rattle.routing.specs.Walks.{Advances, ListsPath, Walked, WalkStops};

use crate::fault::WalkFault;
use crate::map::LaneMap;
use crate::pair::Pair;
use crate::plan::Plan;
use crate::rows::turn_port;
use crate::source::ForwardingSource;
use rack::numbers::{Channel, Lane, Level};

// One lane of one channel, on the path of a pair.
#[derive(Clone, Copy)]
pub struct Step {
    pub channel: Channel,
    pub lane: Lane,
}

// The step behind a channel that enters a switch: the source names the channel and the map its lane.
// Plan and pair side by side, here and below: the fabric asks this of the pair of each packet that it forwards, and a struct would be made for that one call.
pub fn advance<S: ForwardingSource, M: LaneMap>(
    plan: &Plan<'_, S, M>,
    pair: Pair,
    level: Level,
    arriving: Channel,
    hop: u16,
) -> Result<Step, WalkFault>
    ensures { Advances (routing_of S.route M.lanes plan.now) plan.now.lanes pair level.number arriving.0 hop result }
{
    let channel = plan
        .source
        .next_channel(arriving, pair.receiver)
        .ok_or(WalkFault::NoChannel { pair, hop })?;
    if turn_port(plan.rack, arriving, channel).is_none() {
        return Err(WalkFault::Elsewhere { pair, hop });
    }
    let lane = plan.map.lane(arriving, channel, level);
    if lane.number() >= plan.lanes {
        return Err(WalkFault::Lane { pair, hop });
    }
    Ok(Step { channel, lane })
}

// The first step of a pair's path: lane 0 of the channel out of the sender.
fn depart<S, M>(plan: &Plan<'_, S, M>, pair: Pair) -> Result<Step, WalkFault>
    ensures { MatchResult result (λ h. PairOf plan.now.rack.now pair.sender.0 pair.receiver.0 × Leaving plan.now.rack.now pair.sender.0 h.channel.0 × (h.lane.number ≡ 0)) (λ f. (f ≡ WalkFault.NoPair pair) × (PairOf plan.now.rack.now pair.sender.0 pair.receiver.0 → ⊥)) }
{
    let channel = pair.way_out(plan.rack).ok_or(WalkFault::NoPair { pair })?;
    let lane = Lane::zero();
    Ok(Step { channel, lane })
}

// The end of a pair's path, once a channel enters a host.
fn arrive<S, M>(plan: &Plan<'_, S, M>, pair: Pair, last: Channel, hop: u16) -> Result<(), WalkFault>
    requires { last.0 < channel_count plan.now.rack.now }
    ensures { MatchResult result (λ _. head plan.now.rack.now last.0 ≡ pair.receiver.0) (λ f. (f ≡ WalkFault.OtherHost pair hop) × (head plan.now.rack.now last.0 ≢ pair.receiver.0)) }
{
    match plan.rack.ends(last) {
        Some(ends) if ends.head.node == pair.receiver => Ok(()),
        _ => Err(WalkFault::OtherHost { pair, hop }),
    }
}

// The path of a pair at a level, into `path`; or the first thing that is wrong with it, and `path` holds hops from the first on.
pub fn walk<S: ForwardingSource, M: LaneMap>(
    plan: &Plan<'_, S, M>,
    pair: Pair,
    level: Level,
    path: &mut Vec<Step>,
) -> Result<(), WalkFault>
    ensures answer { MatchResult result (λ _. Walked (routing_of S.route M.lanes plan.now) plan.now.lanes pair level.number path.new.items) (WalkStops (routing_of S.route M.lanes plan.now) plan.now.lanes pair level.number (vec_capacity path.old)) }
    ensures listed { ListsPath (routing_of S.route M.lanes plan.now) pair.sender.0 pair.receiver.0 level.number path.new.items }
    ensures room { vec_capacity path.old ≤ vec_capacity path.new }
{
    path.clear();
    let count = plan.rack.channel_count() as u16;
    let mut at = depart(plan, pair)?;
    path.push(at)?;
    // to `count` and no further, since the source is not asked for hop `count`
    for hop in 1..count {
        if plan.rack.switch_entered(at.channel).is_none() {
            return arrive(plan, pair, at.channel, hop - 1);
        }
        at = advance(plan, pair, level, at.channel, hop)?;
        path.push(at)?;
    }
    match plan.rack.switch_entered(at.channel) {
        Some(_) => Err(WalkFault::Endless { pair, hop: count }),
        None => arrive(plan, pair, at.channel, count - 1),
    }
}
