// Walks the paths of all pairs and marks what follows what.
ghost use Rattle.std.specs.Prelude.{◌≡◌, ℕ, ◌+◌, ◌-◌, ◌<◌, ◌≤◌, true, length, vec_len, vec_capacity, OnOk, IfErr, slice_index_or};
ghost use Rattle.rack.specs.Racks.{channel_count};
ghost use Rattle.routing.specs.Turns.{turns, turn_count};
ghost use Rattle.routing.specs.Paths.{PairOf};
ghost use Rattle.routing.specs.Walks.{hop_of};
ghost use Rattle.checking.specs.Plans.{FinePair, AllFine, AtFault, FirstFault};
ghost use Rattle.routing.specs.Plans.{routing_of};
ghost use Rattle.checking.specs.Marks.{Adds, Says, ListSays, PairSays, AllSay};

use crate::fault::CheckFault;
use rack::rack::Rack;
use routing::map::LaneMap;
use routing::pair::Pair;
use routing::pairs::Pairs;
use routing::plan::{Plan, level_of};
use routing::rows::{turn, turn_port};
use routing::source::ForwardingSource;
use routing::walk::{Step, walk};

// Marks that one step is followed by the other.
fn mark(rack: &Rack, marks: &mut [u64], one: Step, other: Step)
    requires turn { turns rack.now one.channel.0 other.channel.0 ≡ true }
    requires room { turn_count (channel_count rack.now) ≤ length marks.old }
    ensures { Adds (Says rack.now (hop_of one) (hop_of other)) marks.old marks.new }
{
    let port = turn_port(rack, one.channel, other.channel).unwrap();
    let place = turn(one.channel, port);
    let bit = 8 * one.lane.number() + other.lane.number();
    marks[place] |= 1u64 << bit;
}

// Marks each step of a path with the one behind it.
fn mark_path(rack: &Rack, marks: &mut [u64], path: &[Step])
    requires turn { (i : ℕ) (d : Step) → i + 1 < length path.now → turns rack.now (slice_index_or path.now i d).channel.0 (slice_index_or path.now (i + 1) d).channel.0 ≡ true }
    requires room { turn_count (channel_count rack.now) ≤ length marks.old }
    ensures { Adds (ListSays rack.now path.now (length path.now - 1)) marks.old marks.new }
{
    for (one, other) in path.iter().zip(path.iter().skip(1)) {
        mark(rack, marks, *one, *other);
    }
}

// The marks of the pairs that a plan has so far, and a list with room for the path of any one pair.
// Each method says that the plan stays, since it may change all that it is lent.
#[derive(Drop)]
pub(crate) struct Marker<'a, S, M> {
    pub plan: &'a Plan<'a, S, M>,
    pub path: Vec<Step>,
    pub marks: Vec<u64>,
    ghost some: { 1 ≤ plan.now.lanes },
    ghost cap: { channel_count plan.now.rack.now ≤ vec_capacity path },
    ghost room: { vec_len marks ≡ turn_count (channel_count plan.now.rack.now) },
}

impl<S: ForwardingSource, M: LaneMap> Marker<'_, S, M> {
    // One pair: its level, its path, and the marks of its path.
    fn mark_pair(&mut self, pair: Pair) -> Result<(), CheckFault>
        requires { PairOf self.old.plan.now.rack.now pair.sender.0 pair.receiver.0 }
        ensures plan { self.new.plan ≡ self.old.plan }
        ensures fine { OnOk result (FinePair (routing_of S.route M.lanes self.old.plan.now) self.old.plan.now.levels.now self.old.plan.now.lanes pair.sender.0 pair.receiver.0) }
        ensures marks { OnOk result (Adds (PairSays (routing_of S.route M.lanes self.old.plan.now) self.old.plan.now.levels.now pair.sender.0 pair.receiver.0) self.old.marks.items self.new.marks.items) }
        ensures fault { IfErr result (AtFault (routing_of S.route M.lanes self.old.plan.now) self.old.plan.now.levels.now self.old.plan.now.lanes pair) }
    {
        let plan = self.plan;
        let level = level_of(plan.rack, plan.levels, pair).ok_or(CheckFault::Level { pair })?;
        walk(plan, pair, level, &mut self.path)?;
        mark_path(plan.rack, &mut self.marks, &self.path);
        Ok(())
    }

    // All pairs, by ascending sender and then receiver; the first fault is the answer.
    pub fn mark_all(&mut self) -> Result<(), CheckFault>
        ensures plan { self.new.plan ≡ self.old.plan }
        ensures fine { OnOk result (AllFine (routing_of S.route M.lanes self.old.plan.now) self.old.plan.now.levels.now self.old.plan.now.lanes) }
        ensures marks { OnOk result (Adds (AllSay (routing_of S.route M.lanes self.old.plan.now) self.old.plan.now.levels.now) self.old.marks.items self.new.marks.items) }
        ensures fault { IfErr result (FirstFault (routing_of S.route M.lanes self.old.plan.now) self.old.plan.now.levels.now self.old.plan.now.lanes) }
    {
        let plan = self.plan;
        for pair in Pairs::of(plan.rack) {
            self.mark_pair(pair)?;
        }
        Ok(())
    }
}
