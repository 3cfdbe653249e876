// What the paths of a plan use.
ghost use Rattle.std.specs.Prelude.{◌≡◌, ◌⊎◌, max, None, MatchResult};
ghost use Rattle.routing.specs.Paths.{PairOf};
ghost use Rattle.routing.specs.Plans.{routing_of};
ghost use Rattle.checking.specs.Plans.{FinePair};
ghost use Rattle.report.specs.Refusals.{told};
ghost use Rattle.workbench.specs.Tallies.{OneAbove, LaneOf, Tallied, OneTallied, NoTally};

use checking::fault::CheckFault;
use report::refusal::Refusal;
use routing::map::LaneMap;
use routing::pair::Pair;
use routing::pairs::Pairs;
use routing::plan::{Plan, level_of};
use routing::source::ForwardingSource;
use routing::walk::{Step, walk};
use std::alloc::Global;

// One more than the greatest lane and level that paths use, and the channels of the longest.
#[derive(Clone, Copy)]
pub(crate) struct Tally {
    pub(crate) lanes: u8,
    pub(crate) levels: u8,
    pub(crate) longest: usize,
}

// One more than the greatest lane of a path.
fn lanes_of(path: &[Step]) -> u8
    ensures { OneAbove (LaneOf path.now) result }
{
    let mut lanes: u8 = 0;
    for step in path {
        lanes = lanes.max(step.lane.number() + 1);
    }
    lanes
}

impl Tally {
    // What no path uses.
    fn none() -> Tally
        ensures { result ≡ record { lanes = 0; levels = 0; longest = 0 } }
    {
        Tally {
            lanes: 0,
            levels: 0,
            longest: 0,
        }
    }

    // What the path of a pair uses, which is walked into `path`.
    fn of_pair<S: ForwardingSource, M: LaneMap>(
        plan: &Plan<'_, S, M>,
        pair: Pair,
        path: &mut Vec<Step>,
    ) -> Result<Tally, Refusal>
        ensures { MatchResult result (OneTallied (routing_of S.route M.lanes plan.now) plan.now.levels.now pair.sender.0 pair.receiver.0) (λ f. (told f ≡ None) ⊎ (PairOf plan.now.rack.now pair.sender.0 pair.receiver.0 → FinePair (routing_of S.route M.lanes plan.now) plan.now.levels.now plan.now.lanes pair.sender.0 pair.receiver.0 → ⊥)) }
    {
        let level = level_of(plan.rack, plan.levels, pair).ok_or(CheckFault::Level { pair })?;
        walk(plan, pair, level, path)?;
        Ok(Tally {
            lanes: lanes_of(path),
            levels: level.number() + 1,
            longest: path.len(),
        })
    }

    // What the paths of either use.
    fn or(self, other: Tally) -> Tally
        ensures { result ≡ record { lanes = max self.lanes other.lanes; levels = max self.levels other.levels; longest = max self.longest other.longest } }
    {
        Tally {
            lanes: self.lanes.max(other.lanes),
            levels: self.levels.max(other.levels),
            longest: self.longest.max(other.longest),
        }
    }

    // What the paths of all pairs of a plan use.
    pub(crate) fn of<S: ForwardingSource, M: LaneMap>(
        heap: Global,
        plan: &Plan<'_, S, M>,
    ) -> Result<Tally, Refusal>
        ensures { MatchResult result (Tallied (routing_of S.route M.lanes plan.now) plan.now.levels.now) (NoTally (routing_of S.route M.lanes plan.now) plan.now.levels.now plan.now.lanes) }
    {
        let mut path = Vec::with_capacity(heap, plan.rack.channel_count())?;
        let mut tally = Tally::none();
        for pair in Pairs::of(plan.rack) {
            tally = tally.or(Tally::of_pair(plan, pair, &mut path)?);
        }
        Ok(tally)
    }
}
