// The summary of an accepted plan.
ghost use Rattle.std.specs.Prelude.{◌≡◌, ◌≤◌, Some, MatchResult};
ghost use Rattle.routing.specs.Plans.{routing_of};
ghost use Rattle.workbench.specs.Tallies.{NoTally};
ghost use Rattle.workbench.specs.Summaries.{rack_line, lanes_line, paths_line, summary_text, host_count, Sums};

use crate::tally::Tally;
use rack::numbers::Node;
use rack::rack::Rack;
use report::refusal::Refusal;
use routing::map::LaneMap;
use routing::plan::Plan;
use routing::source::ForwardingSource;
use std::alloc::Global;
use std::fmt;

// The size of a rack.
#[derive(Clone, Copy, PartialEq, Eq, Debug)]
pub struct RackSize {
    pub nodes: usize,
    pub cables: usize,
    pub pairs: usize,
}

// The lanes that a plan has, and how many lanes and levels its paths use: one more than the greatest.
#[derive(Clone, Copy, PartialEq, Eq, Debug)]
pub struct LanesUsed {
    pub lane_count: u8,
    pub lanes: u8,
    pub levels: u8,
}

// The channels of the longest path, and the greatest rank.
#[derive(Clone, Copy, PartialEq, Eq, Debug)]
pub struct Lengths {
    pub longest: usize,
    pub greatest: u16,
}

#[derive(Clone, Copy, PartialEq, Eq, Debug)]
pub struct Summary {
    pub size: RackSize,
    pub used: LanesUsed,
    pub lengths: Lengths,
}

impl fmt::Display for RackSize {
    ghost output = { λ s. Some (rack_line s) };

    fn fmt<W: fmt::Write>(&self, f: &mut fmt::Formatter<W>) -> fmt::Result {
        let RackSize {
            nodes,
            cables,
            pairs,
        } = *self;
        writeln!(f, "nodes {nodes} cables {cables} pairs {pairs}")
    }
}

impl fmt::Display for LanesUsed {
    ghost output = { λ u. Some (lanes_line u) };

    fn fmt<W: fmt::Write>(&self, f: &mut fmt::Formatter<W>) -> fmt::Result {
        let LanesUsed {
            lane_count,
            lanes,
            levels,
        } = *self;
        writeln!(
            f,
            "lanes {lane_count} lanes used {lanes} levels used {levels}"
        )
    }
}

impl fmt::Display for Lengths {
    ghost output = { λ l. Some (paths_line l) };

    fn fmt<W: fmt::Write>(&self, f: &mut fmt::Formatter<W>) -> fmt::Result {
        let Lengths { longest, greatest } = *self;
        writeln!(f, "longest path {longest} greatest rank {greatest}")
    }
}

impl fmt::Display for Summary {
    ghost output = { λ s. Some (summary_text s) };

    fn fmt<W: fmt::Write>(&self, f: &mut fmt::Formatter<W>) -> fmt::Result {
        let Summary {
            size,
            used,
            lengths,
        } = *self;
        write!(f, "{size}{used}{lengths}")
    }
}

// How many hosts a rack has.
fn host_count(rack: &Rack) -> usize
    ensures { (result ≡ host_count rack.now) × (result ≤ 128) }
{
    let mut hosts = 0;
    for number in 0..rack.node_count() as u16 {
        if rack.is_host(Node(number)) {
            hosts += 1;
        }
    }
    hosts
}

impl Summary {
    // The summary of a plan that is accepted with this greatest rank.
    pub fn of<S: ForwardingSource, M: LaneMap>(
        heap: Global,
        plan: &Plan<'_, S, M>,
        greatest: u16,
    ) -> Result<Summary, Refusal>
        ensures { MatchResult result (Sums (routing_of S.route M.lanes plan.now) plan.now.levels.now plan.now.lanes greatest) (NoTally (routing_of S.route M.lanes plan.now) plan.now.levels.now plan.now.lanes) }
    {
        let tally = Tally::of(heap, plan)?;
        let hosts = host_count(plan.rack);
        Ok(Summary {
            size: RackSize {
                nodes: plan.rack.node_count(),
                cables: plan.rack.channel_count() / 2,
                pairs: hosts * hosts.saturating_sub(1),
            },
            used: LanesUsed {
                lane_count: plan.lanes,
                lanes: tally.lanes,
                levels: tally.levels,
            },
            lengths: Lengths {
                longest: tally.longest,
                greatest,
            },
        })
    }
}
