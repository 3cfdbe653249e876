// Any calls on a fabric, one after another.
ghost use Rattle.std.specs.Prelude.{◌≡◌, MatchResult};
ghost use Rattle.fabric.specs.Calls.{setup_of, Acts};
ghost use Rattle.fabric.specs.Courses.{KeepsLaw};

use crate::call::{Call, Done};
use crate::fabric::Fabric;
use crate::fault::FabricFault;
use crate::queue::Queue;
use routing::map::LaneMap;
use routing::plan::Plan;
use routing::source::ForwardingSource;
use std::alloc::{AllocError, Global};

impl Fabric {
    // Makes one call.
    pub fn act<S: ForwardingSource, M: LaneMap>(
        &self,
        plan: &Plan<'_, S, M>,
        queues: &mut [Queue],
        call: Call,
    ) -> Result<Done, FabricFault>
        ensures { Acts (setup_of S.route M.lanes plan.now self.now.depth) queues.old call result queues.new }
    {
        match call {
            Call::Admit { pair, tag } => {
                self.admit(plan, queues, pair, tag)?;
                Ok(Done::Admitted)
            }
            Call::Forward(from) => {
                let (channel, lane) = self.forward(plan, queues, from)?;
                Ok(Done::Forwarded(channel, lane))
            }
            Call::Take(from) => Ok(Done::Taken(self.take(plan, queues, from)?)),
        }
    }

    // Makes the calls in their order and answers each; if there is no memory for the answers, no call is made.
    // Under a plan that the check accepts, whatever the calls are: the fabric never jams, its hops add up, and each pair's packets arrive in order, none lost and none invented.
    pub fn run<S: ForwardingSource, M: LaneMap>(
        &self,
        heap: Global,
        plan: &Plan<'_, S, M>,
        queues: &mut [Queue],
        calls: &[Call],
    ) -> Result<Vec<Result<Done, FabricFault>>, AllocError>
        ensures { MatchResult result (λ answers. KeepsLaw (setup_of S.route M.lanes plan.now self.now.depth) queues.old calls.now answers.items queues.new) (λ _. queues.new ≡ queues.old) }
    {
        let mut answers = Vec::with_capacity(heap, calls.len())?;
        for call in calls {
            answers.push_reserved(self.act(plan, queues, *call));
        }
        Ok(answers)
    }
}
