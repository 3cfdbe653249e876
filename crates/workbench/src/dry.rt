// A dry fabric under the plan of a plan file: its start and its end.
ghost use Rattle.std.specs.Prelude.{◌≡◌, IfOk, OnErr};
ghost use Rattle.workbench.specs.Starts.{OpenSays, StartSays, CloseSays};

use crate::checked::{check_plan, refusal_text};
use crate::plan_file::PlanFile;
use crate::reply::{Reply, told_of};
use checking::acceptance::Acceptance;
use fabric::fabric::Fabric;
use fabric::fabric::open::open;
use fabric::queue::Queue;
use rack::rack::Rack;
use report::tables::PlanTables;
use routing::plan::Plan;
use routing::source::ForwardingSource;
use std::alloc::{AllocError, Global};

// An open fabric; or what is said where there is none.
#[derive(Drop)]
pub enum Start {
    Open(Fabric),
    Refused(String),
}

// Opens a fabric under a plan that was accepted.
fn open_accepted(
    heap: Global,
    rack: &Rack,
    plan: PlanFile<'_>,
    acceptance: Acceptance,
    depth: u8,
    queues: &mut [Queue],
) -> Result<Start, AllocError>
    ensures says { IfOk result (OpenSays rack.now plan.entry.levels.now plan.entry.lane_count depth queues.old queues.new) }
    ensures kept { OnErr result (queues.new ≡ queues.old) }
{
    // opening asks for no source and no map
    let plan = Plan {
        rack,
        source: &(),
        map: &(),
        levels: plan.levels,
        lanes: plan.lane_count,
    };
    match open(acceptance, &plan, depth, queues) {
        Ok(fabric) => Ok(Start::Open(fabric)),
        Err(refused) => {
            let told = told_of(refused.fault).ok_or(AllocError)?;
            Ok(Start::Refused(Reply::Refused(told).to_string(heap)?))
        }
    }
}

// Checks the plan of a plan file by a source, and opens a fabric under it whose queues hold so many packets each.
pub fn open_dry<S: ForwardingSource>(
    heap: Global,
    rack: &Rack,
    source: &S,
    plan: PlanFile<'_>,
    depth: u8,
    queues: &mut [Queue],
) -> Result<Start, AllocError>
    ensures says { IfOk result (StartSays rack.now (S.route source.now) plan.entry.lanes.now plan.entry.levels.now plan.entry.lane_count depth queues.old queues.new) }
    ensures kept { OnErr result (queues.new ≡ queues.old) }
{
    let mut tables = PlanTables::new(heap, rack)?;
    let answer = check_plan(
        heap,
        rack,
        source,
        plan,
        &mut tables.dependencies,
        &mut tables.ranks,
        &mut tables.ring,
    );
    match answer {
        Ok(acceptance) => open_accepted(heap, rack, plan, acceptance, depth, queues),
        Err(fault) => {
            let text = refusal_text(heap, rack, fault, &tables.ring)?;
            Ok(Start::Refused(text))
        }
    }
}

// Closes the fabric: what is said then.
pub fn close<S, M>(fabric: Fabric, plan: &Plan<'_, S, M>, queues: &[Queue]) -> Reply
    ensures { CloseSays plan.now queues.now result }
{
    match fabric.close(plan, queues) {
        Ok(waiting) => Reply::Closed { waiting },
        // what keeps a call from its start has a number
        Err(refused) => Reply::Refused(told_of(refused.fault).unwrap()),
    }
}
