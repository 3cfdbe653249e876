// The check of a plan file, and what is said of it.
ghost use Rattle.std.specs.Prelude.{IfOk, string_bytes};
ghost use Rattle.checking.specs.Answers.{tables_at, Checked};
ghost use Rattle.planning.specs.Plans.{planned};
ghost use Rattle.workbench.specs.Answers.{RefusedText, CheckText};

use crate::plan_file::PlanFile;
use crate::ring::with_ring;
use checking::acceptance::Acceptance;
use checking::check::check;
use checking::fault::CheckFault;
use rack::rack::Rack;
use report::lines::{accepted_line, refused_line};
use report::refusal::{Refusal, tell};
use report::tables::PlanTables;
use routing::plan::Plan;
use routing::rows::StoredRows;
use routing::source::ForwardingSource;
use std::alloc::{AllocError, Global};

// Checks the plan of a plan file on a rack and by a source.
pub fn check_plan<S: ForwardingSource>(
    heap: Global,
    rack: &Rack,
    source: &S,
    plan: PlanFile<'_>,
    dependencies: &mut [u64],
    ranks: &mut [u16],
    ring: &mut [u16],
) -> Result<Acceptance, CheckFault>
    ensures { Checked (planned rack.now (S.route source.now) plan.entry.lanes.now) plan.entry.levels.now plan.entry.lane_count (tables_at dependencies.old ranks.old ring.old) (tables_at dependencies.new ranks.new ring.new) result }
{
    let map = StoredRows {
        rack,
        lanes: plan.lanes,
    };
    let plan = Plan {
        rack,
        source,
        map: &map,
        levels: plan.levels,
        lanes: plan.lane_count,
    };
    check(heap, &plan, dependencies, ranks, ring)
}

// The line of a refusal, and behind it the lines of the ring that it shows.
pub fn refusal_text(
    heap: Global,
    rack: &Rack,
    fault: CheckFault,
    ring: &[u16],
) -> Result<String, AllocError>
    ensures { IfOk result (λ s. RefusedText rack.now ring.now fault (string_bytes s)) }
{
    let told = tell(Refusal::Check(fault)).ok_or(AllocError)?;
    let line = refused_line(heap, told)?;
    match fault {
        CheckFault::Ring { length } => {
            let length = ring.len().min(usize::from(length));
            with_ring(rack, &ring[..length], line)
        }
        _ => Ok(line),
    }
}

// What is said of the plan of a plan file: that it is accepted, or why it is refused.
pub fn check_text<S: ForwardingSource>(
    heap: Global,
    rack: &Rack,
    source: &S,
    plan: PlanFile<'_>,
) -> Result<String, AllocError>
    ensures { IfOk result (λ s. CheckText (planned rack.now (S.route source.now) plan.entry.lanes.now) plan.entry.levels.now plan.entry.lane_count (string_bytes s)) }
{
    let mut tables = PlanTables::new(heap, rack)?;
    let answer = check_plan(
        heap,
        rack,
        source,
        plan,
        &mut tables.dependencies,
        &mut tables.ranks,
        &mut tables.ring,
    );
    match answer {
        Ok(acceptance) => accepted_line(heap, acceptance.greatest_rank()),
        Err(fault) => refusal_text(heap, rack, fault, &tables.ring),
    }
}
