// A plan that is built for a rack, and what is said of it.
ghost use Rattle.std.specs.Prelude.{IfOk};
ghost use Rattle.workbench.specs.PlanFiles.{Fits};
ghost use Rattle.checking.specs.Plans.{AllFine};
ghost use Rattle.checking.specs.Answers.{tables_at};
ghost use Rattle.planning.specs.Plans.{planned};
ghost use Rattle.workbench.specs.Answers.{Roomy};
ghost use Rattle.workbench.specs.Builds.{AcceptedSays, BuildSays};

use crate::checked::{check_plan, refusal_text};
use crate::layout::{Layout, lay_out};
use crate::plan_file::PlanFile;
use crate::summary::Summary;
use rack::rack::Rack;
use report::lines::{accepted_line, refused_line};
use report::refusal::{Refusal, tell};
use report::tables::PlanTables;
use routing::plan::Plan;
use routing::rows::StoredRows;
use routing::source::ForwardingSource;
use std::alloc::{AllocError, Global};

// What is said of a plan that was to be built, and its plan file if it is accepted.
#[derive(Drop)]
pub struct Built {
    pub text: String,
    pub file: Option<Vec<u8>>,
}

// An accepted plan: its greatest rank, its summary and its file.
fn accepted<S: ForwardingSource>(
    heap: Global,
    rack: &Rack,
    source: &S,
    plan: PlanFile<'_>,
    greatest: u16,
) -> Result<Built, AllocError>
    requires fits { Fits rack.now plan.lanes.now plan.levels.now }
    requires fine { AllFine (planned rack.now (S.route source.now) plan.lanes.now) plan.levels.now plan.lane_count }
    ensures { IfOk result (AcceptedSays rack.now (S.route source.now) plan.entry.lane_count plan.entry.lanes.now plan.entry.levels.now greatest) }
{
    let made = Plan {
        rack,
        source,
        map: &StoredRows {
            rack,
            lanes: plan.lanes,
        },
        levels: plan.levels,
        lanes: plan.lane_count,
    };
    let summary = match Summary::of(heap, &made, greatest) {
        Ok(summary) => summary,
        Err(refusal) => {
            // the pairs are fine, so that only memory is wanting
            let told = tell(refusal);
            prove!(told.is_none());
            return Err(AllocError);
        }
    };
    let mut text = accepted_line(heap, greatest)?;
    write!(text, "{summary}")?;
    let file = plan.to_bytes(heap)?;
    Ok(Built {
        text,
        file: Some(file),
    })
}

// Builds a plan in these tables, and checks it.
fn build_in<S: ForwardingSource>(
    heap: Global,
    rack: &Rack,
    source: &S,
    lane_count: u8,
    layout: Layout,
    lanes: &mut [u8],
    levels: &mut [u8],
    dependencies: &mut [u64],
    ranks: &mut [u16],
    ring: &mut [u16],
) -> Result<Built, AllocError>
    requires fits { Fits rack.now lanes.old levels.old }
    requires room { Roomy rack.now (tables_at dependencies.old ranks.old ring.old) }
    ensures { IfOk result (BuildSays rack.now (S.route source.now) lane_count layout) }
{
    if let Err(fault) = lay_out(heap, rack, source, lane_count, layout, lanes, levels) {
        let told = tell(Refusal::Build(fault)).ok_or(AllocError)?;
        let text = refused_line(heap, told)?;
        return Ok(Built { text, file: None });
    }
    let plan = PlanFile {
        lane_count,
        lanes,
        levels,
    };
    match check_plan(heap, rack, source, plan, dependencies, ranks, ring) {
        Ok(acceptance) => accepted(heap, rack, source, plan, acceptance.greatest_rank()),
        Err(fault) => {
            let text = refusal_text(heap, rack, fault, ring)?;
            Ok(Built { text, file: None })
        }
    }
}

// Builds a plan for a rack and a source with so many lanes, as the layout says, and checks it.
pub fn build_text<S: ForwardingSource>(
    heap: Global,
    rack: &Rack,
    source: &S,
    lane_count: u8,
    layout: Layout,
) -> Result<Built, AllocError>
    ensures { IfOk result (BuildSays rack.now (S.route source.now) lane_count layout) }
{
    let mut tables = PlanTables::new(heap, rack)?;
    build_in(
        heap,
        rack,
        source,
        lane_count,
        layout,
        &mut tables.lanes,
        &mut tables.levels,
        &mut tables.dependencies,
        &mut tables.ranks,
        &mut tables.ring,
    )
}
