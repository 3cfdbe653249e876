// Reads, builds, checks, and says what happened.
ghost use Rattle.std.specs.Prelude.{◌≡◌, IfOk, string_bytes, MatchResult};
ghost use Rattle.checking.specs.Plans.{AllFine};
ghost use Rattle.planning.specs.Plans.{planned};
ghost use Rattle.report.specs.Lines.{Adds, AllPrinted};
ghost use Rattle.report.specs.Text.{accepted_line};
ghost use Rattle.report.specs.Reports.{lane_count, PlannedText, AcceptedText, Reports, Unplanned, DownhillRouted, Forwards, SomeText, SomeLack, Untold};

use crate::lines::{accepted_line, refused_line};
use crate::pairs::all_lines;
use crate::refusal::{Refusal, tell};
use crate::tables::{FileTables, PlanTables};
use planning::plan::plan;
use rack::rack::Rack;
use reading::add::Counts;
use reading::limits::Limits;
use reading::read::read;
use routing::distances::fill_distances;
use routing::downhill::Downhill;
use routing::plan::Plan;
use routing::rows::StoredRows;
use routing::sizes::node_pairs;
use routing::source::ForwardingSource;
use routing::stored::Stored;
use std::alloc::{AllocError, Global};

// The most nodes that the console lets in.
const NODES: usize = 12;

// The most cables that it lets in.
const CABLES: usize = 16;

// How many lanes the console plans for.
const LANES: u8 = 8;

// The lines of an accepted plan. What it takes becomes a `Plan` in its first lines, so no other struct stands for it.
fn plan_lines<'x, S: ForwardingSource>(
    heap: Global,
    rack: &'x Rack,
    source: &'x S,
    lanes: &'x [u8],
    levels: &'x [u8],
    greatest: u16,
) -> Result<String, Refusal>
    requires { AllFine (planned rack.now (S.route source.now) lanes.now) levels.now lane_count }
    ensures { MatchResult result (λ s. Adds (AllPrinted (planned rack.now (S.route source.now) lanes.now) levels.now) (accepted_line greatest) (string_bytes s)) (λ f. f ≡ Refusal.Memory) }
{
    let map = StoredRows { rack, lanes };
    let made = Plan {
        rack,
        source,
        map: &map,
        levels,
        lanes: LANES,
    };
    all_lines(heap, &made, accepted_line(heap, greatest)?)
}

// Builds a plan over a source, checks it, and says what was accepted.
fn source_lines<'x, S: ForwardingSource>(
    heap: Global,
    rack: &'x Rack,
    source: &'x S,
) -> Result<String, Refusal>
    ensures { MatchResult result (λ s. PlannedText rack.now (S.route source.now) (string_bytes s)) (Unplanned rack.now (S.route source.now)) }
{
    let mut tables = PlanTables::new(heap, rack)?;
    let acceptance = plan(
        heap,
        rack,
        source,
        LANES,
        &mut tables.lanes,
        &mut tables.levels,
        &mut tables.dependencies,
        &mut tables.ranks,
        &mut tables.ring,
    )?;
    plan_lines(
        heap,
        rack,
        source,
        &tables.lanes,
        &tables.levels,
        acceptance.greatest_rank(),
    )
}

// A plan over the true distances.
fn downhill_lines(heap: Global, rack: &Rack) -> Result<String, Refusal>
    ensures { MatchResult result (λ s. SomeText rack.now (DownhillRouted rack.now) (string_bytes s)) (SomeLack rack.now (DownhillRouted rack.now)) }
{
    let mut distances = vec![in heap; 0u8; node_pairs(rack)]?;
    fill_distances(rack, &mut distances)?;
    let source = Downhill {
        rack,
        distances: &distances,
    };
    source_lines(heap, rack, &source)
}

// A plan over the forwarding entries if there are any, and else over the true distances.
fn rack_lines<'x>(
    heap: Global,
    rack: &'x Rack,
    counts: Counts,
    forwarding: &'x [u16],
) -> Result<String, Refusal>
    ensures { MatchResult result (λ s. SomeText rack.now (Forwards rack.now counts.entries forwarding.now) (string_bytes s)) (SomeLack rack.now (Forwards rack.now counts.entries forwarding.now)) }
{
    if counts.entries > 0 {
        let source = Stored { rack, forwarding };
        return source_lines(heap, rack, &source);
    }
    downhill_lines(heap, rack)
}

// Reads the file, and says what was accepted.
fn file_lines(heap: Global, file: &[u8]) -> Result<String, Refusal>
    ensures { MatchResult result (λ s. AcceptedText file.now (string_bytes s)) (Untold file.now) }
{
    let mut tables = FileTables::new(heap)?;
    let counts = read(
        file,
        Limits::at_most(NODES, CABLES),
        &mut tables.nodes,
        &mut tables.cables,
        &mut tables.forwarding,
    )?;
    let nodes = &tables.nodes[..counts.nodes];
    let cables = &tables.cables[..counts.cables];
    let rack = Rack::from_tables(heap, nodes, cables)?;
    rack_lines(heap, &rack, counts, &tables.forwarding)
}

// The text that the console prints for a file.
pub fn report(heap: Global, file: &[u8]) -> Result<String, AllocError>
    ensures { IfOk result (λ s. Reports file.now (string_bytes s)) }
{
    // a match: with `or_else` the proof knows nothing of what the closure answers
    match file_lines(heap, file) {
        Ok(lines) => Ok(lines),
        // want of memory is no refusal, and has no line
        Err(refusal) => refused_line(heap, tell(refusal).ok_or(AllocError)?),
    }
}
