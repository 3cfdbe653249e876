// The plan file: one byte with the lane count, then the lane table, then the path table.
ghost use Rattle.std.specs.Prelude.{◌≡◌, IfOk, MatchResult, Some};
ghost use Rattle.workbench.specs.PlanFiles.{plan_bytes, plan_length, Holds, WrongLength};

use rack::rack::Rack;
use routing::sizes::{lane_bytes, node_pairs};
use std::alloc::{AllocError, Global};
use std::fmt;

// What a plan file holds, in the places where it stands in the file.
#[derive(Clone, Copy)]
pub struct PlanFile<'a> {
    pub lane_count: u8,
    pub lanes: &'a [u8],
    pub levels: &'a [u8],
}

// A file that is too short or too long for the rack: how many bytes were wanted and found.
#[derive(Clone, Copy, PartialEq, Eq, Debug)]
pub struct PlanLength {
    pub wanted: usize,
    pub found: usize,
}

impl fmt::Display for PlanLength {
    ghost use Rattle.workbench.specs.PlanFiles.{length_text};

    ghost output = { λ l. Some (length_text l) };

    fn fmt<W: fmt::Write>(&self, f: &mut fmt::Formatter<W>) -> fmt::Result {
        let PlanLength { wanted, found } = *self;
        write!(
            f,
            "a plan for this rack has {wanted} bytes, and this file {found}"
        )
    }
}

impl PlanFile<'_> {
    // The bytes of the file.
    pub fn to_bytes(self, heap: Global) -> Result<Vec<u8>, AllocError>
        ensures { IfOk result (λ v. v.items ≡ plan_bytes self.entry.lane_count self.entry.lanes.now self.entry.levels.now) }
    {
        let mut bytes = Vec::with_capacity(heap, 1 + self.lanes.len() + self.levels.len())?;
        bytes.push(self.lane_count)?;
        bytes.extend_from_slice(self.lanes)?;
        bytes.extend_from_slice(self.levels)?;
        Ok(bytes)
    }
}

// How long the plan files of a rack are.
pub fn file_length(rack: &Rack) -> usize
    ensures { result ≡ plan_length rack.now }
{
    1 + lane_bytes(rack) + node_pairs(rack)
}

// What the bytes hold, if they are as many as a plan file of the rack has.
pub fn plan_in<'a>(rack: &Rack, file: &'a [u8]) -> Result<PlanFile<'a>, PlanLength>
    ensures { MatchResult result (Holds rack.now file.now) (WrongLength rack.now file.now) }
{
    let wrong = PlanLength {
        wanted: file_length(rack),
        found: file.len(),
    };
    if wrong.wanted != wrong.found {
        return Err(wrong);
    }
    let (lane_count, tables) = file.split_first().ok_or(wrong)?;
    let (lanes, levels) = tables.split_at(lane_bytes(rack));
    Ok(PlanFile {
        lane_count: *lane_count,
        lanes,
        levels,
    })
}
