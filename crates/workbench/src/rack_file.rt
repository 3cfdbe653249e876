// A rack as its file tells it, with the source that its packets go by where no root is named.
ghost use Rattle.std.specs.Prelude.{◌≡◌, MatchResult};
ghost use Rattle.routing.specs.Sources.{stored_route};

use crate::forwarding::downhill_table;
use rack::rack::Rack;
use reading::limits::{CABLES, Limits, NODES};
use reading::read::read;
use report::refusal::Refusal;
use report::tables::FileTables;
use routing::stored::Stored;
use std::alloc::Global;

// A rack with the forwarding table that its packets go by where no root is named.
#[derive(Drop)]
pub struct RackFile {
    pub rack: Rack,
    pub forwarding: Vec<u16>,
}

impl RackFile {
    ghost use Rattle.workbench.specs.RackFiles.{file_route, IsOf, Unread};

    // What the bytes of a rack file tell: of as many nodes and cables as can be read.
    pub fn read(heap: Global, file: &[u8]) -> Result<RackFile, Refusal>
        ensures { MatchResult result (IsOf file.now) (Unread file.now) }
    {
        let mut tables = FileTables::new(heap)?;
        let counts = read(
            file,
            Limits::at_most(NODES, CABLES),
            &mut tables.nodes,
            &mut tables.cables,
            &mut tables.forwarding,
        )?;
        let nodes = &tables.nodes[..counts.nodes];
        let cables = &tables.cables[..counts.cables];
        let rack = Rack::from_tables(heap, nodes, cables)?;
        let forwarding = if counts.entries > 0 {
            tables.forwarding
        } else {
            downhill_table(heap, &rack)?
        };
        Ok(RackFile { rack, forwarding })
    }

    // The source that its packets go by where no root is named.
    pub fn source(&self) -> Stored<'_>
        ensures { stored_route result.rack.now result.forwarding.now ≡ file_route self.now }
    {
        Stored {
            rack: &self.rack,
            forwarding: &self.forwarding,
        }
    }
}
