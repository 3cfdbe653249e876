// The tables that a file is read into and those of a plan, of the lengths needed.
ghost use Rattle.std.specs.Prelude.{◌≡◌, ◌*◌, length, IfOk};
ghost use Rattle.rack.specs.Racks.{node_count, channel_count};
ghost use Rattle.routing.specs.Turns.{lane_bytes};
ghost use Rattle.checking.specs.Starts.{Long};

use rack::cable::Cable;
use rack::rack::Rack;
use reading::limits::{CABLES, FORWARDING, NODES};
use routing::sizes::{dependency_words, lane_bytes, node_pairs, virtual_channels};
use std::alloc::{AllocError, Global};

// What a file is read into. The tests of reading have tables of any length, with marks, in a struct of their own.
#[derive(Drop)]
pub struct FileTables {
    pub nodes: Vec<u8>,
    pub cables: Vec<Cable>,
    pub forwarding: Vec<u16>,
}

impl FileTables {
    pub fn new(heap: Global) -> Result<FileTables, AllocError>
        ensures nodes { IfOk result (λ t. length t.nodes.items ≡ 128) }
        ensures cables { IfOk result (λ t. length t.cables.items ≡ 256) }
        ensures forwarding { IfOk result (λ t. length t.forwarding.items ≡ 16384) }
    {
        Ok(FileTables {
            nodes: vec![in heap; 0u8; NODES]?,
            cables: vec![in heap; Cable::none(); CABLES]?,
            forwarding: vec![in heap; 0u16; FORWARDING]?,
        })
    }
}

// What a plan is built in, and what the check of it writes.
#[derive(Drop)]
pub struct PlanTables {
    pub lanes: Vec<u8>,
    pub levels: Vec<u8>,
    pub dependencies: Vec<u64>,
    pub ranks: Vec<u16>,
    pub ring: Vec<u16>,
}

impl PlanTables {
    pub fn new(heap: Global, rack: &Rack) -> Result<PlanTables, AllocError>
        ensures lanes { IfOk result (λ t. length t.lanes.items ≡ lane_bytes (channel_count rack.now)) }
        ensures levels { IfOk result (λ t. length t.levels.items ≡ node_count rack.now * node_count rack.now) }
        ensures long { IfOk result (λ t. Long rack.now (length t.levels.items) (length t.dependencies.items) (length t.ranks.items) (length t.ring.items)) }
    {
        let points = virtual_channels(rack);
        Ok(PlanTables {
            lanes: vec![in heap; 0u8; lane_bytes(rack)]?,
            levels: vec![in heap; 0u8; node_pairs(rack)]?,
            dependencies: vec![in heap; 0u64; dependency_words(rack)]?,
            ranks: vec![in heap; 0u16; points]?,
            ring: vec![in heap; 0u16; points]?,
        })
    }
}
