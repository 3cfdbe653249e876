// The triangle with the tables of a plan.
use builder::build::build;
use checking::acceptance::Acceptance;
use checking::check::check as check_plan;
use checking::fault::CheckFault;
use example_racks::{CLOCKWISE, triangle};
use fabric::fabric::Fabric;
use fabric::fabric::open::{NotOpened, open};
use fabric::queue::Queue;
use rack::rack::Rack;
use routing::plan::Plan;
use routing::rows::StoredRows;
use routing::stored::Stored;
use std::alloc::Global;
use std::process::Abort;
use std::test::*;

#[derive(Drop)]
pub struct Bench {
    rack: Rack,
    pub forwarding: Vec<u16>,
    pub lanes: Vec<u8>,
    pub levels: Vec<u8>,
    // the lane count
    pub count: u8,
}

impl Bench {
    // Forwards clockwise; the lane table, and a path table of so many places, are zero.
    pub fn one_lane(heap: Global, levels: usize) -> Result<Bench, Fail> {
        Ok(Bench {
            rack: triangle(heap)?,
            forwarding: Vec::from_slice(heap, &CLOCKWISE)?,
            lanes: vec![in heap; 0u8; 6912]?,
            levels: vec![in heap; 0u8; levels]?,
            count: 1,
        })
    }

    // The same with the tables that are built with two lanes.
    pub fn two_lanes(heap: Global, levels: usize) -> Result<Bench, Fail> {
        let mut bench = Bench::one_lane(heap, levels)?;
        bench.count = 2;
        let source = Stored {
            rack: &bench.rack,
            forwarding: &bench.forwarding,
        };
        build(
            heap,
            &bench.rack,
            &source,
            2,
            &mut bench.lanes,
            &mut bench.levels,
        )?;
        Ok(bench)
    }

    pub fn source(&self) -> Stored<'_> {
        Stored {
            rack: &self.rack,
            forwarding: &self.forwarding,
        }
    }

    pub fn map(&self) -> StoredRows<'_> {
        StoredRows {
            rack: &self.rack,
            lanes: &self.lanes,
        }
    }

    pub fn plan<'a, S, M>(&'a self, source: &'a S, map: &'a M) -> Plan<'a, S, M> {
        Plan {
            rack: &self.rack,
            source,
            map,
            levels: &self.levels,
            lanes: self.count,
        }
    }

    // Checks the plan.
    pub fn accept(&self, heap: Global) -> Result<Acceptance, CheckFault> {
        let source = self.source();
        let map = self.map();
        let plan = self.plan(&source, &map);
        let mut dependencies = vec![in heap; 0u64; 432]?;
        let mut ranks = vec![in heap; 0u16; 96]?;
        let mut ring = vec![in heap; 0u16; 96]?;
        check_plan(heap, &plan, &mut dependencies, &mut ranks, &mut ring)
    }

    // Opens a fabric under the plan; that asks for no source and no map.
    pub fn open(
        &self,
        acceptance: Acceptance,
        depth: u8,
        queues: &mut [Queue],
    ) -> Result<Fabric, NotOpened> {
        let plan = self.plan(&(), &());
        open(acceptance, &plan, depth, queues)
    }
}

// The acceptance of the plan with two lanes; its greatest rank is 3.
pub fn acceptance(rt: &impl Abort, heap: Global) -> Result<Acceptance, Fail> {
    let bench = Bench::two_lanes(heap, 36)?;
    let acceptance = bench.accept(heap)?;
    assert!(rt; acceptance.greatest_rank() == 3);
    Ok(acceptance)
}
