// Plans over lent tables, and what the check and the builder answer for them.
use crate::tables::{Tables, Work};
use builder::build::build;
use builder::fault::BuildFault;
use checking::fault::CheckFault;
use rack::rack::Rack;
use routing::plan::Plan;
use routing::rows::StoredRows;
use routing::source::ForwardingSource;
use routing::stored::Stored;
use routing::two_hop::TwoHop;
use std::alloc::{AllocError, Global};

// A rack, and the tables that are lent for a plan of it.
#[derive(Drop)]
pub struct Bench<'a> {
    pub heap: Global,
    pub rack: &'a Rack,
    pub tables: Tables,
    pub work: Work,
}

impl<'a> Bench<'a> {
    // The plan's tables are zero, and the check's hold marks.
    pub fn zero(heap: Global, rack: &'a Rack) -> Result<Bench<'a>, AllocError> {
        Ok(Bench {
            heap,
            rack,
            tables: Tables::zero(heap, rack)?,
            work: Work::marked(heap, rack)?,
        })
    }

    // All tables hold marks.
    pub fn marked(heap: Global, rack: &'a Rack) -> Result<Bench<'a>, AllocError> {
        Ok(Bench {
            heap,
            rack,
            tables: Tables::marked(heap, rack)?,
            work: Work::marked(heap, rack)?,
        })
    }

    // Checks the plan that reads its lanes from the lane table; the greatest rank, where it is accepted.
    pub fn check_rows<S: ForwardingSource>(
        &mut self,
        source: &S,
        lanes: u8,
    ) -> Result<u16, CheckFault> {
        let map = StoredRows {
            rack: self.rack,
            lanes: &self.tables.lanes,
        };
        let plan = Plan {
            rack: self.rack,
            source,
            map: &map,
            levels: &self.tables.levels,
            lanes,
        };
        self.work.check(self.heap, &plan)
    }

    // Checks the plan that raises the lane once.
    pub fn check_two_hop<S: ForwardingSource>(
        &mut self,
        source: &S,
        lanes: u8,
    ) -> Result<u16, CheckFault> {
        let plan = Plan {
            rack: self.rack,
            source,
            map: &TwoHop { rack: self.rack },
            levels: &self.tables.levels,
            lanes,
        };
        self.work.check(self.heap, &plan)
    }

    // Checks the plan over a forwarding table and the lane table.
    pub fn check_stored(&mut self, forwarding: &[u16], lanes: u8) -> Result<u16, CheckFault> {
        let source = Stored {
            rack: self.rack,
            forwarding,
        };
        self.check_rows(&source, lanes)
    }

    // Builds over a source.
    pub fn build_rows<S: ForwardingSource>(
        &mut self,
        source: &S,
        lanes: u8,
    ) -> Result<(), BuildFault> {
        build(
            self.heap,
            self.rack,
            source,
            lanes,
            &mut self.tables.lanes,
            &mut self.tables.levels,
        )
    }

    // Builds over a forwarding table.
    pub fn build_stored(&mut self, forwarding: &[u16], lanes: u8) -> Result<(), BuildFault> {
        let source = Stored {
            rack: self.rack,
            forwarding,
        };
        self.build_rows(&source, lanes)
    }
}
