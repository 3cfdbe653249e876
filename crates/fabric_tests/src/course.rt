// A course of calls on a fabric.
use crate::bench::{Bench, acceptance};
use crate::rows::{Ask, No, Say, spoken};
use checking::acceptance::Acceptance;
use fabric::call::{Call, Done};
use fabric::fabric::Fabric;
use fabric::fabric::close::NotClosed;
use fabric::fault::FabricFault;
use fabric::packet::VirtualChannel;
use fabric::queue::Queue;
use routing::pair::Pair;
use std::alloc::{AllocError, Global};
use std::process::Abort;
use std::test::*;

// So many empty queues.
pub fn queues(heap: Global, count: usize) -> Result<Vec<Queue>, AllocError> {
    vec![in heap; Queue::empty(); count]
}

// Puts another entry at a place of a table. The tests of plans have it too: a crate of tests cannot be used by another, and `example_racks` is for racks.
fn put<T: Copy>(table: &mut [T], place: usize, entry: T) {
    if let Some(old) = table.get_mut(place) {
        *old = entry;
    }
}

// An open fabric, the bench with its plan, and its queues.
#[derive(Drop)]
pub struct Course {
    pub bench: Bench,
    pub fabric: Fabric,
    pub queues: Vec<Queue>,
}

impl Course {
    // Opens a fabric whose queues hold so many packets each.
    pub fn open(
        bench: Bench,
        acceptance: Acceptance,
        depth: u8,
        mut queues: Vec<Queue>,
    ) -> Result<Course, Fail> {
        let fabric = bench
            .open(acceptance, depth, &mut queues)
            .map_err(|_| Fail::new("not opened"))?;
        Ok(Course {
            bench,
            fabric,
            queues,
        })
    }

    // Makes the calls.
    pub fn run(
        &mut self,
        heap: Global,
        calls: &[Call],
    ) -> Result<Vec<Result<Done, FabricFault>>, AllocError> {
        let source = self.bench.source();
        let map = self.bench.map();
        let plan = self.bench.plan(&source, &map);
        self.fabric.run(heap, &plan, &mut self.queues, calls)
    }

    // Makes one call.
    pub fn act(&mut self, call: Call) -> Result<Say, No> {
        let source = self.bench.source();
        let map = self.bench.map();
        let plan = self.bench.plan(&source, &map);
        spoken(self.fabric.act(&plan, &mut self.queues, call))
    }

    pub fn admit(&mut self, u: u16, v: u16, tag: u32) -> Result<Say, No> {
        let pair = Pair::of(u, v);
        self.act(Call::Admit { pair, tag })
    }

    pub fn take(&mut self, x: u16) -> Result<Say, No> {
        self.act(Call::Take(VirtualChannel(x)))
    }

    fn answer(&mut self, ask: Ask) -> Result<Say, No> {
        match ask {
            Ask::Admit(u, v, tag) => return self.admit(u, v, tag),
            Ask::Forward(x) => return self.act(Call::Forward(VirtualChannel(x))),
            Ask::Take(x) => return self.take(x),
            Ask::Entry(place, entry) => put(&mut self.bench.forwarding, place, entry),
            Ask::Lane(place, lane) => put(&mut self.bench.lanes, place, lane),
            Ask::Level(place, level) => put(&mut self.bench.levels, place, level),
        }
        Ok(Say::Written)
    }

    // Goes through a table, and compares what is answered at each row.
    pub fn rows(&mut self, rt: &impl Abort, rows: &[(Ask, Result<Say, No>)]) -> Result<(), Fail> {
        for (k, (ask, expected)) in rows.iter().enumerate() {
            let said = self.answer(*ask);
            assert!(rt; said == *expected, "row {k}");
        }
        Ok(())
    }

    // Closes the fabric, and answers the queues too; that asks for no source and no map.
    pub fn close(self) -> (Result<usize, NotClosed>, Vec<Queue>) {
        let Course {
            bench,
            fabric,
            queues,
        } = self;
        let plan = bench.plan(&(), &());
        (fabric.close(&plan, &queues), queues)
    }

    // The same where so many packets should still wait; answers the queues.
    pub fn closed(self, rt: &impl Abort, waiting: usize) -> Result<Vec<Queue>, Fail> {
        let (told, queues) = self.close();
        let count = told.map_err(|_| Fail::new("not closed"))?;
        assert!(rt; count == waiting);
        Ok(queues)
    }
}

// Opens a fabric with depth 1, goes through a table and closes the fabric, where so many packets should still wait.
pub fn check_course(
    rt: &impl Abort,
    heap: Global,
    bench: Bench,
    acceptance: Acceptance,
    rows: &[(Ask, Result<Say, No>)],
    waiting: usize,
) -> Result<(), Fail> {
    let mut course = Course::open(bench, acceptance, 1, queues(heap, 96)?)?;
    course.rows(rt, rows)?;
    course.closed(rt, waiting)?;
    Ok(())
}

// The table at depth 1 under the plan with two lanes; at its end so many packets wait.
pub fn two_lane_course(
    rt: &impl Abort,
    heap: Global,
    rows: &[(Ask, Result<Say, No>)],
    waiting: usize,
) -> Result<(), Fail> {
    let bench = Bench::two_lanes(heap, 36)?;
    check_course(rt, heap, bench, acceptance(rt, heap)?, rows, waiting)
}
