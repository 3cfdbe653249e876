// Tables to lend, with marks, and what they hold afterwards.
use checking::check::check;
use checking::fault::CheckFault;
use rack::rack::Rack;
use routing::map::LaneMap;
use routing::plan::Plan;
use routing::source::ForwardingSource;
use std::alloc::{AllocError, Global};
use std::process::Abort;
use std::test::*;

// What a place of any table holds before it is written: 9.
pub const MARK: u8 = 9;

// The lane table and the path table of a plan.
#[derive(Drop)]
pub struct Tables {
    pub lanes: Vec<u8>,
    pub levels: Vec<u8>,
}

impl Tables {
    // As many places as asked for, with that in each.
    pub fn new(heap: Global, lanes: usize, levels: usize, byte: u8) -> Result<Tables, AllocError> {
        Ok(Tables {
            lanes: vec![in heap; byte; lanes]?,
            levels: vec![in heap; byte; levels]?,
        })
    }

    // Zero at every place that the rack needs. Lengths are written out in these tests, so that `sizes` of routing is tested too.
    pub fn zero(heap: Global, rack: &Rack) -> Result<Tables, AllocError> {
        let nodes = rack.node_count();
        Tables::new(heap, 576 * rack.channel_count(), nodes * nodes, 0)
    }

    // Marks, at four places more than the rack needs too.
    pub fn marked(heap: Global, rack: &Rack) -> Result<Tables, AllocError> {
        let nodes = rack.node_count();
        Tables::new(
            heap,
            576 * rack.channel_count() + 4,
            nodes * nodes + 4,
            MARK,
        )
    }
}

// What the check works on.
#[derive(Drop)]
pub struct Work {
    pub dependencies: Vec<u64>,
    pub ranks: Vec<u16>,
    pub ring: Vec<u16>,
}

impl Work {
    // As many marks as asked for.
    pub fn new(
        heap: Global,
        dependencies: usize,
        ranks: usize,
        ring: usize,
    ) -> Result<Work, AllocError> {
        Ok(Work {
            dependencies: vec![in heap; u64::from(MARK); dependencies]?,
            ranks: vec![in heap; u16::from(MARK); ranks]?,
            ring: vec![in heap; u16::from(MARK); ring]?,
        })
    }

    // Marks, at some places more than the rack needs too.
    pub fn marked(heap: Global, rack: &Rack) -> Result<Work, AllocError> {
        let channels = rack.channel_count();
        Work::new(heap, 36 * channels + 5, 8 * channels + 3, 8 * channels + 7)
    }

    // Checks a plan; the greatest rank, where it is accepted.
    pub fn check<S: ForwardingSource, M: LaneMap>(
        &mut self,
        heap: Global,
        plan: &Plan<'_, S, M>,
    ) -> Result<u16, CheckFault> {
        let acceptance = check(
            heap,
            plan,
            &mut self.dependencies,
            &mut self.ranks,
            &mut self.ring,
        )?;
        Ok(acceptance.greatest_rank())
    }

    // Nothing was written.
    pub fn check_untouched(&self, rt: &impl Abort) -> Result<(), Fail> {
        check_table(rt, &self.dependencies, 0, &[])?;
        check_table(rt, &self.ranks, 0, &[])?;
        check_table(rt, &self.ring, 0, &[])
    }
}

// Puts an entry at a place of a table. The tests of the fabric have it too: a crate of tests cannot be used by another, and `example_racks` is for racks.
pub fn put<T: Copy>(table: &mut [T], place: usize, entry: T) {
    if let Some(old) = table.get_mut(place) {
        *old = entry;
    }
}

// The ring table has these points at its first places, from any of them on, and marks behind.
pub fn check_ring(rt: &impl Abort, ring: &[u16], points: [u16; 3]) -> Result<(), Fail> {
    let [a, b, c] = points;
    assert!(rt;
        ring.starts_with(&[a, b, c]) || ring.starts_with(&[b, c, a]) || ring.starts_with(&[c, a, b])
    );
    assert!(rt; ring.iter().skip(3).all(|point| *point == u16::from(MARK)));
    Ok(())
}

// What the entries, each a place and a number, say of a place; 0 where they say nothing.
fn said(entries: &[(usize, u64)], place: usize) -> u64 {
    entries
        .iter()
        .find(|entry| entry.0 == place)
        .map_or(0, |entry| entry.1)
}

// What a place should hold: what the entries say, and from `needed` on the mark.
fn wanted(entries: &[(usize, u64)], needed: usize, place: usize) -> u64 {
    if place < needed {
        said(entries, place)
    } else {
        u64::from(MARK)
    }
}

// The table holds what the entries say, zeros elsewhere, and marks from `needed` on.
pub fn check_table<T: Copy + Into<u64>>(
    rt: &impl Abort,
    table: &[T],
    needed: usize,
    entries: &[(usize, u64)],
) -> Result<(), Fail> {
    for (place, entry) in table.iter().enumerate() {
        assert_eq!(rt; (*entry).into(), wanted(entries, needed, place));
    }
    Ok(())
}
