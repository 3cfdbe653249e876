// As many nodes and cables as are let in, and one more.
use crate::files::Line::{Forwards, Host, Joins, Switch};
use crate::files::{Line, add, check_accepted, check_refused, file};
use reading::add::Counts;
use reading::limits::Limits;
use std::alloc::{AllocError, Global};
use std::test::*;

fn counts(nodes: usize, cables: usize) -> Counts {
    Counts {
        nodes,
        cables,
        entries: 0,
    }
}

// As many switches, and then as many cables, each from a port of one of the lower half to the same port of one of the upper half.
fn laid(heap: Global, half: u16, cables: u16) -> Result<Vec<u8>, AllocError> {
    let mut out = Vec::new(heap);
    for v in 0..half.saturating_add(half) {
        add(&mut out, Switch(v))?;
    }
    for k in 0..cables {
        let v = k / 36;
        let port = (k % 36) as u8 + 1;
        add(&mut out, Joins(v, port, v.saturating_add(half), port))?;
    }
    Ok(out)
}

#[test]
fn nodes_at_the_limit(rt: HostRuntime) -> Result<(), Fail> {
    let heap = rt.alloc();
    let all = Limits::at_most(128, 256);
    let mut most = laid(heap, 64, 0)?;
    check_accepted(&rt, heap, &most, all, counts(128, 0))?;
    add(&mut most, Switch(128))?;
    check_refused(&rt, heap, &most, all, 3, 128)?;
    check_refused(&rt, heap, &most, Limits::at_most(1000, 1000), 3, 128)
}

#[test]
fn cables_at_the_limit(rt: HostRuntime) -> Result<(), Fail> {
    let heap = rt.alloc();
    let all = Limits::at_most(128, 256);
    let most = laid(heap, 8, 256)?;
    check_accepted(&rt, heap, &most, all, counts(16, 256))?;
    let more = laid(heap, 8, 257)?;
    check_refused(&rt, heap, &more, all, 3, 272)?;
    check_refused(&rt, heap, &more, Limits::at_most(1000, 1000), 3, 272)
}

#[test]
fn narrower_limits(rt: HostRuntime) -> Result<(), Fail> {
    let heap = rt.alloc();
    let few = Limits::at_most(12, 16);
    let mut most = laid(heap, 6, 0)?;
    check_accepted(&rt, heap, &most, few, counts(12, 0))?;
    add(&mut most, Switch(12))?;
    check_refused(&rt, heap, &most, few, 3, 12)?;
    let most = laid(heap, 1, 16)?;
    check_accepted(&rt, heap, &most, few, counts(2, 16))?;
    let more = laid(heap, 1, 17)?;
    check_refused(&rt, heap, &more, few, 3, 18)?;
    check_refused(&rt, heap, &most, Limits::at_most(0, 0), 3, 0)
}

// Where a record beyond the limit has another fault too, the earlier rule is told.
#[test]
fn two_faults(rt: HostRuntime) -> Result<(), Fail> {
    let heap = rt.alloc();
    let rows: [(&[Line], u8, usize); 4] = [
        (&[Switch(0), Switch(1), Switch(7)], 3, 2),
        (
            &[Switch(0), Switch(1), Joins(0, 1, 1, 1), Joins(0, 0, 0, 0)],
            3,
            3,
        ),
        (&[Switch(0), Switch(1), Joins(0, 1, 1, 1), Switch(2)], 2, 3),
        (
            &[
                Host(0),
                Switch(1),
                Joins(0, 1, 1, 1),
                Forwards(1, 0, 1),
                Joins(1, 2, 0, 1),
            ],
            2,
            4,
        ),
    ];
    for (lines, number, about) in rows {
        let bytes = file(heap, lines)?;
        check_refused(&rt, heap, &bytes, Limits::at_most(2, 1), number, about)?;
    }
    Ok(())
}
