// What the tables hold once a file is read.
use crate::files::Line::{Forwards, Host, Joins, Switch};
use crate::files::{Line, MARK, Tables, file};
use rack::cable::Cable;
use reading::add::Counts;
use reading::limits::Limits;
use std::alloc::{AllocError, Global};
use std::fmt::Debug;
use std::process::Abort;
use std::test::*;

// A switch between two hosts, which forwards to both.
fn small(heap: Global) -> Result<Vec<u8>, AllocError> {
    let lines: [Line; 7] = [
        Host(0),
        Switch(1),
        Host(2),
        Joins(0, 1, 1, 1),
        Joins(1, 2, 2, 1),
        Forwards(1, 0, 1),
        Forwards(1, 2, 2),
    ];
    file(heap, &lines)
}

// Each place of the table holds what is wanted there.
fn check_places<T: Copy + PartialEq + Debug, F: Fn(usize) -> T>(
    rt: &impl Abort,
    table: &[T],
    want: F,
) -> Result<(), Fail>
    requires { F.IsAlwaysCallable want }
{
    for (k, entry) in table.iter().enumerate() {
        assert_eq!(rt; *entry, want(k), "place {k}");
    }
    Ok(())
}

#[test]
fn place_by_place(rt: HostRuntime) -> Result<(), Fail> {
    let heap = rt.alloc();
    let bytes = small(heap)?;
    let mut tables = Tables::longer(heap)?;
    let told = tables.read(&bytes, Limits::at_most(128, 256))?;
    assert_eq!(rt;
        told,
        Counts {
            nodes: 3,
            cables: 2,
            entries: 2,
        }
    );
    check_places(&rt, &tables.nodes, |k| match k {
        1 => 2,
        0..=2 => 1,
        3..=127 => 0,
        _ => MARK,
    })?;
    check_places(&rt, &tables.cables, |k| match k {
        0 => Cable::between(0, 1, 1, 1),
        1 => Cable::between(1, 2, 2, 1),
        2..=255 => Cable::none(),
        _ => Cable::between(9, 9, 9, 9),
    })?;
    check_places(&rt, &tables.forwarding, |k| match k {
        3 => 2,
        5 => 3,
        0..=16383 => 0,
        _ => 9,
    })
}

// An empty file describes nothing, and is accepted.
#[test]
fn empty(rt: HostRuntime) -> Result<(), Fail> {
    let mut tables = Tables::new(rt.alloc(), 128, 256, 16384)?;
    let told = tables.read(&[], Limits::at_most(128, 256))?;
    assert_eq!(rt;
        told,
        Counts {
            nodes: 0,
            cables: 0,
            entries: 0,
        }
    );
    tables.check_zero(&rt)
}

// Tables one place short are refused, whatever the file is, and are as they were.
#[test]
fn short(rt: HostRuntime) -> Result<(), Fail> {
    let heap = rt.alloc();
    let good = small(heap)?;
    let rows: [(usize, usize, usize, &[u8]); 5] = [
        (127, 256, 16384, &good),
        (128, 255, 16384, &good),
        (128, 256, 16383, &good),
        (127, 255, 16383, &good),
        (128, 256, 16383, &[0]),
    ];
    for (nodes, cables, forwarding, bytes) in rows {
        let mut tables = Tables::new(heap, nodes, cables, forwarding)?;
        match tables.read(bytes, Limits::at_most(128, 256)) {
            Ok(_) => return Err(Fail::new("accepted")),
            Err(fault) => {
                assert_eq!(rt; fault.number(), 9);
                assert_eq!(rt; fault.record(), 0);
            }
        }
        tables.check_marks(&rt, 0, 0, 0)?;
    }
    Ok(())
}
