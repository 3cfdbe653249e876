// Each refusal, at a first, a middle and a last record where it can be: the records, the number, and the record or host that it is about.
use crate::files::Line::{Bytes, Forwards, Host, Joins, Switch};
use crate::files::{Line, check_refused, file};
use reading::limits::Limits;
use std::test::*;

#[test]
fn records(rt: HostRuntime) -> Result<(), Fail> {
    let heap = rt.alloc();
    let rows: [(&[Line], u8, usize); 54] = [
        // an unknown kind, or a spare byte that is not zero
        (&[Bytes([0, 0, 0, 0, 0, 0, 0, 0])], 2, 0),
        (
            &[Switch(0), Bytes([65, 0, 1, 0, 0, 0, 0, 0]), Switch(2)],
            2,
            1,
        ),
        (
            &[
                Host(0),
                Switch(1),
                Joins(0, 1, 1, 1),
                Bytes([255, 0, 0, 0, 0, 0, 0, 0]),
            ],
            2,
            3,
        ),
        (&[Bytes([72, 0, 0, 1, 0, 0, 0, 0])], 2, 0),
        (&[Bytes([72, 0, 0, 0, 0, 0, 0, 1])], 2, 0),
        (&[Switch(0), Bytes([83, 0, 1, 0, 0, 1, 0, 0])], 2, 1),
        (&[Switch(0), Bytes([83, 0, 1, 0, 0, 0, 0, 1])], 2, 1),
        (
            &[Host(0), Switch(1), Bytes([67, 0, 0, 1, 0, 1, 1, 1])],
            2,
            2,
        ),
        (
            &[
                Host(0),
                Switch(1),
                Joins(0, 1, 1, 1),
                Bytes([70, 0, 1, 0, 0, 1, 1, 0]),
            ],
            2,
            3,
        ),
        (
            &[
                Host(0),
                Switch(1),
                Joins(0, 1, 1, 1),
                Bytes([70, 0, 1, 0, 0, 1, 0, 1]),
            ],
            2,
            3,
        ),
        // a group out of order
        (&[Host(0), Switch(1), Joins(0, 1, 1, 1), Switch(2)], 2, 3),
        (
            &[
                Host(0),
                Switch(1),
                Joins(0, 1, 1, 1),
                Forwards(1, 0, 1),
                Host(2),
            ],
            2,
            4,
        ),
        (
            &[
                Host(0),
                Switch(1),
                Switch(2),
                Joins(0, 1, 1, 1),
                Forwards(1, 0, 1),
                Joins(1, 2, 2, 1),
            ],
            2,
            5,
        ),
        // a node number that is not its place
        (&[Host(1)], 4, 0),
        (&[Switch(0), Switch(2), Switch(1)], 4, 1),
        (&[Host(0), Switch(1), Host(1)], 4, 2),
        (&[Switch(256)], 4, 0),
        // a cable end that is no port, one node twice, two hosts
        (&[Joins(0, 1, 1, 1)], 5, 0),
        (&[Host(0), Switch(1), Joins(0, 0, 1, 1)], 5, 2),
        (&[Host(0), Switch(1), Joins(0, 2, 1, 1)], 5, 2),
        (&[Host(0), Switch(1), Joins(0, 1, 1, 37)], 5, 2),
        (&[Host(0), Switch(1), Joins(0, 1, 2, 1)], 5, 2),
        (&[Switch(0), Joins(0, 1, 0, 2)], 5, 1),
        (&[Host(0), Host(1), Joins(0, 1, 1, 1)], 5, 2),
        (
            &[
                Switch(0),
                Switch(1),
                Joins(0, 1, 1, 1),
                Joins(0, 2, 1, 0),
                Joins(0, 3, 1, 3),
            ],
            5,
            3,
        ),
        (
            &[
                Switch(0),
                Switch(1),
                Joins(0, 1, 1, 1),
                Joins(0, 2, 1, 2),
                Joins(0, 3, 256, 3),
            ],
            5,
            4,
        ),
        // a port that has a cable
        (
            &[Switch(0), Switch(1), Joins(0, 1, 1, 1), Joins(0, 1, 1, 2)],
            6,
            3,
        ),
        (
            &[Switch(0), Switch(1), Joins(0, 1, 1, 1), Joins(0, 2, 1, 1)],
            6,
            3,
        ),
        (
            &[Switch(0), Switch(1), Joins(0, 1, 1, 1), Joins(1, 1, 0, 2)],
            6,
            3,
        ),
        (
            &[Host(0), Switch(1), Joins(0, 1, 1, 1), Joins(1, 2, 0, 1)],
            6,
            3,
        ),
        (
            &[
                Switch(0),
                Switch(1),
                Joins(0, 1, 1, 1),
                Joins(0, 2, 1, 2),
                Joins(0, 2, 1, 3),
                Joins(0, 4, 1, 4),
            ],
            6,
            4,
        ),
        (
            &[
                Switch(0),
                Switch(1),
                Joins(0, 1, 1, 1),
                Joins(0, 2, 1, 2),
                Joins(0, 3, 1, 3),
                Joins(1, 1, 0, 4),
            ],
            6,
            5,
        ),
        // a host without a cable, the lowest
        (&[Host(0)], 7, 0),
        (&[Switch(0), Host(1), Switch(2)], 7, 1),
        (&[Switch(0), Switch(1), Host(2)], 7, 2),
        (&[Host(0), Host(1), Switch(2), Joins(0, 1, 2, 1)], 7, 1),
        (
            &[Host(0), Host(1), Host(2), Switch(3), Joins(1, 1, 3, 1)],
            7,
            0,
        ),
        // a forwarding entry for no switch, for no host, by a port without a cable, for a pair given before
        (&[Forwards(0, 0, 1)], 8, 0),
        (
            &[Host(0), Switch(1), Joins(0, 1, 1, 1), Forwards(0, 0, 1)],
            8,
            3,
        ),
        (
            &[Host(0), Switch(1), Joins(0, 1, 1, 1), Forwards(1, 1, 1)],
            8,
            3,
        ),
        (
            &[Host(0), Switch(1), Joins(0, 1, 1, 1), Forwards(2, 0, 1)],
            8,
            3,
        ),
        (
            &[Host(0), Switch(1), Joins(0, 1, 1, 1), Forwards(1, 256, 1)],
            8,
            3,
        ),
        (
            &[Host(0), Switch(1), Joins(0, 1, 1, 1), Forwards(1, 0, 2)],
            8,
            3,
        ),
        (
            &[
                Host(0),
                Switch(1),
                Joins(0, 1, 1, 1),
                Forwards(1, 0, 1),
                Forwards(1, 0, 1),
            ],
            8,
            4,
        ),
        (
            &[
                Host(0),
                Switch(1),
                Host(2),
                Joins(0, 1, 1, 1),
                Joins(2, 1, 1, 2),
                Forwards(1, 0, 1),
                Forwards(1, 0, 2),
                Forwards(1, 2, 2),
            ],
            8,
            6,
        ),
        (
            &[
                Host(0),
                Switch(1),
                Host(2),
                Joins(0, 1, 1, 1),
                Joins(2, 1, 1, 2),
                Forwards(1, 0, 1),
                Forwards(1, 2, 2),
                Forwards(1, 2, 2),
            ],
            8,
            7,
        ),
        // two faults: in one record the earlier rule is told, and of two records the earlier one
        (&[Switch(0), Switch(1), Joins(0, 1, 1, 1), Switch(9)], 2, 3),
        (
            &[
                Host(0),
                Switch(1),
                Joins(0, 1, 1, 1),
                Forwards(1, 0, 1),
                Joins(0, 0, 0, 0),
            ],
            2,
            4,
        ),
        (
            &[Switch(0), Switch(1), Joins(0, 1, 1, 1), Joins(0, 1, 0, 2)],
            5,
            3,
        ),
        (&[Switch(5), Bytes([0, 0, 0, 0, 0, 0, 0, 0])], 4, 0),
        (
            &[
                Switch(0),
                Switch(1),
                Joins(0, 1, 1, 1),
                Joins(0, 1, 1, 2),
                Bytes([0, 0, 0, 0, 0, 0, 0, 0]),
            ],
            6,
            3,
        ),
        (
            &[
                Host(0),
                Switch(1),
                Joins(0, 1, 1, 1),
                Forwards(1, 0, 2),
                Switch(2),
            ],
            8,
            3,
        ),
        (&[Host(0), Switch(1), Switch(1)], 4, 2),
        (
            &[Host(0), Switch(1), Joins(0, 1, 1, 0), Joins(0, 2, 1, 1)],
            5,
            2,
        ),
    ];
    for (lines, number, about) in rows {
        let bytes = file(heap, lines)?;
        check_refused(&rt, heap, &bytes, Limits::at_most(128, 256), number, about)?;
    }
    Ok(())
}

// A length that is no multiple of 8 is told before any record is looked at.
#[test]
fn lengths(rt: HostRuntime) -> Result<(), Fail> {
    let rows: [&[u8]; 4] = [
        &[72],
        &[83, 0, 0, 0, 0, 0, 0],
        &[83, 0, 0, 0, 0, 0, 0, 0, 83],
        &[0, 0, 0, 0, 0, 0, 0, 0, 0, 0, 0, 0, 0, 0, 0],
    ];
    for bytes in rows {
        check_refused(&rt, rt.alloc(), bytes, Limits::at_most(128, 256), 1, 0)?;
    }
    Ok(())
}
