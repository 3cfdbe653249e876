// The ranking on small graphs.
use crate::edges::Edges;
use ranking::{RankFault, rank};
use std::process::Abort;
use std::test::Fail;

// Ranks into tables of six nines: the answer, and what the tables then hold.
fn gives(
    rt: &impl Abort,
    name: &str,
    points: u8,
    edges: &[(u16, u16)],
    answer: Result<u16, RankFault>,
    ranks: [u16; 6],
    ring: [u16; 6],
) -> Result<(), Fail> {
    let mut got_ranks = [9; 6];
    let mut got_ring = [9; 6];
    let graph = Edges { points, edges };
    assert_eq!(rt;
        rank(&graph, &mut got_ranks, &mut got_ring),
        answer,
        "{name}"
    );
    assert_eq!(rt; got_ranks, ranks, "{name}");
    assert_eq!(rt; got_ring, ring, "{name}");
    Ok(())
}

#[test]
fn free_of_rings(rt: HostRuntime) -> Result<(), Fail> {
    gives(&rt, "no points", 0, &[], Ok(0), [9; 6], [9; 6])?;
    gives(&rt, "one point", 1, &[], Ok(0), [0, 9, 9, 9, 9, 9], [9; 6])?;
    gives(
        &rt,
        "a chain",
        3,
        &[(2, 1), (1, 0)],
        Ok(2),
        [2, 1, 0, 9, 9, 9],
        [9; 6],
    )?;
    gives(
        &rt,
        "a diamond with a long and a short way",
        5,
        &[(0, 4), (0, 1), (1, 2), (2, 4), (4, 3)],
        Ok(4),
        [0, 1, 2, 4, 3, 9],
        [9; 6],
    )
}

// Which ring is shown is free; these are the ones that the walk comes to.
#[test]
fn with_a_ring(rt: HostRuntime) -> Result<(), Fail> {
    gives(
        &rt,
        "a point that follows itself",
        1,
        &[(0, 0)],
        Err(RankFault::Ring { length: 1 }),
        [0, 9, 9, 9, 9, 9],
        [0, 9, 9, 9, 9, 9],
    )?;
    gives(
        &rt,
        "two rings",
        5,
        &[(0, 1), (1, 0), (2, 3), (3, 4), (4, 2)],
        Err(RankFault::Ring { length: 2 }),
        [0, 0, 0, 0, 0, 9],
        [1, 0, 9, 9, 9, 9],
    )?;
    gives(
        &rt,
        "a ring with a tail in and a tail out",
        6,
        &[(0, 1), (1, 2), (2, 3), (3, 1), (3, 4), (4, 5)],
        Err(RankFault::Ring { length: 3 }),
        [0; 6],
        [2, 3, 1, 9, 9, 9],
    )
}

#[test]
fn tables_too_short(rt: HostRuntime) -> Result<(), Fail> {
    gives(
        &rt,
        "both tables",
        7,
        &[(0, 1)],
        Err(RankFault::Tables),
        [9; 6],
        [9; 6],
    )?;
    let graph = Edges {
        points: 2,
        edges: &[(0, 1)],
    };
    let mut long = [9; 2];
    let mut short = [9; 1];
    assert_eq!(rt; rank(&graph, &mut short, &mut long), Err(RankFault::Tables));
    assert_eq!(rt; rank(&graph, &mut long, &mut short), Err(RankFault::Tables));
    assert_eq!(rt; long, [9; 2]);
    assert_eq!(rt; short, [9; 1]);
    Ok(())
}
