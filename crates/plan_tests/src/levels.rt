// A rack that sixteen levels are too few for: nine switches, each with a host, that send what is for a host through all switches, in an order of its own.
use crate::plans::Bench;
use crate::tables::{check_table, put};
use builder::fault::BuildFault;
use rack::cable::Cable;
use rack::fault::RackFault;
use rack::numbers::{Channel, Node};
use rack::rack::Rack;
use routing::pair::Pair;
use std::alloc::{AllocError, Global};
use std::test::*;

// The cables of a circle of switches, 9 to 17: each has one to its host, and to the next two on either side.
fn circle_cables(heap: Global) -> Result<Vec<Cable>, AllocError> {
    let mut out = Vec::new(heap);
    for host in 0..9u16 {
        let switch = 9 + host;
        let next = 9 + (host + 1) % 9;
        let second = 9 + (host + 2) % 9;
        out.extend_from_slice(&[
            Cable::between(host, 1, switch, 1),
            Cable::between(switch, 2, next, 3),
            Cable::between(switch, 4, second, 5),
        ])?;
    }
    Ok(out)
}

fn circle(heap: Global) -> Result<Rack, RackFault> {
    let nodes = [1u8, 1, 1, 1, 1, 1, 1, 1, 1, 2, 2, 2, 2, 2, 2, 2, 2, 2];
    let cables = circle_cables(heap)?;
    Rack::from_tables(heap, &nodes, &cables)
}

// Whether a channel leads from one node to another.
fn leads(rack: &Rack, channel: Channel, tail: Node, head: Node) -> bool {
    rack.ends(channel)
        .is_some_and(|ends| ends.tail.node == tail && ends.head.node == head)
}

// One more than the channel from one node to another; 0 if there is none.
fn entry(rack: &Rack, tail: u16, head: u16) -> u16 {
    (0..rack.channel_count() as u16)
        .find(|c| leads(rack, Channel(*c), Node(tail), Node(head)))
        .map_or(0, |c| c.saturating_add(1))
}

// The switch of a host.
fn switch(host: u8) -> u16 {
    9 + u16::from(host)
}

// Has the switch of `at` send what is for a host to the next node.
fn forward(rack: &Rack, forwarding: &mut [u16], at: u8, host: u8, next: u16) {
    let place = 18 * usize::from(switch(at)) + usize::from(host);
    put(forwarding, place, entry(rack, switch(at), next));
}

// Has each switch send what is for a host to the next in the order, and the last to the host.
fn forward_all(rack: &Rack, forwarding: &mut [u16], host: u8, order: &[u8]) {
    for (at, next) in order.iter().zip(order.iter().skip(1)) {
        forward(rack, forwarding, *at, host, switch(*next));
    }
    forward(rack, forwarding, host, host, u16::from(host));
}

// The forwarding table: for each host an order of the switches, each named by its host.
fn in_order(heap: Global, rack: &Rack) -> Result<Vec<u16>, AllocError> {
    let orders: [&[u8]; 9] = [
        &[5, 7, 6, 8, 1, 3, 4, 2, 0],
        &[4, 3, 2, 0, 7, 5, 6, 8, 1],
        &[6, 8, 1, 0, 7, 5, 3, 4, 2],
        &[5, 4, 2, 0, 7, 6, 8, 1, 3],
        &[8, 6, 7, 0, 2, 1, 3, 5, 4],
        &[0, 2, 4, 6, 7, 8, 1, 3, 5],
        &[5, 3, 4, 2, 1, 8, 0, 7, 6],
        &[8, 6, 5, 4, 2, 3, 1, 0, 7],
        &[5, 3, 4, 2, 1, 0, 7, 6, 8],
    ];
    let mut out = vec![in heap; 0u16; 324]?;
    for (host, order) in (0u8..9).zip(orders) {
        forward_all(rack, &mut out, host, order);
    }
    Ok(out)
}

// Ten channels need eight lanes; with them the pair 8, 0 finds a turn taken at every level, and both tables are cleared.
#[test]
fn none_left(rt: HostRuntime) -> Result<(), Fail> {
    let heap = rt.alloc();
    let rack = circle(heap)?;
    let forwarding = in_order(heap, &rack)?;
    let rows: [(u8, BuildFault); 2] = [
        (
            7,
            BuildFault::Lane {
                pair: Pair::of(0, 5),
            },
        ),
        (
            8,
            BuildFault::Level {
                pair: Pair::of(8, 0),
            },
        ),
    ];
    for (lanes, fault) in rows {
        let mut bench = Bench::marked(heap, &rack)?;
        assert_eq!(rt; bench.build_stored(&forwarding, lanes), Err(fault));
        check_table(&rt, &bench.tables.lanes, 31104, &[])?;
        check_table(&rt, &bench.tables.levels, 324, &[])?;
    }
    Ok(())
}
