// What a rack tells of its channels.
use rack::cable::{Cable, End};
use rack::numbers::{Channel, Lane, Level, Node, Port};
use rack::rack::Rack;
use std::test::*;

// A switch between two hosts: channels 0 and 1 of its first cable, 2 and 3 of its second.
#[test]
fn channels_of_each_node(rt: HostRuntime) -> Result<(), Fail> {
    let cables = [Cable::between(0, 1, 1, 1), Cable::between(1, 2, 2, 1)];
    let rack = Rack::from_tables(rt.alloc(), &[1, 2, 1], &cables)?;
    let rows: [(u16, &[Channel]); 4] = [
        (0, &[Channel(0)]),
        (1, &[Channel(1), Channel(2)]),
        (2, &[Channel(3)]),
        (3, &[]),
    ];
    for (node, leaving) in rows {
        assert!(rt; rack.leaving(Node(node)) == leaving);
    }
    assert_eq!(rt; rack.next_leaving(Node(1), Channel(2)), Some(Channel(2)));
    assert_eq!(rt; rack.next_leaving(Node(1), Channel(3)), None);
    assert_eq!(rt; rack.next_entering(Node(1), Channel(1)), Some(Channel(3)));
    assert_eq!(rt; rack.channel_out(Node(2)), Some(Channel(3)));
    Ok(())
}

// The same rack. Port 38 of a node is none, though in a table with 37 places for each node the next node's port 1 would stand there.
#[test]
fn channels_by_port(rt: HostRuntime) -> Result<(), Fail> {
    let cables = [Cable::between(0, 1, 1, 1), Cable::between(1, 2, 2, 1)];
    let rack = Rack::from_tables(rt.alloc(), &[1, 2, 1], &cables)?;
    let rows = [
        (0, 1, Some(Channel(0))),
        (1, 1, Some(Channel(1))),
        (1, 2, Some(Channel(2))),
        (2, 1, Some(Channel(3))),
        (0, 0, None),
        (0, 2, None),
        (0, 38, None),
        (1, 3, None),
        (1, 36, None),
        (1, 38, None),
        (3, 1, None),
        (65535, 255, None),
    ];
    for (node, port, channel) in rows {
        let end = End {
            node: Node(node),
            port: Port(port),
        };
        assert_eq!(rt; rack.channel_at(end), channel);
    }
    Ok(())
}

// A lane and a level are printed under their own names.
#[test]
fn lane_and_level_named(rt: HostRuntime) -> Result<(), Fail> {
    let text = format!(in rt.alloc(); "{:?} {:?}", Lane::one(), Level::zero())?;
    assert!(rt; text.as_str() == "Lane { number: 1 } Level { number: 0 }");
    Ok(())
}
