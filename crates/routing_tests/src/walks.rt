// Walks along paths, and what they answer.
use rack::numbers::Level;
use rack::rack::Rack;
use routing::map::LaneMap;
use routing::pair::Pair;
use routing::plan::Plan;
use routing::source::ForwardingSource;
use routing::walk::walk;
use std::alloc::Global;
use std::process::Abort;
use std::test::Fail;

pub fn level(number: u8) -> Result<Level, Fail> {
    Level::new(number).ok_or_else(|| Fail::new("no level"))
}

// A plan with as many lanes, and no path table.
pub fn plan_of<'x, S, M>(rack: &'x Rack, source: &'x S, map: &'x M, lanes: u8) -> Plan<'x, S, M> {
    Plan {
        rack,
        source,
        map,
        levels: &[],
        lanes,
    }
}

// The path has these channels, on these lanes.
pub fn check_walks<S: ForwardingSource, M: LaneMap>(
    rt: &impl Abort,
    heap: Global,
    plan: &Plan<'_, S, M>,
    pair: Pair,
    want: &[(u16, u8)],
) -> Result<(), Fail> {
    let mut path = Vec::new(heap);
    walk(plan, pair, level(0)?, &mut path)?;
    assert_eq!(rt; path.len(), want.len());
    for (step, (channel, lane)) in path.iter().zip(want) {
        assert_eq!(rt; step.channel.0, *channel);
        assert_eq!(rt; step.lane.number(), *lane);
    }
    Ok(())
}

// The path is refused with the number, for the pair and the hop.
pub fn check_stops<S: ForwardingSource, M: LaneMap>(
    rt: &impl Abort,
    heap: Global,
    plan: &Plan<'_, S, M>,
    pair: Pair,
    number: u8,
    hop: u16,
) -> Result<(), Fail> {
    let mut path = Vec::new(heap);
    let fault = walk(plan, pair, level(0)?, &mut path)
        .err()
        .ok_or_else(|| Fail::new("walked"))?;
    assert_eq!(rt; fault.number(), Some(number));
    assert_eq!(rt; fault.pair(), Some(pair));
    assert_eq!(rt; fault.hop(), hop);
    Ok(())
}
