// The lane map that raises the lane once, behind the first switch.
ghost use Rattle.routing.specs.Turns.{two_hop};

use crate::map::LaneMap;
use crate::rows::turn_port;
use rack::numbers::{Channel, Lane, Level};
use rack::rack::Rack;

#[derive(Clone, Copy)]
pub struct TwoHop<'a> {
    pub rack: &'a Rack,
}

impl LaneMap for TwoHop<'_> {
    ghost lanes = { λ m c d s. two_hop m.rack.now c d s };

    // Lane 0 where the arriving channel leaves a host, 1 where it leaves a switch; 0 for what is no turn.
    fn lane(&self, arriving: Channel, leaving: Channel, _level: Level) -> Lane {
        if turn_port(self.rack, arriving, leaving).is_none() {
            return Lane::zero();
        }
        match self.rack.ends(arriving) {
            Some(ends) if self.rack.is_switch(ends.tail.node) => Lane::one(),
            _ => Lane::zero(),
        }
    }
}
