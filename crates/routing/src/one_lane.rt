// The lane map that keeps to lane 0: under it a path is a matter of the forwarding source alone.
use crate::map::LaneMap;
use rack::numbers::{Channel, Lane, Level};

#[derive(Clone, Copy)]
pub struct OneLane;

impl LaneMap for OneLane {
    ghost lanes = { λ _ _ _ _. 0 };

    fn lane(&self, _arriving: Channel, _leaving: Channel, _level: Level) -> Lane {
        Lane::zero()
    }
}
