// Forwarding sources, lane maps, plans and the paths that they make.
#![tactic(auto)]

pub mod distances;
pub mod downhill;
pub mod fault;
pub mod laws;
pub mod map;
pub mod one_lane;
pub mod pair;
pub mod pairs;
pub mod plan;
pub mod rows;
pub mod sizes;
pub mod source;
pub mod stored;
pub mod two_hop;
pub mod walk;
