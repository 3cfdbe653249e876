// The dry fabric: packets in the queues of a rack's virtual channels, moved by calls, under a plan.
#![tactic(auto)]

pub mod call;
pub mod fabric;
pub mod fault;
pub mod laws;
pub mod packet;
pub mod queue;
