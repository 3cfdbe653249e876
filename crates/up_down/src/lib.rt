// The forwarding source that goes up and then down over a chosen root switch.
#![tactic(auto)]

pub mod begin;
pub mod fault;
pub mod laws;
pub mod source;
mod tiers;
