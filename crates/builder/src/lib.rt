// The builder of lane plans: a lane that rises from switch to switch, at the lowest level that has room for it.
#![tactic(auto)]

pub mod build;
pub mod fault;
pub mod laws;
mod turns;
