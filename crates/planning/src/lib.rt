// A plan built and checked in one: what the builder builds, the check accepts.
#![tactic(auto)]

pub mod fault;
pub mod plan;
