// The check of a plan: every pair is delivered, and the channel dependency graph has no ring.
#![tactic(auto)]

pub mod acceptance;
pub mod bare;
pub mod check;
pub mod fault;
pub mod graph;
pub mod marks;
mod words;
