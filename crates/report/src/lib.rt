// What the console answers to a rack file.
#![tactic(auto)]

pub mod laws;
pub mod lines;
mod pairs;
pub mod refusal;
pub mod report;
pub mod tables;
