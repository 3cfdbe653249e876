// Reads a rack file into tables.
#![tactic(auto)]

pub mod add;
pub mod fault;
pub mod limits;
pub mod read;
pub mod record;
