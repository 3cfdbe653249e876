// What holds of all rack files and of all racks.
#![tactic(auto)]

pub mod files;
pub mod racks;
