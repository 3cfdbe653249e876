// What the program for the bench decides: plan files, calls on a dry fabric, and the answers to them.
#![tactic(auto)]

pub mod answer;
pub mod arguments;
pub mod built;
pub mod checked;
pub mod dry;
mod forwarding;
pub mod laws;
pub mod layout;
pub mod plan_file;
pub mod rack_file;
pub mod reply;
pub mod request;
pub mod ring;
pub mod summary;
mod tally;
mod two_hop;
mod words;
