// A rack: its tables, its nodes, cables and channels.
#![tactic(auto)]

pub mod cable;
pub mod ends;
pub mod fault;
pub mod kind;
pub mod numbers;
pub mod rack;
