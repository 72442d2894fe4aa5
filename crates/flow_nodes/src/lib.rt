//! The nodes of a graph, and their states after a journal.
#![tactic(auto)]

mod after;
mod build;
mod due;
mod nodes;

pub use after::replay;
pub use build::start;
pub use due::DueSet;
pub use nodes::Nodes;
