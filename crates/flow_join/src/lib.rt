//! Joins: items that wait at ports until a tuple can be formed of them.
#![tactic(auto)]

mod key;
mod key_port;
mod parts;
mod queue;
mod tags;

pub use key::KeyJoin;
pub use queue::QueueJoin;
