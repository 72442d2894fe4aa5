//! A graph at work: its callers, and the workers that run it.
//!
//! A graph binds a document's nodes behind their locks, a pool of the nodes that may have work, and a shelf of bodies.
//! Whoever makes an event puts its nodes into the pool, but for those that another serves already. A worker takes a node
//! out of it and makes the events of the node's wishes until it rests, and runs each body that it started with no lock
//! held. A caller that waits does the same under a worker's chair of its own.
//!
//! ```text
//!   caller ── put ──► book ──► node ──► inject ─┐
//!                                               ▼
//!   worker ◄── take ─────────────────────────  pool
//!      └──── serve ──► book ──► other nodes ─► push ─┘
//!      └──── take answers none: was it refused? what is open? ── else it sleeps until the bell rings
//! ```
#![tactic(auto)]

mod bell;
mod bodies;
mod caller;
mod graph;
mod job;
mod mark;
mod open;
mod parts;
mod waited;
mod worker;

pub use bodies::{Bodies, Builtin};
pub use caller::Caller;
pub use flow_book::{Gate, NoGate, Point};
pub use graph::Graph;
pub use parts::Parts;
pub use waited::Waited;
pub use worker::Worker;
