//! A run of a document on threads, from its opening to its journal.
//!
//! `run_all` opens a graph, and gives each caller a thread that follows the caller's script and each worker one that serves
//! the nodes, until all callers have left and nothing is open, or an event is refused. When all have come back, a worker
//! looks whether that end was reached, and the graph is closed.
//!
//! ```text
//!   open ──► callers ── each follows its script ────────────┐
//!       └──► workers ── serve the nodes, and run bodies ────┴──► is it done? ──► close ──► journal, refused event
//! ```
//!
//! What is said of the journal comes from the chairs, which are proved one by one: a caller's tells that its events are a
//! first part of its script, a worker's that the bodies that it ended gave the messages of their meanings. The closed
//! journal has of each party the events that its chair has, so the same holds of the whole. The journal is legal, and laws
//! of all legal journals say the rest, up to the meaning of a determinate document.
#![tactic(auto)]

mod births;
mod follow;
mod run;

pub use flow_crew::{Bodies, Builtin, Gate, NoGate, Point};
pub use run::{run_all, run_all_with_nodes};
