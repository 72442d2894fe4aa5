//! The chairs of a run's callers and workers.
use crate::machine::GraphMachine;
use flow_line::{Chairs, Naming};

/// The chairs of a run's callers and those of its workers, each by their numbers.
#[derive(Drop)]
pub struct Seats<B: Naming> {
    /// The callers' chairs.
    pub callers: Chairs<GraphMachine, B>,
    /// The workers' chairs.
    pub workers: Chairs<GraphMachine, B>,
}
