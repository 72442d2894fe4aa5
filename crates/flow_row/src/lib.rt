//! A book over two queues in a row: so many threads put into the first queue and serve both.
//!
//! It serves to time a book and to try it from several threads. Its clauses say nothing of what the run is.
#![tactic(auto)]

mod row;
mod seats;

pub use row::{Ran, run};
pub use seats::{add_chair, take_last};
