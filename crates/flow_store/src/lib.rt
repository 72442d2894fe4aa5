//! Stores of a node's items: in the order of arrival, of rank or of tag, and one value that is kept.
#![tactic(auto)]

mod bag;
mod fifo;
mod one;
mod orders;
mod places;
mod rank;
mod ranked;
mod rooms;
mod seq;
mod store;

pub use bag::BagStore;
pub use fifo::FifoStore;
pub use one::OneStore;
pub use rank::RankStore;
pub use seq::SeqStore;
pub use store::{Store, Way};
